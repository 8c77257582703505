// Reading a source to its end, and writing a whole text.
ghost use Rattle.std.specs.Prelude.{◌≡◌, ◌≢◌, ◌≤◌, ◌<◌, length, vec_len};
ghost use Rattle.std.specs.Prelude.{IfOk, IfErr, IfSome, OnOk, OnErr};
ghost use Rattle.std.specs.Io.KnownBytes.{Appends, Consumes, IsAtEnd};
ghost use Rattle.krieg_ports.specs.Bytes.{AppendsPrefix, Gave};
ghost use Rattle.krieg_ports.specs.Faults.{Rose};
ghost use Rattle.krieg_ports.specs.ReadEnd.{CameBefore};

use crate::ports::{Failed, Sink, Source};
use std::alloc::Global;

/// Why a source was not read to its end.
#[derive(Clone, Copy)]
pub enum ReadEnd {
    /// A read failed. No more bytes than are allowed had come.
    ReadFault,
    /// More bytes came than are allowed, before an end or a fault.
    TooLong,
    /// There was no memory for the bytes.
    NoMemory,
}

/// A sink failed before it had got all bytes.
#[derive(Clone, Copy)]
pub struct WriteFault;

/// The most bytes that one read asks for.
const CHUNK: usize = 65_536;

/// All bytes of the source up to its end, where there are at most `max`.
///
/// # Errors
///
/// `TooLong` comes exactly where more than `max` bytes came before an end or a fault, and
/// `ReadFault` only where the source's count of faults rose in this call, or stands at its last
/// value. After every other answer the count is as it was: nothing is read after a fault. The bytes that came before an error are gone from the source: `max + 1` of them before
/// `TooLong`, and at most `max` before the others.
pub fn read_all<S: Source>(alloc: Global, src: &mut S, max: usize) -> Result<Vec<u8>, ReadEnd>
    ensures all { IfOk result (λ found. Consumes (S.left src.old) (S.left src.new) found.items) }
    ensures end { OnOk result (IsAtEnd (S.left src.new)) }
    ensures fits { IfOk result (λ found. vec_len found ≤ max) }

    // How many bytes came before each error.
    ensures came { IfErr result (λ why.
        Gave (S.left src.old) (S.left src.new) (CameBefore why max)) }
    ensures long { result ≡ Err ReadEnd.TooLong →
        IfSome (S.left src.old) (λ bytes. max < length bytes) }

    // A fault exactly by the source's own count: after no other answer has it risen.
    ensures fault { result ≡ Err ReadEnd.ReadFault → Rose (S.faults src.old) (S.faults src.new) }
    ensures kept { result ≢ Err ReadEnd.ReadFault → S.faults src.new ≡ S.faults src.old }
    ensures later { S.faults src.old ≤ S.faults src.new }
{
    let mut found = Vec::new(alloc);
    let mut buf = [0u8; CHUNK];
    loop {
        let allowed = max - found.len();
        let asked = allowed.saturating_add(1).min(CHUNK);
        match src.read(&mut buf[..asked]) {
            Err(Failed) => return Err(ReadEnd::ReadFault),
            Ok(0) => return Ok(found),
            Ok(n) if n > allowed => return Err(ReadEnd::TooLong),
            Ok(n) => {
                if found.extend_from_slice(&buf[..n]).is_err() {
                    return Err(ReadEnd::NoMemory);
                }
            }
        }
    }
}

/// Writes all bytes, in order. It takes no memory.
///
/// # Errors
///
/// `WriteFault` comes only where the sink's count of faults rose in this call, or stands at its last
/// value. The sink has got a front part of the bytes then. Where all bytes were written the count is
/// as it was.
pub fn write_all<O: Sink>(sink: &mut O, bytes: &[u8]) -> Result<(), WriteFault>
    ensures all { OnOk result (Appends (O.got sink.old) (O.got sink.new) bytes.now) }
    ensures prefix { OnErr result (AppendsPrefix (O.got sink.old) (O.got sink.new) bytes.now) }
    ensures fault { OnErr result (Rose (O.faults sink.old) (O.faults sink.new)) }
    ensures kept { OnOk result (O.faults sink.new ≡ O.faults sink.old) }
    ensures later { O.faults sink.old ≤ O.faults sink.new }
{
    let mut sent = 0;
    while sent < bytes.len() {
        match sink.write(&bytes[sent..]) {
            Err(Failed) => return Err(WriteFault),
            Ok(n) => sent += n,
        }
    }
    Ok(())
}
