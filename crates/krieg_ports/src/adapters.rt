// A source over a reader of std and a sink over a writer: the edge where the system's streams come
// in. The clauses of std are trusted for what a reader gives and a writer takes.
ghost use Rattle.std.specs.Prelude.{◌≡◌, ◌≤◌, OnOk, OnErr, is_ok, if◌then◌else◌};
ghost use Rattle.std.specs.Io.{ReadsAtMost, WritesAtMost};
ghost use Rattle.std.specs.Io.KnownBytes.{ReadConsumes, WriteAppends};
ghost use Rattle.krieg_ports.specs.Adapters.{inner_reader, inner_writer, read_faults, write_faults};
ghost use Rattle.krieg_ports.specs.Bytes.{TakesSome};
ghost use Rattle.krieg_ports.specs.Faults.{one_more, Rose};

use crate::ports::{Failed, Sink, Source, count_fault};
use std::io;
use std::io::{ErrorKind, Read, Write};

/// How often a call is made in all where a signal interrupts it each time.
const TRIES: u32 = 1_000;

/// A source over a reader of std. It tells of its bytes what the reader tells, which is nothing for
/// standard input and for files.
#[derive(Drop)]
pub struct Adapter<R> {
    inner: R,
    faults: u64,
}

impl<R: Read> Adapter<R> {
    /// A source over `inner`, with no fault so far.
    pub fn new(inner: R) -> Adapter<R>
        ensures inner { inner_reader result ≡ inner }
        ensures faults { read_faults result ≡ 0 }
    {
        Adapter { inner, faults: 0 }
    }
}

impl<R: Read> Source for Adapter<R> {
    ghost left = { λ a. R.remaining (inner_reader a) };

    ghost faults = { read_faults };

    /// Each error of the reader is a fault. A read that a signal interrupts is made again, and is a
    /// fault once it was interrupted a thousand times in a row.
    fn read(&mut self, buf: &mut [u8]) -> Result<usize, Failed>
        ensures bound { ReadsAtMost result buf.new }
        ensures bytes { ReadConsumes (R.remaining (inner_reader self.old))
            (R.remaining (inner_reader self.new)) result buf.new }
        ensures kept { OnOk result (read_faults self.new ≡ read_faults self.old) }
        ensures failed { OnErr result (Rose (read_faults self.old) (read_faults self.new)) }
        ensures later { read_faults self.old ≤ read_faults self.new }

        // The count goes up by one at a failure, and at no other call.
        ensures counted { read_faults self.new
            ≡ (if is_ok result then read_faults self.old else one_more (read_faults self.old)) }
    {
        match read_uninterrupted(&mut self.inner, buf) {
            Ok(n) => Ok(n),
            Err(_) => Err(count_fault(&mut self.faults)),
        }
    }
}

/// One read, made again where a signal interrupts it.
fn read_uninterrupted<R: Read>(reader: &mut R, buf: &mut [u8]) -> io::Result<usize>
    ensures bound { ReadsAtMost result buf.new }
    ensures bytes { ReadConsumes (R.remaining reader.old) (R.remaining reader.new) result buf.new }
{
    for _ in 1..TRIES {
        match reader.read(buf) {
            Err(e) if e.kind() == ErrorKind::Interrupted => {}
            outcome => return outcome,
        }
    }
    reader.read(buf)
}

/// A sink over a writer of std. It tells of its bytes what the writer tells, which is nothing for
/// standard output, standard error and files.
#[derive(Drop)]
pub struct AdapterOut<W> {
    inner: W,
    faults: u64,
}

impl<W: Write> AdapterOut<W> {
    /// A sink over `inner`, with no fault so far.
    pub fn new(inner: W) -> AdapterOut<W>
        ensures inner { inner_writer result ≡ inner }
        ensures faults { write_faults result ≡ 0 }
    {
        AdapterOut { inner, faults: 0 }
    }
}

impl<W: Write> Sink for AdapterOut<W> {
    ghost got = { λ a. W.contents (inner_writer a) };

    ghost faults = { write_faults };

    /// Each error of the writer is a fault, and so is a write that takes nothing of a piece that is
    /// not empty. A write that a signal interrupts is made again, and is a fault once it was
    /// interrupted a thousand times in a row.
    fn write(&mut self, piece: &[u8]) -> Result<usize, Failed>
        ensures takes { TakesSome result piece.now }
        ensures bytes { WriteAppends (W.contents (inner_writer self.old))
            (W.contents (inner_writer self.new)) result piece.now }
        ensures kept { OnOk result (write_faults self.new ≡ write_faults self.old) }
        ensures failed { OnErr result (Rose (write_faults self.old) (write_faults self.new)) }
        ensures later { write_faults self.old ≤ write_faults self.new }

        // The count goes up by one at a failure, and at no other call.
        ensures counted { write_faults self.new
            ≡ (if is_ok result then write_faults self.old else one_more (write_faults self.old)) }
    {
        match write_uninterrupted(&mut self.inner, piece) {
            Ok(n) if n > 0 || piece.is_empty() => Ok(n),
            _ => Err(count_fault(&mut self.faults)),
        }
    }
}

/// One write, made again where a signal interrupts it.
fn write_uninterrupted<W: Write>(writer: &mut W, piece: &[u8]) -> io::Result<usize>
    ensures bound { WritesAtMost result piece.now }
    ensures bytes { WriteAppends (W.contents writer.old) (W.contents writer.new) result piece.now }
{
    for _ in 1..TRIES {
        match writer.write(piece) {
            Err(e) if e.kind() == ErrorKind::Interrupted => {}
            outcome => return outcome,
        }
    }
    writer.write(piece)
}
