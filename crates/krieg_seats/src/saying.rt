// What a player says by the bytes that he sends: a line at a time, read byte by byte, so that no byte of a later
// line is taken from others who read on.
ghost use Rattle.std.specs.Prelude.{◌≡◌, ◌≤◌, ◌⊎◌, ℕ, true, false, IfOk, OnOk, OnErr, Some, None, option_map};
ghost use Rattle.std.specs.Io.KnownBytes.{Keeps};
ghost use Rattle.krieg_ports.specs.Faults.{Rose};
ghost use Rattle.krieg_fen.specs.MoveText.{move_of};
ghost use Rattle.krieg_text.specs.Outcomes.{Reads};
ghost use Rattle.krieg_seats.specs.Saying.{lines_left, ReadsLine, IsEndless};
ghost use Rattle.krieg_seats.specs.LineReading.{GivesByte, said_so, IsWithin};

use crate::seat::Say;
use krieg_fen::read_move;
use krieg_ports::{Failed, Source};

/// The most bytes of the text of a move.
const MOST_BYTES: usize = 5;

/// How a line was read.
#[derive(Clone, Copy)]
enum LineRead {
    /// All of it, which is so many bytes of the buffer.
    Whole(usize),
    /// It has more bytes than the text of any move. The rest of it is not read.
    Long,
    /// No byte was left.
    Absent,
}

/// The next byte of the source, or none at its end.
fn next_byte<S: Source>(source: &mut S) -> Result<Option<u8>, Failed>
    ensures gives { IfOk result (GivesByte (S.left source.old) (S.left source.new)) }
    ensures err { OnErr result (Keeps (S.left source.old) (S.left source.new)) }
    ensures failed { OnErr result (Rose (S.faults source.old) (S.faults source.new)) }
    ensures later { S.faults source.old ≤ S.faults source.new }
{
    let mut byte = [0u8; 1];
    match source.read(&mut byte) {
        Err(Failed) => Err(Failed),
        Ok(0) => Ok(None),
        Ok(_) => Ok(Some(byte[0])),
    }
}

/// Passes over the rest of a line, and its line feed.
fn pass_line<S: Source>(source: &mut S) -> Result<(), Failed>
    ensures passed { OnOk result (Keeps (lines_left true (S.left source.old)) (S.left source.new)) }
    ensures failed { OnErr result
        (Rose (S.faults source.old) (S.faults source.new) ⊎ IsEndless (S.left source.old)) }
    ensures later { S.faults source.old ≤ S.faults source.new }
{
    for _ in 0..u64::MAX {
        match next_byte(source) {
            Err(Failed) => return Err(Failed),
            Ok(None | Some(b'\n')) => return Ok(()),
            Ok(Some(_)) => {}
        }
    }
    Err(Failed)
}

/// Goes to the next line, where it stands inside one.
fn begin_line<S: Source>(source: &mut S, inside: &mut bool) -> Result<(), Failed>
    ensures begun { OnOk result (Keeps (lines_left inside.old (S.left source.old))
        (S.left source.new)) }
    ensures outside { OnOk result (inside.new ≡ false) }
    ensures failed { OnErr result
        (Rose (S.faults source.old) (S.faults source.new) ⊎ IsEndless (S.left source.old)) }
    ensures later { S.faults source.old ≤ S.faults source.new }
{
    if *inside {
        match pass_line(source) {
            Ok(()) => *inside = false,
            Err(Failed) => return Err(Failed),
        }
    }
    Ok(())
}

/// Reads a line into the buffer, or its front, where it is longer.
fn read_line<S: Source>(
    source: &mut S,
    inside: &mut bool,
    line: &mut [u8; MOST_BYTES],
) -> Result<LineRead, Failed>
    requires { inside.old ≡ false }
    ensures read { IfOk result (λ how. ReadsLine (said_so how line.new) (S.left source.old)
        (lines_left inside.new (S.left source.new))) }
    ensures within { IfOk result IsWithin }
    ensures failed { OnErr result (Rose (S.faults source.old) (S.faults source.new)) }
{
    let mut count = 0;
    'bytes: loop {
        match next_byte(source) {
            Err(Failed) => return Err(Failed),
            Ok(None) if count == 0 => return Ok(LineRead::Absent),
            Ok(None) => {
                *inside = false;
                return Ok(LineRead::Whole(count));
            }
            Ok(Some(byte)) if byte == b'\n' => {
                *inside = false;
                return Ok(LineRead::Whole(count));
            }
            Ok(Some(byte)) => {
                *inside = true;
                if count == MOST_BYTES {
                    return Ok(LineRead::Long);
                }
                line[count] = byte;
                count += 1;
            }
        }
    }
}

fn try_of(text: &[u8]) -> Result<Say, Failed>
    ensures { Reads result (option_map Say.Try (move_of text.now)) }
{
    match read_move(text) {
        Ok(mv) => Ok(Say::Try(mv)),
        Err(_) => Err(Failed),
    }
}

/// What the next line says. A line of more than five bytes says nothing; no more than six of them are read, and
/// the rest is passed over in the next call, of which `inside` tells.
pub(crate) fn next_say<S: Source>(source: &mut S, inside: &mut bool) -> Result<Say, Failed>
    ensures says { IfOk result (λ say. ReadsLine (Some say)
        (lines_left inside.old (S.left source.old))
        (lines_left inside.new (S.left source.new))) }
    ensures failed { OnErr result (ReadsLine None (lines_left inside.old (S.left source.old))
        (lines_left inside.new (S.left source.new))
        ⊎ (Rose (S.faults source.old) (S.faults source.new) ⊎ IsEndless (S.left source.old))) }
{
    match begin_line(source, inside) {
        Err(Failed) => return Err(Failed),
        Ok(()) => {}
    }
    let mut line = [0u8; MOST_BYTES];
    match read_line(source, inside, &mut line) {
        Err(Failed) => Err(Failed),
        Ok(LineRead::Absent) => Ok(Say::Leave),
        Ok(LineRead::Long) => Err(Failed),
        Ok(LineRead::Whole(count)) => try_of(&line[..count]),
    }
}
