//! Players behind streams of the system that fail: what they say, and what stands behind their writers.

ghost use Rattle.std.specs.Prelude.{◌≤◌, length};

use krieg_fen::read_move;
use krieg_seats::{Say, Seat, SeatFault, StreamSeat};
use krieg_wordtext::read_line;
use std::alloc::Global;
use std::io;
use std::io::ErrorKind::{BrokenPipe, Interrupted};
use std::io::{ErrorKind, Read, Write};

/// Which calls of a stream fail, from the first to the last of these numbers, and how. Nought is the number of none.
#[derive(Clone, Copy)]
struct Faults {
    first: usize,
    last: usize,
    kind: ErrorKind,
}

/// Counts a call, and tells whether it works.
fn meet(calls: &mut usize, faults: Faults) -> io::Result<()> {
    *calls = calls.saturating_add(1);
    if faults.first <= *calls && *calls <= faults.last {
        Err(io::Error::from(faults.kind))
    } else {
        Ok(())
    }
}

/// A reader that gives a byte a call.
#[derive(Drop)]
struct ShakyReader<'a> {
    text: &'a [u8],
    calls: usize,
    faults: Faults,
}

impl Read for ShakyReader<'_> {
    fn read(&mut self, buf: &mut [u8]) -> io::Result<usize> {
        match meet(&mut self.calls, self.faults) {
            Ok(()) => Ok(give_byte(&mut self.text, buf)),
            Err(error) => Err(error),
        }
    }
}

/// Gives the first byte of the text, where there is one, and tells how many bytes were given.
fn give_byte(text: &mut &[u8], buf: &mut [u8]) -> usize
    ensures { result ≤ length buf.new }
{
    match (*text, buf) {
        ([byte, rest @ ..], [place, ..]) => {
            *place = *byte;
            *text = rest;
            1
        }
        _ => 0,
    }
}

/// A writer that takes at most so many bytes a call.
#[derive(Drop)]
struct ShakyWriter<'a> {
    got: &'a mut Vec<u8>,
    takes: usize,
    calls: usize,
    faults: Faults,
}

impl Write for ShakyWriter<'_> {
    fn write(&mut self, piece: &[u8]) -> io::Result<usize> {
        match meet(&mut self.calls, self.faults) {
            Ok(()) => Ok(take_front(piece, self.takes, self.got)),
            Err(error) => Err(error),
        }
    }

    fn flush(&mut self) -> io::Result<()> {
        Ok(())
    }
}

/// Takes at most so many bytes of the piece, and tells how many: none where there is no memory.
fn take_front(piece: &[u8], most: usize, got: &mut Vec<u8>) -> usize
    ensures { result ≤ length piece.now }
{
    let taken = &piece[..piece.len().min(most)];
    match got.extend_from_slice(taken) {
        Ok(()) => taken.len(),
        Err(_) => 0,
    }
}

/// Whether this is the answer: a move, `leaves` or `fails`.
fn is_answer(answer: Result<Say, SeatFault>, want: &str) -> bool {
    match answer {
        Ok(Say::Try(mv)) => matches!(read_move(want.as_bytes()), Ok(wanted) if wanted == mv),
        Ok(Say::Leave) => want == "leaves",
        Err(SeatFault::Failed) => want == "fails",
        Err(SeatFault::NoMemory) => false,
    }
}

/// Whether the player gives these answers, one each time that he is asked.
fn answers<S: Seat>(seat: &mut S, wants: &[&str]) -> bool {
    for want in wants {
        if !is_answer(seat.ask(), want) {
            return false;
        }
    }
    true
}

/// The reads that fail of a text of two lines, of which the first is too long, and four answers of a player behind it. Behind an error
/// inside a line the rest of that line is no try. A read that a signal interrupts 999 times is made again.
static READS: [(usize, usize, ErrorKind, [&str; 4]); 10] = [
    (0, 0, BrokenPipe, ["fails", "b1b2", "leaves", "leaves"]),
    (1, 1, BrokenPipe, ["fails", "fails", "b1b2", "leaves"]),
    (5, 5, BrokenPipe, ["fails", "b1b2", "leaves", "leaves"]),
    (9, 9, BrokenPipe, ["fails", "fails", "b1b2", "leaves"]),
    (10, 10, BrokenPipe, ["fails", "fails", "b1b2", "leaves"]),
    (12, 12, BrokenPipe, ["fails", "fails", "leaves", "leaves"]),
    (1, usize::MAX, BrokenPipe, ["fails"; 4]),
    (
        12,
        1_010,
        Interrupted,
        ["fails", "b1b2", "leaves", "leaves"],
    ),
    (
        12,
        1_011,
        Interrupted,
        ["fails", "fails", "leaves", "leaves"],
    ),
    (1, usize::MAX, Interrupted, ["fails"; 4]),
];

/// Whether a player behind the text gives these answers, where these reads fail.
fn reads(alloc: Global, faults: Faults, wants: &[&str]) -> bool {
    let text = b"a1a1h1h8\nb1b2\n".as_slice();
    let from = ShakyReader {
        text,
        calls: 0,
        faults,
    };
    let to: Option<Vec<u8>> = None;
    answers(&mut StreamSeat::new(alloc, Some(from), to), wants)
}

fn reads_all(alloc: Global) -> bool {
    for (first, last, kind, wants) in &READS {
        let faults = Faults {
            first: *first,
            last: *last,
            kind: *kind,
        };
        if !reads(alloc, faults, wants) {
            return false;
        }
    }
    true
}

#[test]
fn a_read_that_fails_is_a_fault(rt: HostRuntime) {
    assert!(rt; reads_all(rt.alloc()));
}

/// How many bytes a writer takes a call, the writes that fail, of which the first line takes 13 of a byte each, whether each of two lines
/// is heard, and what stands behind the writer. One that takes nothing fails.
static WRITES: [(usize, usize, usize, ErrorKind, [bool; 2], &[u8]); 9] = [
    (
        1,
        0,
        0,
        BrokenPipe,
        [true, true],
        b"opens silent\nheard mate\n",
    ),
    (
        100,
        0,
        0,
        BrokenPipe,
        [true, true],
        b"opens silent\nheard mate\n",
    ),
    (0, 0, 0, BrokenPipe, [false, false], b""),
    (1, 1, 1, BrokenPipe, [false, true], b"heard mate\n"),
    (
        1,
        13,
        13,
        BrokenPipe,
        [false, true],
        b"opens silentheard mate\n",
    ),
    (1, 14, 14, BrokenPipe, [true, false], b"opens silent\n"),
    (1, 1, usize::MAX, BrokenPipe, [false, false], b""),
    (
        1,
        5,
        1_003,
        Interrupted,
        [true, true],
        b"opens silent\nheard mate\n",
    ),
    (1, 5, 1_004, Interrupted, [false, true], b"openheard mate\n"),
];

/// Whether the player hears the line.
fn hears<S: Seat>(seat: &mut S, text: &str) -> bool {
    match read_line(text.as_bytes()) {
        Ok(line) => seat.tell(line).is_ok(),
        Err(_) => false,
    }
}

/// Which of two lines a player hears, where so many bytes are taken and these writes fail.
fn writes(alloc: Global, takes: usize, faults: Faults, got: &mut Vec<u8>) -> [bool; 2] {
    let from: Option<&[u8]> = None;
    let to = ShakyWriter {
        got,
        takes,
        calls: 0,
        faults,
    };
    let mut seat = StreamSeat::new(alloc, from, Some(to));
    [
        hears(&mut seat, "opens silent"),
        hears(&mut seat, "heard mate"),
    ]
}

fn writes_all(alloc: Global) -> bool {
    for (takes, first, last, kind, heard, want) in &WRITES {
        let faults = Faults {
            first: *first,
            last: *last,
            kind: *kind,
        };
        let mut got = Vec::new(alloc);
        if writes(alloc, *takes, faults, &mut got) != *heard || got.as_slice() != *want {
            return false;
        }
    }
    true
}

#[test]
fn a_write_that_fails_is_a_fault(rt: HostRuntime) {
    assert!(rt; writes_all(rt.alloc()));
}
