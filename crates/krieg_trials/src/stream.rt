// How a stream of a run behaves, and the streams themselves.

ghost use Rattle.std.specs.Prelude.{None};

use crate::line_result::LineResult;
use krieg_ports::{Failed, MemSink, MemSource, Sink, Source};
use std::alloc::Global;
use std::mem;

/// How a stream behaves.
#[derive(Drop)]
pub struct StreamSetting {
    /// The calls that fail, from 1 on.
    fails: Vec<u64>,
    /// The count of faults at the start. At its last value each call fails.
    faults: u64,
    /// The most bytes of a call.
    piece: usize,
    /// The most bytes in all, of a sink.
    room: usize,
    /// The places of a sink, once they were made.
    space: Vec<u8>,
}

impl StreamSetting {
    /// A stream that does not fail.
    pub fn new(alloc: Global, piece: usize, room: usize) -> StreamSetting {
        StreamSetting {
            fails: Vec::new(alloc),
            faults: 0,
            piece,
            room,
            space: Vec::new(alloc),
        }
    }

    /// Takes `fails NUMBER`, `piece NUMBER`, `room NUMBER` or `worn`.
    pub fn set(&mut self, words: &str) -> LineResult {
        let (what, number) = words.split_once(' ').unwrap_or((words, "1"));
        let Ok(number) = number.parse::<usize>() else {
            return LineResult::Fails;
        };
        match what {
            "fails" => return LineResult::kept(self.fails.push(number as u64).is_ok()),
            "worn" => self.faults = u64::MAX,
            "piece" if number > 0 => self.piece = number,
            "room" => self.room = number,
            _ => return LineResult::Fails,
        }
        LineResult::Holds
    }

    /// A source of this text. The calls that fail are its own from now on.
    pub fn source(&mut self, alloc: Global, text: Vec<u8>) -> Stream<MemSource> {
        let fails = mem::replace(&mut self.fails, Vec::new(alloc));
        Stream {
            inner: MemSource::new(text, self.piece.max(1), fails),
            faults: self.faults,
        }
    }

    /// Makes the places of a sink. It tells whether there was memory.
    pub fn make_room(&mut self) -> bool {
        self.space.resize(self.room, 0u8).is_ok()
    }

    /// A sink with the places that were made. They, and the calls that fail, are its own from now on.
    pub fn sink(&mut self, alloc: Global) -> Stream<MemSink> {
        let space = mem::replace(&mut self.space, Vec::new(alloc));
        let fails = mem::replace(&mut self.fails, Vec::new(alloc));
        Stream {
            inner: MemSink::new(space, self.piece.max(1), fails),
            faults: self.faults,
        }
    }
}

/// A stream in memory with a count of faults of its own, which may stand at its last value from the start. Then each
/// call fails.
#[derive(Drop)]
pub struct Stream<S> {
    inner: S,
    faults: u64,
}

impl Stream<MemSink> {
    /// What the sink got.
    pub fn bytes(&self) -> &[u8] {
        self.inner.bytes()
    }
}

impl<S: Source> Source for Stream<S> {
    ghost left = { λ _. None };

    ghost faults = { λ s. s.faults };

    fn read(&mut self, buf: &mut [u8]) -> Result<usize, Failed> {
        if self.faults < u64::MAX {
            match self.inner.read(buf) {
                Ok(count) => return Ok(count),
                Err(Failed) => {}
            }
        }
        self.faults = self.faults.saturating_add(1);
        Err(Failed)
    }
}

impl<S: Sink> Sink for Stream<S> {
    ghost got = { λ _. None };

    ghost faults = { λ s. s.faults };

    fn write(&mut self, piece: &[u8]) -> Result<usize, Failed> {
        if self.faults < u64::MAX {
            match self.inner.write(piece) {
                Ok(count) => return Ok(count),
                Err(Failed) => {}
            }
        }
        self.faults = self.faults.saturating_add(1);
        Err(Failed)
    }
}

/// The streams of a run.
#[derive(Drop)]
pub struct Streams<S, O> {
    pub input: S,
    pub out: O,
    pub err: O,
}
