// What the next run is given: its text, how its streams behave, and who plays.

use crate::line_result::{LineResult, counted, parted};
use crate::made::{add_bushes, add_leaves, add_lines};
use crate::mark::{GivenMark, ManyMark};
use crate::player::{NamedPlayer, manner_of};
use crate::stream::{Stream, StreamSetting, Streams};
use krieg_board::Side;
use krieg_ports::{MemSink, MemSource};
use std::alloc::Global;
use std::mem;

/// What a run gets.
#[derive(Drop)]
pub struct RunInput {
    pub text: Vec<u8>,
    pub input: StreamSetting,
    pub out: StreamSetting,
    pub err: StreamSetting,
    pub players: Vec<NamedPlayer>,
    /// Whether the seats that were relieved are dismissed behind the run.
    pub dismisses: bool,
}

impl RunInput {
    /// Nothing is given, nobody plays, and no stream fails.
    pub fn new(alloc: Global) -> RunInput {
        RunInput {
            text: Vec::new(alloc),
            input: StreamSetting::new(alloc, 7, 0),
            out: StreamSetting::new(alloc, 1_000, 100_000),
            err: StreamSetting::new(alloc, 100, 100),
            players: Vec::new(alloc),
            dismisses: false,
        }
    }

    /// Whether nothing was given that a run would have to take.
    pub fn is_empty(&self) -> bool {
        self.text.is_empty() && self.players.is_empty()
    }

    /// The streams of the run, which has its text and its settings then.
    pub fn streams(&mut self, alloc: Global) -> Streams<Stream<MemSource>, Stream<MemSink>> {
        let text = mem::replace(&mut self.text, Vec::new(alloc));
        Streams {
            input: self.input.source(alloc, text),
            out: self.out.sink(alloc),
            err: self.err.sink(alloc),
        }
    }

    /// Adds these bytes. It tells whether there was memory.
    pub fn add(&mut self, bytes: &[u8]) -> bool {
        self.text.extend_from_slice(bytes).is_ok()
    }

    /// Adds a text, and how it ends.
    fn add_ended(&mut self, text: &str, end: &[u8]) -> LineResult {
        LineResult::kept(self.add(text.as_bytes()) && self.add(end))
    }

    /// Adds so many nodes with the line behind a number, each with so many edges.
    fn add_bushes(&mut self, count: usize, rest: &str) -> LineResult {
        match counted(rest) {
            Some((edges, line)) => LineResult::kept(add_bushes(count, edges, line, &mut self.text)),
            None => LineResult::Fails,
        }
    }

    /// Adds so many nodes without edges, with the try and the front words of the text.
    fn add_leaves(&mut self, count: usize, rest: &str) -> bool {
        let (tried, front) = parted(rest);
        add_leaves(count, tried, front, &mut self.text)
    }

    /// Takes a line with a number that gives something to the next run.
    pub fn take_many(&mut self, mark: ManyMark, text: &str) -> LineResult {
        let Some((count, rest)) = counted(text) else {
            return LineResult::Fails;
        };
        match mark {
            ManyMark::Lines => LineResult::kept(add_lines(count, rest, &mut self.text)),
            ManyMark::Leaves => LineResult::kept(self.add_leaves(count, rest)),
            ManyMark::Bushes => self.add_bushes(count, rest),
        }
    }

    /// Sets how the stream that is named first behaves.
    fn set(&mut self, words: &str) -> LineResult {
        match parted(words) {
            ("in", words) => self.input.set(words),
            ("out", words) => self.out.set(words),
            ("err", words) => self.err.set(words),
            _ => LineResult::Fails,
        }
    }

    fn add_player(&mut self, alloc: Global, who: Side, words: &str) -> LineResult {
        let Some(manner) = manner_of(words) else {
            return LineResult::Fails;
        };
        let mut player = NamedPlayer::new(alloc, who, manner);
        let taken = player.add_moves(words);
        if self.players.push(player).is_ok() {
            taken
        } else {
            LineResult::Short
        }
    }

    /// Adds a text, and how it ends, to what the player has who was named last.
    fn send(&mut self, text: &str, end: &[u8]) -> LineResult {
        match self.players.last_mut() {
            Some(player) => player.send(text, end),
            None => LineResult::Fails,
        }
    }

    /// Has a call of the player fail who was named last.
    fn fail(&mut self, text: &str) -> LineResult {
        match self.players.last_mut() {
            Some(player) => player.fail(text),
            None => LineResult::Fails,
        }
    }

    fn dismiss(&mut self) -> LineResult {
        self.dismisses = true;
        LineResult::Holds
    }

    /// Takes a line that gives something to the next run.
    pub fn take(&mut self, alloc: Global, mark: GivenMark, text: &str) -> LineResult {
        match mark {
            GivenMark::Line => self.add_ended(text, b"\n"),
            GivenMark::Part => self.add_ended(text, b""),
            GivenMark::Return => self.add_ended(text, b"\r\n"),
            GivenMark::Setting => self.set(text),
            GivenMark::White => self.add_player(alloc, Side::White, text),
            GivenMark::Black => self.add_player(alloc, Side::Black, text),
            GivenMark::Send => self.send(text, b"\n"),
            GivenMark::SendPart => self.send(text, b""),
            GivenMark::SeatFails => self.fail(text),
            GivenMark::Dismiss => self.dismiss(),
        }
    }
}
