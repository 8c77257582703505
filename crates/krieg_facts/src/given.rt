// What a line gives, as it is read.

use crate::mark::{Mark, found, mark_of};
use crate::stop::{FirstStop, LineStop};
use krieg_board::{Move, Side, Square, only};
use krieg_fen::{read_move, read_square};
use krieg_text::read_number;
use krieg_words::{Dialect, SILENT, Words};
use krieg_wordtext::read_words_in;
use std::alloc::Global;

/// The byte that stands for the one behind a backslash, or the byte itself where there is none before it.
fn meant_by(byte: u8, is_behind: bool) -> u8 {
    match byte {
        b'n' if is_behind => b'\n',
        b'r' if is_behind => b'\r',
        _ => byte,
    }
}

/// Adds the bytes that those of the text stand for: a backslash stands for none. It tells whether there was memory.
fn add_meant(text: &str, bytes: &mut Vec<u8>) -> bool {
    let mut is_behind = false;
    for byte in text.bytes() {
        if byte != b'\\' && bytes.push(meant_by(byte, is_behind)).is_err() {
            return false;
        }
        is_behind = byte == b'\\';
    }
    true
}

static SIDES: [(&str, Side); 2] = [("w", Side::White), ("b", Side::Black)];

/// A text that is read from its head on.
///
/// It keeps the first stop that came while it was read, so that none of the calls below has a result: what cannot be
/// read gives some value, and who takes the line looks once whether it was read, and whether it was read whole.
#[derive(Drop)]
pub struct Given<'a> {
    rest: &'a str,
    pub stop: FirstStop,
}

impl<'a> Given<'a> {
    /// All of the text.
    pub fn new(text: &'a str) -> Given<'a> {
        Given {
            rest: text,
            stop: FirstStop::none(),
        }
    }

    /// Why the text was not read whole, where it was not.
    pub fn end(&self) -> Option<LineStop> {
        if self.stop.first.is_none() && !self.rest.is_empty() {
            Some(LineStop::Unread)
        } else {
            self.stop.first
        }
    }

    /// Goes on with this text in the place of what is left.
    pub fn go_on(&mut self, text: &'a str) {
        self.rest = text;
    }

    /// What stands before the next of these separators, or all of the rest.
    pub fn until(&mut self, separator: &str) -> &'a str {
        match self.rest.split_once(separator) {
            Some((part, rest)) => {
                self.rest = rest;
                part
            }
            None => self.rest(),
        }
    }

    /// The next word.
    pub fn word(&mut self) -> &'a str {
        self.until(" ")
    }

    /// All of the rest.
    pub fn rest(&mut self) -> &'a str {
        let rest = self.rest;
        self.rest = "";
        rest
    }

    /// How many parts the rest has, with these separators between.
    pub fn parts(&self, separator: &str) -> usize {
        self.rest.split(separator).count()
    }

    /// How many words the rest has.
    pub fn words(&self) -> usize {
        self.parts(" ")
    }

    /// The bytes of the rest, in which `\n` is a line feed and `\r` a carriage return.
    pub fn bytes(&mut self, alloc: Global) -> Vec<u8> {
        let mut bytes = Vec::new(alloc);
        if !add_meant(self.rest(), &mut bytes) {
            self.stop.lacks_memory();
        }
        bytes
    }

    /// What was found, or the other value where nothing was.
    pub fn or_unread<T: Copy>(&mut self, found: Option<T>, other: T) -> T {
        match found {
            Some(found) => found,
            None => {
                self.stop.unread();
                other
            }
        }
    }

    /// The next word as the mark of a question.
    pub fn mark(&mut self) -> Mark {
        mark_of(self.word())
    }

    /// The next word as a number in plain decimal digits.
    pub fn number(&mut self) -> u64 {
        let found = read_number(self.word().as_bytes(), u64::MAX);
        self.or_unread(found, 0)
    }

    /// The next word as a number below the 32nd power of two.
    pub fn count(&mut self) -> u32 {
        let found = u32::try_from(self.number()).ok();
        self.or_unread(found, 0)
    }

    /// The next word as a number below 256.
    pub fn small(&mut self) -> u8 {
        let found = u8::try_from(self.number()).ok();
        self.or_unread(found, 0)
    }

    /// The next word as a side: `w` or `b`.
    pub fn side(&mut self) -> Side {
        let found = found(&SIDES, self.word());
        self.or_unread(found, Side::White)
    }

    /// The next word as a square by its name, as `e4`.
    pub fn square(&mut self) -> Square {
        let found = read_square(self.word().as_bytes());
        self.or_unread(found, Square::default())
    }

    /// The set of the squares that the rest names.
    pub fn squares(&mut self) -> u64 {
        let mut set = 0;
        for _ in 0..self.words() {
            set |= only(self.square().number());
        }
        set
    }

    /// The next word as a move, as `e2e4` or `e7e8q`.
    pub fn try_move(&mut self) -> Move {
        let found = read_move(self.word().as_bytes()).ok();
        self.or_unread(found, Move::default())
    }

    /// Words of the dialect.
    pub fn words_of(&mut self, d: Dialect, text: &str) -> Words {
        let found = read_words_in(d, text.as_bytes()).ok();
        self.or_unread(found, SILENT)
    }
}
