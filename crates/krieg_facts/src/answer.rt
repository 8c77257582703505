// What comes of a question, as a text.

use crate::stop::FirstStop;
use krieg_board::{BadPosition, Move, NoMemory, Position, Square, lowest, without_lowest};
use krieg_fen::{put_square, write_move, write_position};
use krieg_text::{Text, put_number};
use std::alloc::Global;

/// A text that grows by words and by parts.
///
/// It keeps the first stop that came while it grew, so that none of the calls below has a result: who asked looks at it
/// once, and then the text counts for nothing.
#[derive(Drop)]
pub struct AnswerText {
    pub text: Vec<u8>,
    pub stop: FirstStop,
}

impl AnswerText {
    /// An empty text.
    pub fn new(alloc: Global) -> AnswerText {
        AnswerText {
            text: Vec::new(alloc),
            stop: FirstStop::none(),
        }
    }

    /// The text, or `none` where it is empty.
    pub fn told(&self) -> &[u8] {
        if self.text.is_empty() {
            b"none"
        } else {
            self.text.as_slice()
        }
    }

    /// Goes on only where this is so.
    pub fn only_if(&mut self, is_so: bool) {
        if !is_so {
            self.stop.unread();
        }
    }

    /// Adds the bytes, right behind what stands there.
    pub fn put(&mut self, bytes: &[u8]) {
        if self.text.extend_from_slice(bytes).is_err() {
            self.stop.lacks_memory();
        }
    }

    /// A word: a space stands before each but the first.
    pub fn word(&mut self, bytes: &[u8]) {
        if !self.text.is_empty() {
            self.put(b" ");
        }
        self.put(bytes);
    }

    /// A word where this is so.
    pub fn word_if(&mut self, is_so: bool, bytes: &[u8]) {
        if is_so {
            self.word(bytes);
        }
    }

    /// `yes` or `no` as a word.
    pub fn yes_or_no(&mut self, is_so: bool) {
        self.word(if is_so { b"yes" } else { b"no" });
    }

    /// The digits of a number, right behind what stands there.
    pub fn digits(&mut self, number: u64) {
        let mut text = Text::after(&mut self.text);
        let done = put_number(number, &mut text);
        let done = text.end(done, &mut self.text);
        self.stop.took(done);
    }

    /// A number as a word.
    pub fn number(&mut self, number: u64) {
        self.word(b"");
        self.digits(number);
    }

    /// A number as a word, where it was found.
    pub fn number_found(&mut self, number: Result<u64, NoMemory>) {
        match number {
            Ok(number) => self.number(number),
            Err(_) => self.stop.lacks_memory(),
        }
    }

    /// A square as a word.
    pub fn square(&mut self, square: Square) {
        self.word(b"");
        let mut text = Text::after(&mut self.text);
        let done = put_square(square, &mut text);
        let done = text.end(done, &mut self.text);
        self.stop.took(done);
    }

    /// The squares of a set, the lowest first.
    pub fn squares(&mut self, set: u64) {
        let mut rest = set;
        for _ in 0..64 {
            if rest == 0 {
                break;
            }
            self.square(lowest(rest));
            rest = without_lowest(rest);
        }
    }

    /// The squares of a set, where there is one.
    pub fn squares_found(&mut self, set: Option<u64>) {
        match set {
            Some(set) => self.squares(set),
            None => self.stop.unread(),
        }
    }

    /// A move, right behind what stands there.
    pub fn put_move(&mut self, mv: Move) {
        let done = write_move(mv, &mut self.text);
        self.stop.took(done);
    }

    /// The text of a position, right behind what stands there.
    pub fn position(&mut self, p: &Position) {
        let done = write_position(p, &mut self.text);
        self.stop.took(done);
    }
}

/// The name of a fault of a position.
pub fn fault_name(bad: BadPosition) -> &'static [u8] {
    match bad {
        BadPosition::Kings => b"kings",
        BadPosition::PawnRank => b"pawn rank",
        BadPosition::TooManyMen => b"too many men",
        BadPosition::IdleInCheck => b"idle side in check",
        BadPosition::Rights => b"rights",
        BadPosition::Mark => b"mark",
    }
}
