ghost use Rattle.std.specs.Prelude.{◌≡◌, ◌==◌};
ghost use Rattle.std.proofs.Common.{rules};
ghost use Rattle.std.specs.Cmp.Rules.{comparing};
ghost use Rattle.std.specs.Ordering.{on};
ghost use Rattle.krieg_words.specs.WordNumbers.{words_number};
ghost use Rattle.krieg_words.specs.Words.{IsSaid, IsTaken, words_cmp};

use crate::kinds::{Kinds, NO_KINDS};
use crate::word_numbers::words_number;
use krieg_board::Square;
use std::cmp::Ordering;
use std::marker::Model;

/// Eight pawns have two pawn tries each at most.
pub const MOST_TRIES: u8 = 16;

/// Whether the game goes on, and how it has ended otherwise.
#[derive(Clone, Copy)]
pub enum End {
    /// The side to move has a legal move.
    Goes,
    /// The side to move is in check and has no legal move.
    Mate,
    /// The side to move is not in check and has no legal move.
    Stalemate,
}

/// What a move captured, and the square where it stood.
#[derive(Clone, Copy)]
pub enum Took {
    /// Nothing was captured.
    Nothing,
    /// A pawn was captured, perhaps in passing.
    Pawn(Square),
    /// Another man was captured, perhaps one that a pawn was promoted to.
    Piece(Square),
}

/// What both players hear after a legal move, and at the start of a game.
///
/// Words are ordered by their end, then by what was taken, then by the kinds of check as a number, then by
/// the pawn tries, as `compare` says. In contracts they are a `Said`.
#[derive(Clone, Copy)]
pub struct Words {
    pub end: End,
    pub took: Took,
    pub checks: Kinds,
    /// How many pawn captures the side to move has, at most [`MOST_TRIES`].
    pub tries: u8,
}

/// What is heard where there is nothing to say, and the game goes on.
pub const SILENT: Words = Words {
    end: End::Goes,
    took: Took::Nothing,
    checks: NO_KINDS,
    tries: 0,
};

impl Model for Words {
    ghost use Rattle.std.specs.Prelude.{◌≤◌};
    ghost use Rattle.krieg_words.specs.Words.{Said};
    ghost use Rattle.krieg_words.specs.declared.words.TheConstants.{MOST_TRIES};

    ghost Value = { Said };

    ghost view = { λ w. record { end = w.end; took = w.took; checks = w.checks; tries = w.tries } };

    ghost invariant = { λ w. w.tries ≤ MOST_TRIES };

    ghost inverse = { λ s. record { end = s.end; took = s.took; checks = s.checks; tries = s.tries } };
}

impl PartialEq for Words {
    ghost eq = { on words_number ◌==◌ };

    ghost laws = { Prim.search (comparing, rules) };

    fn eq(&self, other: &Words) -> bool {
        words_number(self) == words_number(other)
    }
}

impl Eq for Words {
    ghost laws = { Prim.search (comparing, rules) };
}

/// The order of words, which is that of their numbers.
#[tactic(auto, using(crate::proofs::WordNumbers::number_cmp))]
pub fn compare(a: &Words, b: &Words) -> Ordering
    ensures { result ≡ words_cmp a.now b.now }
{
    words_number(a).cmp(&words_number(b))
}

fn know_took(took: &Took)
    ensures { IsTaken took.now }
{
    match took {
        Took::Nothing => {}
        Took::Pawn(square) | Took::Piece(square) => {
            let _number = square.number();
        }
    }
}

/// Tells a proof that words are what an umpire can say: not too many tries, and a capture on the board.
pub fn know_words(w: &Words)
    ensures { IsSaid w.now }
{
    let _tries = w.tries;
    know_took(&w.took);
}
