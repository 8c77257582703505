ghost use Rattle.std.specs.Prelude.{◌≡◌, ◌<◌};
ghost use Rattle.krieg_words.specs.Words as rank;
ghost use Rattle.krieg_words.specs.Words.{IsSaid};
ghost use Rattle.krieg_words.specs.WordNumbers as spec;

use crate::kinds::Kinds;
use crate::words::{End, Took, Words, know_words};
use krieg_board::Square;

/// Above all numbers of words.
pub const WORDS_LIMIT: u64 = 1_048_576;

fn end_rank(end: End) -> u64
    ensures value { result ≡ rank.end_rank end }
    ensures below { result < 3 }
{
    match end {
        End::Goes => 0,
        End::Mate => 1,
        End::Stalemate => 2,
    }
}

fn took_rank(took: &Took) -> u64
    ensures value { result ≡ rank.took_rank took.now }
    ensures below { result < 3 }
{
    match took {
        Took::Nothing => 0,
        Took::Pawn(_) => 1,
        Took::Piece(_) => 2,
    }
}

fn took_square(took: &Took) -> u64
    ensures value { result ≡ rank.took_square took.now }
    ensures below { result < 64 }
{
    match took {
        Took::Nothing => 0,
        Took::Pawn(s) | Took::Piece(s) => u64::from(s.number()),
    }
}

/// The number of words: they are ordered as their numbers are.
#[tactic(auto, unfolding(crate::specs::WordNumbers::words_number))]
pub fn words_number(w: &Words) -> u64
    ensures value { result ≡ spec.words_number w.now }
    ensures below { result < WORDS_LIMIT }
    ensures said { IsSaid w.now }
{
    know_words(w);
    let took = (end_rank(w.end) * 3 + took_rank(&w.took)) * 64 + took_square(&w.took);
    (took * 32 + u64::from(w.checks.bits())) * 32 + u64::from(w.tries)
}

fn end_at(n: u64) -> End
    ensures { result ≡ spec.end_at n }
{
    if n == 0 {
        End::Goes
    } else if n == 1 {
        End::Mate
    } else {
        End::Stalemate
    }
}

fn took_at(n: u64, s: u8) -> Took
    requires { s < 64 }
    ensures { result ≡ spec.took_at n s }
{
    let square = Square::new(s).unwrap();
    if n == 0 {
        Took::Nothing
    } else if n == 1 {
        Took::Pawn(square)
    } else {
        Took::Piece(square)
    }
}

fn kinds_at(n: u64) -> Kinds
    ensures { result ≡ spec.kinds_at n }
{
    Kinds {
        knight: n / 16 == 1,
        short: n / 8 % 2 == 1,
        long: n / 4 % 2 == 1,
        rank: n / 2 % 2 == 1,
        file: n % 2 == 1,
    }
}

/// The words of a number.
#[tactic(auto, unfolding(crate::specs::WordNumbers::words_at))]
pub fn words_at(n: u64) -> Words
    requires { IsSaid (spec.words_at n) }
    ensures { result ≡ spec.words_at n }
{
    let checked = n / 32;
    let took = checked / 32;
    let end = took / 64;
    Words {
        end: end_at(end / 3),
        took: took_at(end % 3, (took % 64) as u8),
        checks: kinds_at(checked % 32),
        tries: (n % 32) as u8,
    }
}
