ghost use Rattle.std.specs.Prelude.{◌≡◌, ◌<◌, ◌≤◌, ◌↔◌, IfSome, IsNone, ℕ};
ghost use Rattle.krieg_board.specs.Squares as spec;

use crate::men::Side;
use std::marker::Model;

/// One of the 64 squares: a1 is 0, b1 is 1, h1 is 7, a2 is 8, up to h8, which is 63.
///
/// In contracts a square is its number.
#[derive(Clone, Copy, PartialEq, Eq, PartialOrd, Ord, Default)]
pub struct Square {
    number: u8,
}

impl Model for Square {
    ghost Value = { ℕ };

    ghost view = { λ s. s.number };

    ghost invariant = { λ s. s.number < 64 };

    ghost inverse = { λ n. record { number = n } };
}

impl Square {
    /// The square with this number. `None` exactly where `n` is 64 or more.
    pub fn new(n: u8) -> Option<Square>
        ensures none { IsNone result ↔ (64 ≤ n) }
        ensures value { IfSome result (λ s. s ≡ n) }
    {
        if n < 64 {
            Some(Square { number: n })
        } else {
            None
        }
    }

    /// The number of the square, from 0 to 63.
    pub fn number(self) -> u8
        ensures value { result ≡ self }
        ensures below { result < 64 }
    {
        self.number
    }
}

/// The file of a square, from 0 for the a-file to 7.
pub fn file_of(s: u8) -> u8
    ensures value { result ≡ spec.file_of s }
    ensures below { result < 8 }
{
    s % 8
}

/// The rank of a square, from 0 for the first rank to 7.
pub fn rank_of(s: u8) -> u8
    ensures { result ≡ spec.rank_of s }
{
    s / 8
}

/// The number of the square on that file and rank, both from 0 to 7.
pub fn square_at(file: u8, rank: u8) -> u8
    requires file { file < 8 }
    requires rank { rank < 8 }
    ensures value { result ≡ spec.square_at file rank }
    ensures below { result < 64 }
{
    8 * rank + file
}

/// The rank on which a side's king and rooks begin.
pub fn home_rank(side: Side) -> u8
    ensures value { result ≡ spec.home_rank side }
    ensures below { result < 8 }
{
    match side {
        Side::White => 0,
        Side::Black => 7,
    }
}

/// The rank on which a side's pawns begin.
pub fn pawn_rank(side: Side) -> u8
    ensures value { result ≡ spec.pawn_rank side }
    ensures below { result < 8 }
{
    match side {
        Side::White => 1,
        Side::Black => 6,
    }
}

/// The rank that a side's pawn crosses in a two-square advance.
pub fn crossed_rank(side: Side) -> u8
    ensures value { result ≡ spec.crossed_rank side }
    ensures below { result < 8 }
{
    match side {
        Side::White => 2,
        Side::Black => 5,
    }
}

/// The rank that a side's pawn reaches by a two-square advance.
pub fn landing_rank(side: Side) -> u8
    ensures value { result ≡ spec.landing_rank side }
    ensures below { result < 8 }
{
    match side {
        Side::White => 3,
        Side::Black => 4,
    }
}

/// The rank on which a side's pawn is promoted.
pub fn last_rank(side: Side) -> u8
    ensures value { result ≡ spec.last_rank side }
    ensures below { result < 8 }
{
    match side {
        Side::White => 7,
        Side::Black => 0,
    }
}
