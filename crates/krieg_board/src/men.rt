ghost use Rattle.std.specs.Prelude.{◌≡◌, ◌<◌, ◌≤◌, ◌↔◌, IfSome, IsNone};
ghost use Rattle.krieg_board.specs.Men.{other, bits_of};
ghost use Rattle.krieg_board.specs.Order.{move_cmp};

use crate::square::Square;
use std::cmp::Ordering;

/// The two players.
#[derive(Clone, Copy, PartialEq, Eq)]
pub enum Side {
    White,
    Black,
}

/// The six kinds of men (FIDE Laws, article 2.2).
#[derive(Clone, Copy, PartialEq, Eq)]
pub enum Kind {
    Pawn,
    Knight,
    Bishop,
    Rook,
    Queen,
    King,
}

/// A man: whose it is, and what it is.
#[derive(Clone, Copy, PartialEq, Eq)]
pub struct Man {
    pub side: Side,
    pub kind: Kind,
}

/// What a move makes of the man that moves: `Plain` leaves it as it is, the others name what a pawn
/// becomes on the last rank (FIDE Laws, article 3.7). The order is that of moves.
#[derive(Clone, Copy, PartialEq, Eq, PartialOrd, Ord, Default)]
pub enum Promo {
    #[default]
    Plain,
    Queen,
    Rook,
    Bishop,
    Knight,
}

/// A move, whether it is legal somewhere or not: from a square to a square, with a promotion.
///
/// Moves are ordered by from-square, then by to-square, then by promotion.
#[derive(Clone, Copy, PartialEq, Eq, PartialOrd, Ord, Default)]
pub struct Move {
    pub from: Square,
    pub to: Square,
    pub promo: Promo,
}

/// The castling rights that are held (FIDE Laws, article 3.8.2): short is castling with the rook of
/// the h-file, long with that of the a-file.
#[derive(Clone, Copy, PartialEq, Eq)]
pub struct Rights {
    pub white_short: bool,
    pub white_long: bool,
    pub black_short: bool,
    pub black_long: bool,
}

/// Nobody may castle.
pub const NO_RIGHTS: Rights = Rights {
    white_short: false,
    white_long: false,
    black_short: false,
    black_long: false,
};

impl Side {
    /// The opponent's side.
    pub fn other(self) -> Side
        ensures { result ≡ other self }
    {
        match self {
            Side::White => Side::Black,
            Side::Black => Side::White,
        }
    }
}

impl Move {
    /// The order of moves: by from-square, then by to-square, then by promotion. It is the derived
    /// order too.
    pub fn compare(&self, other: &Move) -> Ordering
        ensures { result ≡ move_cmp self.now other.now }
    {
        self.cmp(other)
    }
}

/// Tells a proof that both squares of a move are on the board.
#[inline]
pub fn know_squares(mv: &Move)
    ensures from { mv.now.from < 64 }
    ensures to { mv.now.to < 64 }
{
    let _from = mv.from.number();
    let _to = mv.to.number();
}

impl Rights {
    /// The rights with these bits: White short 1, White long 2, Black short 4, Black long 8.
    /// `None` exactly where `bits` is 16 or more.
    pub fn new(bits: u8) -> Option<Rights>
        ensures none { IsNone result ↔ (16 ≤ bits) }
        ensures value { IfSome result (λ r. bits_of r ≡ bits) }
    {
        if bits >= 16 {
            return None;
        }
        Some(Rights {
            white_short: bits % 2 == 1,
            white_long: bits / 2 % 2 == 1,
            black_short: bits / 4 % 2 == 1,
            black_long: bits / 8 == 1,
        })
    }

    /// The rights as bits: White short 1, White long 2, Black short 4, Black long 8.
    pub fn bits(self) -> u8
        ensures { result ≡ bits_of self }
    {
        let white = u8::from(self.white_short) + 2 * u8::from(self.white_long);
        white + 4 * u8::from(self.black_short) + 8 * u8::from(self.black_long)
    }
}
