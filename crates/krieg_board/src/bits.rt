ghost use Rattle.std.specs.Prelude.{◌≡◌, ◌<◌, ◌==◌, ℕ, cond, true, false, is_some, slice_set, Some, None, length};
ghost use Rattle.krieg_board.specs.Board.{man_at, is_of, is_man};
ghost use Rattle.krieg_board.specs.Boards as boards;
ghost use Rattle.krieg_board.specs.Boards.{AreExact, Show, board_of};
ghost use Rattle.krieg_board.specs.Sets as spec;
ghost use Rattle.krieg_board.specs.Validity.{count_kind};
ghost use Rattle.krieg_board.specs.declared.men.Kind.TheVariants.{King};

use crate::board::{Board, is_of};
use crate::men::{Kind, Man, Side};
use crate::position::Position;
use crate::set::{has, only, only_if};
use std::marker::Model;

/// Eight sets of squares: where each side's men stand, and where the men of each kind do. Bit s of a set
/// is set where the square with number s belongs to it.
#[derive(Clone, Copy)]
pub struct Sets {
    pub white: u64,
    pub black: u64,
    pub pawns: u64,
    pub knights: u64,
    pub bishops: u64,
    pub rooks: u64,
    pub queens: u64,
    pub kings: u64,
}

/// A board by sets of squares. In contracts it is the list of the 64 squares, a1 first.
#[derive(Clone, Copy)]
pub struct Bits {
    sets: Sets,
}

impl Model for Bits {
    ghost use Rattle.krieg_board.specs.Board.{Board};

    ghost Value = { Board };

    ghost use Rattle.krieg_board.specs.Boards.{AreExact, board_of, sets_of};

    ghost view = { λ b. board_of b.sets };

    ghost invariant = { λ b. AreExact b.sets };

    ghost inverse = { λ b. record { sets = sets_of b } };

    ghost inverse_ok = { λ a h i. record { sets = h.exact i } };
}

impl Bits {
    /// The board of a position.
    #[inline]
    pub fn of(p: &Position) -> Bits
        ensures { result ≡ p.now.board }
    {
        *p.bits()
    }

    /// The board of these sets.
    #[inline]
    pub fn from_sets(sets: Sets) -> Bits
        requires { AreExact sets }
        ensures { result ≡ board_of sets }
    {
        Bits { sets }
    }

    /// A board without men.
    pub fn empty() -> Bits
        ensures { result ≡ boards.empty_board }
    {
        Bits::from_sets(Sets {
            white: 0,
            black: 0,
            pawns: 0,
            knights: 0,
            bishops: 0,
            rooks: 0,
            queens: 0,
            kings: 0,
        })
    }

    /// The board with these men, a1 first.
    pub fn from_board(board: &Board) -> Bits
        ensures { result ≡ board.now }
    {
        let mut bits = Bits::empty();
        for s in 0..64u8 {
            if let Some(man) = board[s as usize] {
                bits.put(s, man);
            }
        }
        bits
    }

    /// What stands on each square, a1 first.
    pub fn to_board(&self) -> Board
        ensures { result ≡ self.now }
    {
        let sets = self.sets;
        let mut board = [None; 64];
        for s in 0..64u8 {
            board[s as usize] = man_on(&sets, s);
        }
        board
    }

    /// Where each side's men and the men of each kind stand.
    #[inline]
    pub fn sets(&self) -> &Sets
        ensures { Show result.now self.now }
    {
        &self.sets
    }

    /// The squares of that side's men.
    #[inline]
    pub fn men_of(&self, side: Side) -> u64
        ensures { (k : ℕ) → k < 64 → spec.has result k ≡ is_of side (man_at self.now k) }
    {
        match side {
            Side::White => self.sets.white,
            Side::Black => self.sets.black,
        }
    }

    /// The squares on which a man stands.
    #[inline]
    pub fn occupied(&self) -> u64
        ensures { (k : ℕ) → k < 64 → spec.has result k ≡ is_some (man_at self.now k) }
    {
        self.sets.white | self.sets.black
    }

    /// What stands on the square.
    #[inline]
    pub fn man_at(&self, s: u8) -> Option<Man>
        requires { s < 64 }
        ensures { result ≡ man_at self.now s }
    {
        man_on(&self.sets, s)
    }

    /// The board after that is written on the square: a man, or nothing.
    pub fn with(&self, s: u8, man: Option<Man>) -> Bits
        requires { s < 64 }
        ensures { result ≡ slice_set self.now s man }
    {
        Bits {
            sets: Sets {
                white: written(self.sets.white, s, is_of(Side::White, man)),
                black: written(self.sets.black, s, is_of(Side::Black, man)),
                pawns: written(self.sets.pawns, s, is_kind(Kind::Pawn, man)),
                knights: written(self.sets.knights, s, is_kind(Kind::Knight, man)),
                bishops: written(self.sets.bishops, s, is_kind(Kind::Bishop, man)),
                rooks: written(self.sets.rooks, s, is_kind(Kind::Rook, man)),
                queens: written(self.sets.queens, s, is_kind(Kind::Queen, man)),
                kings: written(self.sets.kings, s, is_kind(Kind::King, man)),
            },
        }
    }

    /// Puts a man on an empty square: two sets change.
    #[inline]
    pub fn put(&mut self, s: u8, man: Man)
        requires below { s < 64 }
        requires free { man_at self.old s ≡ None }
        ensures { self.new ≡ slice_set self.old s (Some man) }
    {
        let place = only(s);
        let mut sets = self.sets;
        match man.side {
            Side::White => sets.white |= place,
            Side::Black => sets.black |= place,
        }
        match man.kind {
            Kind::Pawn => sets.pawns |= place,
            Kind::Knight => sets.knights |= place,
            Kind::Bishop => sets.bishops |= place,
            Kind::Rook => sets.rooks |= place,
            Kind::Queen => sets.queens |= place,
            Kind::King => sets.kings |= place,
        }
        *self = Bits { sets };
    }

    /// The board after that nothing stands on the one square, and then that man on the other: each set is
    /// written once.
    #[inline]
    pub fn moved(&self, from: u8, to: u8, man: Man) -> Bits
        requires from { from < 64 }
        requires to { to < 64 }
        ensures { result ≡ slice_set (slice_set self.now from None) to (Some man) }
    {
        let sets = &self.sets;
        let man = Some(man);
        Bits {
            sets: Sets {
                white: passed(sets.white, from, to, is_of(Side::White, man)),
                black: passed(sets.black, from, to, is_of(Side::Black, man)),
                pawns: passed(sets.pawns, from, to, is_kind(Kind::Pawn, man)),
                knights: passed(sets.knights, from, to, is_kind(Kind::Knight, man)),
                bishops: passed(sets.bishops, from, to, is_kind(Kind::Bishop, man)),
                rooks: passed(sets.rooks, from, to, is_kind(Kind::Rook, man)),
                queens: passed(sets.queens, from, to, is_kind(Kind::Queen, man)),
                kings: passed(sets.kings, from, to, is_kind(Kind::King, man)),
            },
        }
    }
}

/// The set without both squares, or with the second, as `here` says.
#[inline]
fn passed(set: u64, from: u8, to: u8, here: bool) -> u64
    requires from { from < 64 }
    requires to { to < 64 }
    ensures { (k : ℕ) → k < 64 → spec.has result k
        ≡ cond (k == to) here (cond (k == from) false (spec.has set k)) }
{
    set & !(only(from) | only(to)) | only_if(here, to)
}

/// What stands on the square.
#[inline]
fn man_on(sets: &Sets, s: u8) -> Option<Man>
    requires { s < 64 }
    ensures { result ≡ boards.man_on sets.now s }
{
    if has(sets.white, s) {
        Some(Man {
            side: Side::White,
            kind: kind_on(sets, s),
        })
    } else if has(sets.black, s) {
        Some(Man {
            side: Side::Black,
            kind: kind_on(sets, s),
        })
    } else {
        None
    }
}

/// The kind of the man on an occupied square.
#[inline]
fn kind_on(sets: &Sets, s: u8) -> Kind
    requires { s < 64 }
    ensures { result ≡ boards.kind_on sets.now s }
{
    if has(sets.pawns, s) {
        Kind::Pawn
    } else if has(sets.knights, s) {
        Kind::Knight
    } else if has(sets.bishops, s) {
        Kind::Bishop
    } else if has(sets.rooks, s) {
        Kind::Rook
    } else if has(sets.queens, s) {
        Kind::Queen
    } else {
        Kind::King
    }
}

/// Whether this is a man of that kind.
#[inline]
fn is_kind(kind: Kind, man: Option<Man>) -> bool
    ensures { result ≡ boards.is_kind kind man }
{
    match man {
        None => false,
        Some(man) => man.kind == kind,
    }
}

/// The set with the square or without it, as `here` says.
#[inline]
#[tactic(auto, using(crate::proofs::Writing::written))]
fn written(set: u64, s: u8, here: bool) -> u64
    requires { s < 64 }
    ensures { (k : ℕ) → k < 64 → spec.has result k ≡ cond (k == s) here (spec.has set k) }
{
    let place = 1 << s;
    if here { set | place } else { set & !place }
}

/// The number of the square where the king of a side stands that has one.
#[inline]
pub fn king_of(b: &Bits, side: Side) -> u8
    requires { count_kind b.now side King ≡ 1 }
    ensures below { result < 64 }
    ensures king { is_man side King (man_at b.now result) ≡ true }
{
    (b.sets.kings & b.men_of(side)).trailing_zeros() as u8
}

/// Tells a proof that the board has 64 squares.
#[inline]
pub(crate) fn know_size(b: &Bits)
    ensures { length b.now ≡ 64 }
{
    let _sets = b.sets;
}
