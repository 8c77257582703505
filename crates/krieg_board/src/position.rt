ghost use Rattle.std.specs.Prelude.{◌≡◌, ◌<◌, IfOk, IfErr, Some, None, length};
ghost use Rattle.krieg_board.specs.Board.{man_at};
ghost use Rattle.krieg_board.specs.Validity.{IsValid, first_fault};

use crate::bits::{Bits, know_size};
use crate::fault::fault_of;
use crate::men::{Man, Rights, Side};
use crate::square::Square;
use krieg_faults::BadPosition;
use std::marker::Model;

/// A valid position: the men on the 64 squares, the side to move, the castling rights that are held,
/// and the mark, which is the square that a pawn has just crossed by a two-square advance.
///
/// In contracts a position is a `Pos`, and each call that reads one says that it is valid.
#[derive(Clone, Copy)]
pub struct Position {
    bits: Bits,
    side: Side,
    rights: Rights,
    mark: Option<Square>,
}

// Positions are copied at every move, and kept by the hundred thousand.
const _: () = prove!(size_of::<Position>() <= 72);

impl Model for Position {
    ghost use Rattle.krieg_board.specs.Pos.{Pos};

    ghost Value = { Pos };

    ghost use Rattle.krieg_board.specs.Validity.{IsValid};

    ghost view = { λ p. record { board = p.bits; side = p.side; rights = p.rights; mark = p.mark } };

    ghost invariant = { λ p. IsValid (record { board = p.bits; side = p.side; rights = p.rights; mark = p.mark }) };

    ghost inverse = { λ p. record { bits = p.board; side = p.side; rights = p.rights; mark = p.mark } };
}

impl Position {
    /// The position with these parts, or the first fault that it would have. The board is listed from
    /// a1, b1 to h8.
    pub fn make(
        board: [Option<Man>; 64],
        side: Side,
        rights: Rights,
        mark: Option<Square>,
    ) -> Result<Position, BadPosition>
        ensures value { IfOk result (λ p. p ≡ record
            { board = board; side = side; rights = rights; mark = mark }) }
        ensures valid { IfOk result (λ p. IsValid p) }
        ensures fault { IfErr result (λ e. first_fault
            (record { board = board; side = side; rights = rights; mark = mark }) ≡ Some e) }
    {
        Position::of_bits(&Bits::from_board(&board), side, rights, mark)
    }

    /// The position with these parts, or the first fault that it would have.
    pub fn of_bits(
        bits: &Bits,
        side: Side,
        rights: Rights,
        mark: Option<Square>,
    ) -> Result<Position, BadPosition>
        ensures value { IfOk result (λ p. p ≡ record
            { board = bits.now; side = side; rights = rights; mark = mark }) }
        ensures valid { IfOk result (λ p. IsValid p) }
        ensures fault { IfErr result (λ e. first_fault
            (record { board = bits.now; side = side; rights = rights; mark = mark }) ≡ Some e) }
    {
        know_size(bits);
        match fault_of(bits, side, rights, &mark) {
            Some(fault) => Err(fault),
            None => Ok(Position::from_valid(bits, side, rights, mark)),
        }
    }

    /// The position with these parts, which the caller knows to have no fault: nothing is tested again.
    #[inline]
    pub fn from_valid(bits: &Bits, side: Side, rights: Rights, mark: Option<Square>) -> Position
        requires size { length bits.now ≡ 64 }
        requires fault { first_fault (record {
          board = bits.now;
          side = side;
          rights = rights;
          mark = mark;
        }) ≡ None }
        ensures value { result ≡ record {
          board = bits.now;
          side = side;
          rights = rights;
          mark = mark;
        } }
        ensures valid { IsValid result }
    {
        Position {
            bits: *bits,
            side,
            rights,
            mark,
        }
    }

    /// The board, by sets of squares.
    #[inline]
    pub fn bits(&self) -> &Bits
        ensures value { result.now ≡ self.now.board }
        ensures valid { IsValid self.now }
    {
        &self.bits
    }

    /// What stands on the square.
    pub fn man_at(&self, s: Square) -> Option<Man>
        ensures value { result ≡ man_at self.now.board s }
        ensures valid { IsValid self.now }
    {
        self.bits.man_at(s.number())
    }

    /// The side to move.
    #[inline]
    pub fn side(&self) -> Side
        ensures value { result ≡ self.now.side }
        ensures valid { IsValid self.now }
    {
        self.side
    }

    /// The castling rights that are held.
    pub fn rights(&self) -> Rights
        ensures value { result ≡ self.now.rights }
        ensures valid { IsValid self.now }
    {
        self.rights
    }

    /// The square that a pawn has just crossed by a two-square advance, where one has.
    pub fn mark(&self) -> Option<Square>
        ensures value { result ≡ self.now.mark }
        ensures valid { IsValid self.now }
    {
        self.mark
    }
}

/// Tells a proof that the position is valid, where nothing of it is read.
#[inline]
pub fn know_valid(p: &Position)
    ensures { IsValid p.now }
{
    let _side = p.side;
}
