ghost use Rattle.std.specs.Prelude.{◌≡◌, ◌<◌, ℕ, true, false, length, IfSome, None, Some, slice_set};
ghost use Rattle.std.proofs.Props.{props};
ghost use Rattle.krieg_board.specs.Board.{is_of, man_at};
ghost use Rattle.krieg_board.specs.Boards.{is_kind};
ghost use Rattle.krieg_board.specs.declared.men.Kind.TheVariants.{Pawn};
ghost use Rattle.krieg_nets.specs.LoneKings.{AreOfficers, IsMovedMan};
ghost use Rattle.krieg_nets.specs.Others.{lone_of, men_of};

use crate::others::Others;
use krieg_board::{Bits, Man, Move, Side};

/// With so few men beside the king who is alone the same ones come again and again.
const MOST_MEN: u32 = 4;

/// The men against whom a king is alone: a king and a few officers. `Against` is the board without him, and his side.
#[derive(Clone, Copy)]
pub struct Men {
    bits: Bits,
    others: Others,
    ghost size: { length bits ≡ 64 } by { Prim.hlevel props },
    ghost these: { men_of others ≡ bits } by { Prim.hlevel props },
    ghost enemies: { (k : ℕ) → k < 64 → is_of (lone_of others) (man_at bits k) ≡ false } by { Prim.hlevel props },
    ghost officers: { (k : ℕ) → k < 64 → is_kind Pawn (man_at bits k) ≡ false } by { Prim.hlevel props },
}

/// The side of the king who is alone.
#[inline]
fn side_of(others: &Others) -> Side
    ensures { result ≡ lone_of others.now }
{
    if others.black {
        Side::Black
    } else {
        Side::White
    }
}

/// Whether these are few officers, and no man of that side is among them.
#[inline]
fn are_few(bits: &Bits, lone: Side) -> bool
    ensures { result ≡ true → AreOfficers bits.now lone }
{
    bits.men_of(lone) == 0 && bits.sets().pawns == 0 && bits.occupied().count_ones() <= MOST_MEN
}

impl Men {
    /// The men of a board, where they are those of the three sets, few officers of one side.
    #[inline]
    pub(crate) fn of(bits: &Bits, others: &Others) -> Option<Men>
        requires { length bits.now ≡ 64 }
        ensures board { IfSome result (λ m. m.bits ≡ bits.now) }
        ensures lone { IfSome result (λ m. m.others.black ≡ others.now.black) }
    {
        if !are_few(bits, side_of(others)) {
            return None;
        }
        if !others.are_men(0, bits.sets()) {
            return None;
        }
        Some(Men {
            bits: *bits,
            others: *others,
        })
    }

    /// The board of the men.
    #[inline]
    pub(crate) fn bits(&self) -> &Bits
        ensures board { result.now ≡ self.now.bits }
        ensures size { length result.now ≡ 64 }
        ensures officers { AreOfficers self.now.bits (lone_of self.now.others) }
    {
        &self.bits
    }

    /// The men by three sets.
    #[inline]
    pub fn others(&self) -> &Others
        ensures { result.now ≡ self.now.others }
    {
        &self.others
    }

    /// The side of the king who is alone.
    #[inline]
    pub fn lone(&self) -> Side
        ensures { result ≡ lone_of self.now.others }
    {
        side_of(&self.others)
    }

    /// The men behind a move of one of them to an empty square, where they are few officers.
    #[inline]
    pub(crate) fn moved(&self, from: u8, to: u8, man: Man) -> Option<Men>
        requires from { from < 64 }
        requires to { to < 64 }
        ensures board { IfSome result (λ m. m.bits
            ≡ slice_set (slice_set self.now.bits from None) to (Some man)) }
        ensures lone { IfSome result (λ m. m.others.black ≡ self.now.others.black) }
    {
        let bits = self.bits.moved(from, to, man);
        Men::of(&bits, &self.others.moved(from, to))
    }

    /// The men behind a move of one of them, where one stands there, and they are few officers then.
    #[inline]
    pub(crate) fn behind(&self, mv: &Move) -> Option<Men>
        ensures board { IfSome result (λ m. IsMovedMan self.now.bits m.bits mv.now) }
        ensures lone { IfSome result (λ m. m.others.black ≡ self.now.others.black) }
    {
        let (from, to) = (mv.from.number(), mv.to.number());
        let man = self.bits.man_at(from)?;
        self.moved(from, to, man)
    }

    /// The men without the one on that square.
    pub(crate) fn without(&self, square: u8) -> Option<Men>
        requires { square < 64 }
        ensures board { IfSome result (λ m. m.bits ≡ slice_set self.now.bits square None) }
        ensures lone { IfSome result (λ m. m.others.black ≡ self.now.others.black) }
    {
        let bits = self.bits.with(square, None);
        Men::of(&bits, &self.others.without(square))
    }
}
