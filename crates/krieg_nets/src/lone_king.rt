ghost use Rattle.std.specs.Prelude.{◌≡◌, true, IfSome, None, Some};
ghost use Rattle.krieg_board.specs.Board.{man_at};
ghost use Rattle.krieg_board.specs.Men.{no_rights};
ghost use Rattle.krieg_nets.specs.Nets.{IsWith, against_by};
ghost use Rattle.krieg_nets.specs.LoneKings.{king_of};

use crate::men::Men;
use crate::others::Others;
use krieg_board::{Kind, Man, NO_RIGHTS, Position, Sets, Side, Square, know_valid, lowest};

/// A position with a king who is alone: the men against him, and his square.
#[derive(Clone, Copy)]
pub struct LoneKing {
    pub men: Men,
    pub square: Square,
}

/// The square of a king who is the only man of his side, as a set, and else none.
#[inline]
fn lone_king(sets: &Sets) -> u64 {
    if sets.black & !sets.kings == 0 {
        return sets.black;
    }
    if sets.white & !sets.kings == 0 {
        return sets.white;
    }
    0
}

/// Whether the king of that side stands on the square, no right is held, and no mark stands.
#[inline]
fn is_plain(p: &Position, lone: Side, square: Square) -> bool
    ensures king { result ≡ true → man_at p.now.board square ≡ Some (king_of lone) }
    ensures rights { result ≡ true → p.now.rights ≡ no_rights }
    ensures mark { result ≡ true → p.now.mark ≡ None }
{
    let king = Man {
        side: lone,
        kind: Kind::King,
    };
    p.man_at(square) == Some(king) && p.rights() == NO_RIGHTS && p.mark().is_none()
}

impl LoneKing {
    /// The king of a position where he is alone against few officers, no right is held and no mark stands.
    #[inline]
    pub fn of(p: &Position) -> Option<LoneKing>
        ensures { IfSome result (λ at. IsWith (against_by at.men.others) at.square p.now) }
    {
        let sets = p.bits().sets();
        let king = lone_king(sets);
        if king == 0 {
            return None;
        }
        let square = lowest(king);
        know_valid(p);
        let bits = p.bits().with(square.number(), None);
        let men = Men::of(&bits, &Others::beside(sets, king))?;
        if !is_plain(p, men.lone(), square) {
            return None;
        }
        Some(LoneKing { men, square })
    }
}
