ghost use Rattle.std.specs.Prelude.{◌≡◌, true, false, Some, IfSome, IfNone};
ghost use Rattle.krieg_board.specs.Board.{man_at};
ghost use Rattle.krieg_moves.specs.After as change;
ghost use Rattle.krieg_moves.specs.Legal as spec;

use crate::candidate::is_candidate;
use crate::change::{board_after, position_after};
use krieg_board::{Bits, Man, Move, Position, king_of};
use krieg_rays::is_attacked;

/// Whether the king of the side to move is safe on the board after a candidate, the move of this man: then it is legal.
#[inline]
pub(crate) fn is_king_safe(p: &Position, man: Man, mv: &Move, next: &Bits) -> bool
    requires man { man_at p.now.board mv.now.from ≡ Some man }
    requires candidate { spec.is_candidate p.now mv.now ≡ true }
    requires next { next.now ≡ change.board_after p.now.board p.now.mark man mv.now }
    ensures { result ≡ spec.is_legal p.now mv.now }
{
    let side = p.side();
    let by = side.other();
    let king = king_of(next, side);
    !is_attacked(next, king, by)
}

/// Whether he is safe behind the candidate, by making it.
pub(crate) fn leaves_king_safe(p: &Position, man: Man, mv: &Move) -> bool
    requires man { man_at p.now.board mv.now.from ≡ Some man }
    requires candidate { spec.is_candidate p.now mv.now ≡ true }
    ensures { result ≡ spec.is_legal p.now mv.now }
{
    let next = board_after(p.bits(), &p.mark(), man, mv);
    is_king_safe(p, man, mv, &next)
}

/// The position after the move of this man, where it is legal.
fn after_if_legal_by(p: &Position, man: Man, mv: &Move) -> Option<Position>
    requires { man_at p.now.board mv.now.from ≡ Some man }
    ensures legal { IfSome result (λ q. spec.is_legal p.now mv.now ≡ true) }
    ensures position { IfSome result (λ q. q ≡ change.after p.now mv.now) }
    ensures illegal { IfNone result (spec.is_legal p.now mv.now ≡ false) }
{
    if !is_candidate(p, man, mv) {
        return None;
    }
    let next = board_after(p.bits(), &p.mark(), man, mv);
    if !is_king_safe(p, man, mv, &next) {
        return None;
    }
    Some(position_after(p, man, mv, &next))
}

/// The position after the move, where it is legal; none, where it is not. The move is made once, and on the board
/// after it the mover's king is looked at.
pub fn after_if_legal(p: &Position, mv: Move) -> Option<Position>
    ensures legal { IfSome result (λ q. spec.is_legal p.now mv ≡ true) }
    ensures position { IfSome result (λ q. q ≡ change.after p.now mv) }
    ensures illegal { IfNone result (spec.is_legal p.now mv ≡ false) }
{
    match p.man_at(mv.from) {
        None => None,
        Some(man) => after_if_legal_by(p, man, &mv),
    }
}

/// Whether the move is legal in the position (FIDE Laws, articles 3.1 to 3.10): a man of the side to
/// move goes as its kind goes, to a square that holds no man of its side, with a promotion exactly
/// where a pawn reaches the last rank; and after it the mover's own king is not attacked.
pub fn is_legal(p: &Position, mv: Move) -> bool
    ensures { result ≡ spec.is_legal p.now mv }
{
    after_if_legal(p, mv).is_some()
}
