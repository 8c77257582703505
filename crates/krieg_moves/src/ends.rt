ghost use Rattle.krieg_moves.specs.Guarding.{IsGuard};
ghost use Rattle.std.specs.Prelude.{◌≡◌, true, not, length};
ghost use Rattle.std.specs.List.{list_any};
ghost use Rattle.krieg_board.specs.Sets.{has};
ghost use Rattle.krieg_board.specs.Squares.{some_square};
ghost use Rattle.krieg_moves.specs.Legal as spec;
ghost use Rattle.krieg_moves.specs.Moves as list;

use crate::guard::Guard;
use crate::target::targets;
use krieg_board::{Position, king_of, know_valid, lowest, without_lowest};
use krieg_rays::is_attacked;

/// With so few men one that is no king is asked first whether he has a legal move.
const FEW_MEN: u32 = 3;

/// Whether the first of these men has a legal move.
fn first_has(p: &Position, guard: &Guard, men: u64) -> bool
    requires { IsGuard p.now guard.now }
    ensures { result ≡ true → list_any (spec.is_legal p.now) list.all_moves ≡ true }
{
    men != 0 && targets(p, guard, lowest(men)) != 0
}

fn has_any(p: &Position, guard: &Guard) -> bool
    requires { IsGuard p.now guard.now }
    ensures { result ≡ list_any (spec.is_legal p.now) list.all_moves }
{
    let own = p.bits().men_of(p.side());
    if own.count_ones() <= FEW_MEN && first_has(p, guard, own & !p.bits().sets().kings) {
        return true;
    }
    let mut rest = own;
    while rest != 0 {
        let from = lowest(rest);
        if targets(p, guard, from) != 0 {
            return true;
        }
        rest = without_lowest(rest);
    }
    false
}

/// Whether the side to move has a legal move.
pub fn has_move(p: &Position) -> bool
    ensures { result ≡ not (list.is_ended p.now) }
{
    has_move_by(p, &Guard::of(p))
}

/// The same, by a caller that has the guard.
#[tactic(auto, using(crate::proofs::MoveLists::any_from_moves), unfolding(crate::specs::Moves::is_ended, crate::specs::Moves::moves))]
pub fn has_move_by(p: &Position, guard: &Guard) -> bool
    requires { IsGuard p.now guard.now }
    ensures { result ≡ not (list.is_ended p.now) }
{
    has_any(p, guard)
}

/// Whether the side to move is in check (FIDE Laws, article 3.9).
pub fn in_check(p: &Position) -> bool
    ensures { result ≡ list.in_check p.now }
{
    let bits = p.bits();
    let side = p.side();
    let by = side.other();
    let king = king_of(bits, side);
    is_attacked(bits, king, by)
}

/// Whether some square belongs to the set.
#[inline]
fn has_squares(set: u64) -> bool
    ensures { result ≡ some_square (has set) }
{
    set != 0
}

/// The same, by a caller that has the guard.
pub fn in_check_by(p: &Position, guard: &Guard) -> bool
    requires { IsGuard p.now guard.now }
    ensures { result ≡ list.in_check p.now }
{
    know_valid(p);
    has_squares(guard.checkers)
}

/// Whether the position is mate: the side to move is in check and has no legal move (FIDE Laws,
/// article 5.1.1).
#[tactic(auto, unfolding(crate::specs::Moves::is_mate))]
pub fn is_mate(p: &Position) -> bool
    ensures { result ≡ list.is_mate p.now }
{
    in_check(p) && !has_move(p)
}

/// Whether the position is stalemate: the side to move is not in check and has no legal move (FIDE
/// Laws, article 5.2.1).
#[tactic(auto, unfolding(crate::specs::Moves::is_stalemate))]
pub fn is_stalemate(p: &Position) -> bool
    ensures { result ≡ list.is_stalemate p.now }
{
    let guard = &Guard::of(p);
    !in_check_by(p, guard) && !has_move_by(p, guard)
}

/// The same as `is_stalemate`, by a caller that has counted the legal moves.
#[tactic(auto, using(crate::proofs::MoveLists::none_listed), unfolding(crate::specs::Moves::is_stalemate, crate::specs::Moves::is_ended))]
pub fn is_stalemate_by(p: &Position, moves: usize) -> bool
    requires { moves ≡ length (list.moves p.now) }
    ensures { result ≡ list.is_stalemate p.now }
{
    moves == 0 && !in_check(p)
}
