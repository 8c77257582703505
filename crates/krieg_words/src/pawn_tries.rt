ghost use Rattle.std.specs.Prelude.{◌≡◌, ◌≤◌, ◌==◌, not};
ghost use Rattle.krieg_moves.specs.Guarding.{IsGuard};
ghost use Rattle.krieg_words.specs.PawnTries as spec;
ghost use Rattle.krieg_words.specs.declared.words.TheConstants.{MOST_TRIES};

use krieg_board::{Position, know_valid, lowest, without_lowest};
use krieg_moves::{Guard, own_pawns, pawn_captures};

/// How many pawn tries the side to move has, by a caller that has the guard.
pub(crate) fn count_tries(p: &Position, guard: &Guard) -> u8
    requires { IsGuard p.now guard.now }
    ensures value { result ≡ spec.tries p.now }
    ensures few { result ≤ MOST_TRIES }
{
    know_valid(p);
    let mut rest = own_pawns(p);
    let mut n = 0u8;
    while rest != 0 {
        let from = lowest(rest);
        rest = without_lowest(rest);
        let captures = pawn_captures(p, guard, from);
        n += captures.count_ones() as u8;
    }
    n
}

/// Whether the side to move has a pawn try, by a caller that has the guard. It ends at the first pawn that
/// has one.
pub(crate) fn has_tries(p: &Position, guard: &Guard) -> bool
    requires { IsGuard p.now guard.now }
    ensures { result ≡ not (spec.tries p.now == 0) }
{
    let mut rest = own_pawns(p);
    while rest != 0 {
        let from = lowest(rest);
        rest = without_lowest(rest);
        let captures = pawn_captures(p, guard, from);
        if captures != 0 {
            return true;
        }
    }
    false
}

/// How many pawn tries the side to move has: pairs of a from- and a to-square between which a pawn may
/// capture, in passing too. Four promotions on one pair count once.
pub fn tries(p: &Position) -> u8
    ensures value { result ≡ spec.tries p.now }
    ensures few { result ≤ MOST_TRIES }
{
    count_tries(p, &Guard::of(p))
}
