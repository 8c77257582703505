//! The laws: each function here does nothing, and its contract is a theorem about every game.

ghost use Rattle.krieg_claims.specs.Laws.{ClaimedOnce, ClaimedLast, DenialRefutes};

use krieg_theory::HiddenGame;

/// No set is claimed twice with the same number.
pub fn claimed_once<G: HiddenGame>()
    ensures { ClaimedOnce G.game }
{}

/// The set itself is claimed last.
pub fn claimed_last<G: HiddenGame>()
    ensures { ClaimedLast G.game }
{}

/// The claims that are written hold, and show that no plan mates.
pub fn denial_refutes<G: HiddenGame>()
    ensures { DenialRefutes G.game G.outset }
{}
