//! The laws: each function here does nothing, and its contract is a theorem about every game.

ghost use Rattle.krieg_costs.specs.Laws.{OnceIsOnce, CostIsSum, ReachIsLeast, ReachIsOfSets, FreshIsAtMostCost, BlockIsThere, BlockIsLost, BackingIsLeast, BackingIsReached, FloorIsAtMostFresh, RefutationExcludes};

use krieg_theory::HiddenGame;

/// A list of pairs without its repeats has the same pairs, and none of them twice.
pub fn once_is_once<G: HiddenGame>()
    ensures { OnceIsOnce G.game }
{}

/// The cost of a set within a number is the sum over the numbers from 1 to it.
pub fn cost_is_sum<G: HiddenGame>()
    ensures { CostIsSum G.game }
{}

/// What is reached keeps its rules, and stands in each list that keeps them.
pub fn reach_is_least<G: HiddenGame>()
    ensures { ReachIsLeast G.game G.outset }
{}

/// What is reached has members, and a number from 1 to the one that is asked.
pub fn reach_is_of_sets<G: HiddenGame>()
    ensures { ReachIsOfSets G.game G.outset }
{}

/// What is fresh is at most the cost.
pub fn fresh_is_at_most_cost<G: HiddenGame>()
    ensures { FreshIsAtMostCost G.game G.outset }
{}

/// A try that is legal in some member has a block exactly where it begins no node that wins.
pub fn block_is_there<G: HiddenGame>()
    ensures { BlockIsThere G.game }
{}

/// The pair of a block has members and a number, and cannot be won.
pub fn block_is_lost<G: HiddenGame>()
    ensures { BlockIsLost G.game }
{}

/// Backing keeps its rules, and stands in each list that keeps them.
pub fn backing_is_least<G: HiddenGame>()
    ensures { BackingIsLeast G.game G.outset }
{}

/// Each pair of backing cannot be won or is at its least number, and it is reached.
pub fn backing_is_reached<G: HiddenGame>()
    ensures { BackingIsReached G.game G.outset }
{}

/// The floor is at most what is fresh.
pub fn floor_is_at_most_fresh<G: HiddenGame>()
    ensures { FloorIsAtMostFresh G.game G.outset }
{}

/// A refutation that holds excludes every plan.
pub fn refutation_excludes<G: HiddenGame>()
    ensures { RefutationExcludes G.game G.outset }
{}
