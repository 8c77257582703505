//! The laws: each function here does nothing, and its contract is a theorem about every game.

ghost use Rattle.krieg_theory.specs.Laws.{MoreMovesWin, FirstEdgeWins, SetsAreEqual, ClassesAreSplit, CanBegins, CanIsWon, BeginsIsWon, LeastIsLeast, CanonIsOne, CanonIsComputed, MoreMovesMate, WorstIsThere, CanPlanIsMated, CanonPlanIsOne, CanonPlanIsThere, CanonPlanIsLeast, CanonPlanIsComputed};

use crate::game::HiddenGame;

/// A tree that wins within some number of own moves wins within one more.
pub fn more_moves_win<G: HiddenGame>()
    ensures { MoreMovesWin G.game }
{}

/// After what is heard the tree goes on at the first edge with that key, and at no other.
pub fn first_edge_wins<G: HiddenGame>()
    ensures { FirstEdgeWins G.game }
{}

/// Two ascending lists of positions with the same members are equal.
pub fn sets_are_equal<G: HiddenGame>()
    ensures { SetsAreEqual G.game }
{}

/// A class has exactly the positions that come about by a member, the try and a reply that gives its key,
/// ascending. A key occurs exactly where its class is not empty.
pub fn classes_are_split<G: HiddenGame>()
    ensures { ClassesAreSplit G.game }
{}

/// A set can be won within a number exactly where some try meets its conditions there.
pub fn can_begins<G: HiddenGame>()
    ensures { CanBegins G.game }
{}

/// The recursion over sets is the existence of a winning tree, useless tries and all.
pub fn can_is_won<G: HiddenGame>()
    ensures { CanIsWon G.game }
{}

/// A try that is legal in some member begins a tree that wins all of the set exactly where it meets its conditions.
pub fn begins_is_won<G: HiddenGame>()
    ensures { BeginsIsWon G.game }
{}

/// The least number that is computed is the least over all trees.
pub fn least_is_least<G: HiddenGame>()
    ensures { LeastIsLeast G.game }
{}

/// A set has at most one canonical node.
pub fn canon_is_one<G: HiddenGame>()
    ensures { CanonIsOne G.game }
{}

/// A set that can be won has a canonical node, and it is the one that is computed.
pub fn canon_is_computed<G: HiddenGame>()
    ensures { CanonIsComputed G.game }
{}

/// A plan that mates within some number of own moves mates within one more.
pub fn more_moves_mate<G: HiddenGame>()
    ensures { MoreMovesMate G.game G.outset }
{}

/// A plan that mates within a number has a worst case, which is at most that number.
pub fn worst_is_there<G: HiddenGame>()
    ensures { WorstIsThere G.game G.outset }
{}

/// Some plan mates within a number exactly where each opening set can be won within it and nothing is over.
pub fn can_plan_is_mated<G: HiddenGame>()
    ensures { CanPlanIsMated G.game G.outset }
{}

/// A list of positions has at most one canonical plan.
pub fn canon_plan_is_one<G: HiddenGame>()
    ensures { CanonPlanIsOne G.game G.outset }
{}

/// It has one exactly where some plan mates it within some number.
pub fn canon_plan_is_there<G: HiddenGame>()
    ensures { CanonPlanIsThere G.game G.outset }
{}

/// The canonical plan has a worst case, which is the least of all plans.
pub fn canon_plan_is_least<G: HiddenGame>()
    ensures { CanonPlanIsLeast G.game G.outset }
{}

/// The plan that is computed is the canonical one, and so is its worst case.
pub fn canon_plan_is_computed<G: HiddenGame>()
    ensures { CanonPlanIsComputed G.game G.outset }
{}
