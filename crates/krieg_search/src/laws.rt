//! The laws of plans, costs and refutations, for chess in each dialect and from either side's turn: each function here does
//! nothing, and its contract is a theorem. `krieg_theory` and `krieg_costs` have them for every game; but what an account
//! of `solve` comes to is said here.

ghost use Rattle.krieg_board.specs.declared.men.Side.{Side};
ghost use Rattle.krieg_words.specs.declared.dialects.Dialect.{Dialect};
ghost use Rattle.krieg_theory.specs.Laws.{CanBegins, CanIsWon, BeginsIsWon, CanPlanIsMated, CanonPlanIsOne, CanonPlanIsThere, CanonPlanIsLeast, CanonPlanIsComputed};
ghost use Rattle.krieg_costs.specs.Laws.{ReachIsLeast, FreshIsAtMostCost, BackingIsLeast, FloorIsAtMostFresh, RefutationExcludes};
ghost use Rattle.krieg_game.specs.Chess.{chess};
ghost use Rattle.krieg_game.specs.Outset.{outset};
ghost use Rattle.krieg_search.specs.Laws.{AccountIsBetween};

/// A set can be won within a number exactly where some try meets its conditions there.
#[tactic(auto, using(crate::proofs::ChessLaws::can_begins))]
pub fn can_begins()
    ensures { (d : Dialect) → CanBegins (chess d) }
{}

/// The recursion over sets is the existence of a winning tree, useless tries and all.
#[tactic(auto, using(crate::proofs::ChessLaws::can_is_won))]
pub fn can_is_won()
    ensures { (d : Dialect) → CanIsWon (chess d) }
{}

/// A try that is legal in some member begins a tree that wins all of the set exactly where it meets its conditions.
#[tactic(auto, using(crate::proofs::ChessLaws::begins_is_won))]
pub fn begins_is_won()
    ensures { (d : Dialect) → BeginsIsWon (chess d) }
{}

/// Some plan mates within a number exactly where each opening set can be won within it and nothing is over.
#[tactic(auto, using(crate::proofs::ChessLaws::can_plan_is_mated))]
pub fn can_plan_is_mated()
    ensures { (d : Dialect) (who : Side) → CanPlanIsMated (chess d) (outset d who) }
{}

/// A list of positions has at most one canonical plan.
#[tactic(auto, using(crate::proofs::ChessLaws::canon_plan_is_one))]
pub fn canon_plan_is_one()
    ensures { (d : Dialect) (who : Side) → CanonPlanIsOne (chess d) (outset d who) }
{}

/// It has one exactly where some plan mates it within some number.
pub fn canon_plan_is_there()
    ensures { (d : Dialect) (who : Side) → CanonPlanIsThere (chess d) (outset d who) }
{}

/// The canonical plan has a worst case, which is the least of all plans.
#[tactic(auto, using(crate::proofs::ChessLaws::canon_plan_is_least))]
pub fn canon_plan_is_least()
    ensures { (d : Dialect) (who : Side) → CanonPlanIsLeast (chess d) (outset d who) }
{}

/// The plan that is computed is the canonical one, and so is its worst case.
pub fn canon_plan_is_computed()
    ensures { (d : Dialect) (who : Side) → CanonPlanIsComputed (chess d) (outset d who) }
{}

/// What is reached keeps its rules, and stands in each list that keeps them.
pub fn reach_is_least()
    ensures { (d : Dialect) (who : Side) → ReachIsLeast (chess d) (outset d who) }
{}

/// Backing keeps its rules, and stands in each list that keeps them.
#[tactic(auto, using(crate::proofs::ChessLaws::backing_is_least))]
pub fn backing_is_least()
    ensures { (d : Dialect) (who : Side) → BackingIsLeast (chess d) (outset d who) }
{}

/// The floor is at most what is fresh.
#[tactic(auto, using(crate::proofs::ChessLaws::floor_is_at_most_fresh))]
pub fn floor_is_at_most_fresh()
    ensures { (d : Dialect) (who : Side) → FloorIsAtMostFresh (chess d) (outset d who) }
{}

/// What is fresh is at most the cost.
#[tactic(auto, using(crate::proofs::ChessLaws::fresh_is_at_most_cost))]
pub fn fresh_is_at_most_cost()
    ensures { (d : Dialect) (who : Side) → FreshIsAtMostCost (chess d) (outset d who) }
{}

/// What an account comes to is at least the floor and at most what is fresh.
pub fn account_is_between()
    ensures { (d : Dialect) (who : Side) → AccountIsBetween d who }
{}

/// A refutation that holds excludes every plan.
#[tactic(auto, using(crate::proofs::ChessLaws::refutation_excludes))]
pub fn refutation_excludes()
    ensures { (d : Dialect) (who : Side) → RefutationExcludes (chess d) (outset d who) }
{}
