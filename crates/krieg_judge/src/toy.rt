//! The definitions evaluated on the small game of `krieg_theory`. The numbers were worked by hand.
//!
//! | Node | What it is |
//! |---|---|
//! | 0 | the try 1 |
//! | 1 | the try 0, and where it is illegal the node 0 |
//! | 2 | the try 0, where it is illegal the node 1, and after 0 and after 1 the node 1 too |
//!
//! From 2 two replies lead to 0 and 1, both at the node 1. From 1 the try 0 is illegal, so it comes to the node 1 too.

ghost use Rattle.std.specs.Prelude.{◌≡◌, ℕ, List, [], ◌∷◌};
ghost use Rattle.krieg_theory.specs.Toy.{toy, toy_start};
ghost use Rattle.krieg_checker.specs.CheckCost as tree;
ghost use Rattle.krieg_strategy.specs.Unfolded.{unfold_plan};
ghost use Rattle.krieg_judge.specs.Reach.{reached, next_pairs};
ghost use Rattle.krieg_judge.specs.JudgeCost.{judge_cost};
ghost use Rattle.krieg_judge.specs.Toy.{nodes};

/// What is reached, by the number of the node and then by the position.
#[tactic(auto, unfolding(crate::specs::Reach::reached))]
pub fn reaching()
    ensures by_edges { reached toy toy_start nodes ((0, 2) ∷ []) (2 ∷ [])
        ≡ (0, 1) ∷ (1, 0) ∷ (1, 1) ∷ (2, 2) ∷ [] }
    ensures merging { reached toy toy_start nodes ((0, 2) ∷ []) (2 ∷ 1 ∷ 2 ∷ [])
        ≡ (0, 1) ∷ (1, 0) ∷ (1, 1) ∷ (2, 1) ∷ (2, 2) ∷ [] }
    ensures no_node { next_pairs toy toy_start nodes ((0, 2) ∷ []) (0, 0) ≡ [] }
    ensures no_root { reached toy toy_start nodes ((9, 2) ∷ []) (2 ∷ []) ≡ [] }
{}

/// What judgements take: no more than a check of the plan, in which shared parts are counted at each node that leads
/// there.
#[tactic(auto, unfolding(crate::specs::Reach::reached, krieg_strategy::specs::Unfolded::trees_of))]
pub fn judge_costs()
    ensures by_edges { judge_cost toy toy_start nodes ((0, 2) ∷ []) (2 ∷ []) ≡ 6 }
    ensures merging { judge_cost toy toy_start nodes ((0, 2) ∷ []) (2 ∷ 1 ∷ 2 ∷ []) ≡ 7 }
    ensures as_a_tree { tree.check_cost toy toy_start
        (unfold_plan {R = ℕ} nodes ((0, 2) ∷ [])) (2 ∷ 1 ∷ 2 ∷ []) ≡ 9 }
    ensures first_moves { judge_cost toy toy_start nodes ((1, 1) ∷ []) (6 ∷ []) ≡ 6 }
{}
