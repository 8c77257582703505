//! The definitions evaluated on the small game of `krieg_theory`. The trees were written by hand.
//!
//! | Node | What it is |
//! |---|---|
//! | 0 | the try 1 |
//! | 1 | the try 0, and where it is illegal the node 0 |
//! | 2 | the try 0, and after 0 and after 1 the node 1 |
//!
//! The node 1 serves two positions, of which the try 0 mates in one and the try 1 in the other.

ghost use Rattle.std.specs.Prelude.{◌≡◌, true, false, ℕ, List, [], ◌∷◌};
ghost use Rattle.krieg_theory.specs.Tree.{Try, Nothing, Just, NoEdges, Edge};
ghost use Rattle.krieg_theory.specs.Toy.{toy, toy_start};
ghost use Rattle.krieg_theory.specs.Plans.{mates};
ghost use Rattle.krieg_strategy.specs.Toy.{nodes, either, astray};
ghost use Rattle.krieg_strategy.specs.Unfolded.{trees_of, unfold_plan};

/// The trees of the nodes, each on those before it.
#[tactic(auto, unfolding(crate::specs::Unfolded::trees_of))]
pub fn unfolding_trees()
    ensures all { trees_of nodes ≡ Try 1 Nothing NoEdges ∷ either
        ∷ Try 0 Nothing (Edge 0 either (Edge 1 either NoEdges)) ∷ [] }
    ensures to_no_lower_node { trees_of astray ≡ Try 0 Nothing NoEdges ∷ [] }
{}

/// The plans of the roots.
#[tactic(auto, unfolding(crate::specs::Unfolded::trees_of))]
pub fn unfolding_plans()
    ensures shared { unfold_plan {R = ℕ} nodes ((0, 2) ∷ [])
        ≡ (0, Try 0 Nothing (Edge 0 either (Edge 1 either NoEdges))) ∷ [] }
    ensures to_no_node { unfold_plan {R = ℕ} nodes ((0, 3) ∷ (1, 1) ∷ []) ≡ (1, either) ∷ [] }
    ensures mates { mates toy toy_start (unfold_plan {R = ℕ} nodes ((0, 2) ∷ [])) (2 ∷ []) 2
        ≡ true }
    ensures not_sooner { mates toy toy_start (unfold_plan {R = ℕ} nodes ((0, 2) ∷ [])) (2 ∷ []) 1
        ≡ false }
{}
