//! The definitions evaluated on the small game of `krieg_theory`. The claims were worked by hand.

ghost use Rattle.std.specs.Prelude.{◌≡◌, true, List, [], ◌∷◌};
ghost use Rattle.krieg_theory.specs.Toy.{toy, toy_start};
ghost use Rattle.krieg_costs.specs.Refutation.{ByLife, ByStalemate, ByClass, ByRefused, refutes};
ghost use Rattle.krieg_costs.specs.Toy.{claim};
ghost use Rattle.krieg_claims.specs.InOrder.{claimed, in_order};
ghost use Rattle.krieg_claims.specs.Written.{claims, denial};

/// Which pairs are claimed, and in which order.
pub fn ordering()
    ensures no_try { in_order toy 3 (5 ∷ []) ≡ (5 ∷ [], 3) ∷ [] }
    ensures cited_first { in_order toy 2 (0 ∷ 5 ∷ []) ≡ (5 ∷ [], 2) ∷ (5 ∷ [], 1) ∷ (0 ∷ 5 ∷ [], 2)
        ∷ [] }
    ensures one_less { in_order toy 2 (9 ∷ []) ≡ (9 ∷ [], 1) ∷ (9 ∷ [], 2) ∷ [] }
    ensures with_repeats { claimed toy 1 (5 ∷ 8 ∷ []) ≡ (5 ∷ [], 1) ∷ (5 ∷ [], 1) ∷ (5 ∷ 8 ∷ [], 1)
        ∷ [] }
    ensures without { in_order toy 1 (5 ∷ 8 ∷ []) ≡ (5 ∷ [], 1) ∷ (5 ∷ 8 ∷ [], 1) ∷ [] }
{}

/// The claims of sets and of lists.
pub fn claiming()
    ensures lives { claims toy 1 (2 ∷ []) ≡ claim 1 (2 ∷ []) ((0, ByLife) ∷ (2, ByLife) ∷ []) ∷ [] }
    ensures cites { claims toy 2 (0 ∷ 5 ∷ []) ≡ claim 2 (5 ∷ []) [] ∷ claim 1 (5 ∷ []) []
        ∷ claim 2 (0 ∷ 5 ∷ []) ((0, ByRefused 1) ∷ (2, ByStalemate) ∷ (3, ByClass 0 2) ∷ []) ∷ [] }
    ensures first_opening_that_is_lost { denial toy toy_start 2 (1 ∷ 4 ∷ [])
        ≡ claims toy 2 (4 ∷ []) }
    ensures none { denial toy toy_start 2 (0 ∷ []) ≡ [] }
    ensures holds { refutes toy toy_start 2 (0 ∷ 5 ∷ []) (denial toy toy_start 2 (0 ∷ 5 ∷ []))
        ≡ true }
{}
