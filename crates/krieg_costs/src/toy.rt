//! The definitions evaluated on the small game of `krieg_theory`. The numbers were worked by hand.
//!
//! | Set | tries, with what a split takes | price |
//! |---|---|---|
//! | 0 | 0 takes 1, 2 takes 1, 3 takes 2 | 4 |
//! | 1 | 1 takes 1, 2 takes 2 | 3 |
//! | 0, 1 | 0 takes 2, 1 takes 2, 2 takes 3, 3 takes 3 | 10 |
//! | 2 | 0 takes 3, 2 takes 1 | 4 |
//! | 5 | none | 0 |

ghost use Rattle.std.specs.Prelude.{◌≡◌, true, false, List, [], ◌∷◌, Some, None};
ghost use Rattle.krieg_theory.specs.Toy.{toy, toy_start};
ghost use Rattle.krieg_costs.specs.Sums.{once};
ghost use Rattle.krieg_costs.specs.Cost.{made, price, cost, first_made, cost_of};
ghost use Rattle.krieg_costs.specs.Reach.{reach_of, fresh};
ghost use Rattle.krieg_costs.specs.Block.{Lives, Stale, LostClass, LostRefused, NoBlock, block, block_pair};
ghost use Rattle.krieg_costs.specs.Backing.{floor_price, backing, floor};
ghost use Rattle.krieg_costs.specs.Refutation.{ByLife, ByStalemate, ByClass, ByRefused, refutes};
ghost use Rattle.krieg_costs.specs.Toy.{claim};

/// What splits take, and the cost of sets and of lists.
pub fn costs()
    ensures no_reply { made toy (0 ∷ 1 ∷ []) 0 ≡ 2 }
    ensures two_replies { made toy (2 ∷ []) 0 ≡ 3 }
    ensures refused_counts { made toy (0 ∷ 1 ∷ []) 3 ≡ 3 }
    ensures all_tries { price toy (0 ∷ 1 ∷ []) ≡ 10 }
    ensures no_try { price toy (5 ∷ []) ≡ 0 }
    ensures single { cost toy 1 (0 ∷ []) ≡ 4 }
    ensures with_refused { cost toy 1 (0 ∷ 1 ∷ []) ≡ 20 }
    ensures with_classes { cost toy 2 (2 ∷ []) ≡ 15 }
    ensures with_both { cost toy 2 (0 ∷ 1 ∷ []) ≡ 62 }
    ensures of_nothing { cost toy 2 [] ≡ 0 }
    ensures own_turn { first_made toy toy_start (0 ∷ 1 ∷ []) ≡ 0 }
    ensures three_first_replies { first_made toy toy_start (6 ∷ []) ≡ 4 }
    ensures no_first_reply { first_made toy toy_start (7 ∷ []) ≡ 1 }
    ensures of_a_list { cost_of toy toy_start 2 (6 ∷ []) ≡ 81 }
{}

/// What is reached and what is fresh.
pub fn reaching()
    ensures pairs { reach_of toy toy_start 2 (2 ∷ []) ≡ (2 ∷ [], 2) ∷ (2 ∷ [], 1) ∷ (0 ∷ [], 1)
        ∷ (1 ∷ [], 1) ∷ [] }
    ensures with_repeats { reach_of toy toy_start 1 (0 ∷ 1 ∷ []) ≡ (0 ∷ 1 ∷ [], 1) ∷ (1 ∷ [], 1)
        ∷ (0 ∷ [], 1) ∷ (1 ∷ [], 1) ∷ [] }
    ensures without { once toy (reach_of toy toy_start 1 (0 ∷ 1 ∷ [])) ≡ (0 ∷ 1 ∷ [], 1)
        ∷ (0 ∷ [], 1) ∷ (1 ∷ [], 1) ∷ [] }
    ensures as_the_cost { fresh toy toy_start 2 (2 ∷ []) ≡ 15 }
    ensures below_the_cost { fresh toy toy_start 1 (0 ∷ 1 ∷ []) ≡ 17 }
    ensures with_first_replies { fresh toy toy_start 1 (7 ∷ []) ≡ 1 }
{}

/// Blocks.
pub fn blocks()
    ensures winning { block toy 1 (0 ∷ 1 ∷ []) 0 ≡ NoBlock }
    ensures replied { block toy 1 (2 ∷ []) 0 ≡ Lives }
    ensures stalemate_lives { block toy 1 (0 ∷ []) 2 ≡ Lives }
    ensures stalemate { block toy 2 (0 ∷ []) 2 ≡ Stale }
    ensures class { block toy 2 (0 ∷ []) 3 ≡ LostClass 0 }
    ensures class_pair { block_pair toy 2 (0 ∷ []) 3 ≡ Some (5 ∷ [], 1) }
    ensures refusing { block toy 1 (0 ∷ 5 ∷ []) 0 ≡ LostRefused }
    ensures refused_pair { block_pair toy 1 (0 ∷ 5 ∷ []) 0 ≡ Some (5 ∷ [], 1) }
    ensures no_pair { block_pair toy 2 (0 ∷ []) 2 ≡ None }
    ensures won_in_two { block toy 2 (2 ∷ []) 0 ≡ NoBlock }
{}

/// Backing and the floor.
pub fn flooring()
    ensures won { backing toy toy_start 3 (2 ∷ []) ≡ (2 ∷ [], 2) ∷ (2 ∷ [], 1) ∷ (0 ∷ [], 1)
        ∷ (1 ∷ [], 1) ∷ [] }
    ensures lost { backing toy toy_start 2 (0 ∷ 5 ∷ []) ≡ (0 ∷ 5 ∷ [], 2) ∷ (5 ∷ [], 2)
        ∷ (5 ∷ [], 1) ∷ [] }
    ensures over { backing toy toy_start 2 (6 ∷ 7 ∷ []) ≡ [] }
    ensures up_to_the_first { floor_price toy (0 ∷ 1 ∷ [], 1) ≡ 2 }
    ensures every_try { floor_price toy (2 ∷ [], 1) ≡ 4 }
    ensures floor_of_won { floor toy toy_start 2 (2 ∷ []) ≡ 9 }
    ensures floor_of_lost { floor toy toy_start 2 (0 ∷ 5 ∷ []) ≡ 7 }
    ensures floor_of_over { floor toy toy_start 2 (7 ∷ []) ≡ 1 }
    ensures pairs_once { floor toy toy_start 2 (6 ∷ []) ≡ 15 }
{}

/// Refutations.
pub fn refuting()
    ensures no_try { refutes toy toy_start 3 (5 ∷ []) (claim 3 (5 ∷ []) [] ∷ []) ≡ true }
    ensures lives { refutes toy toy_start 1 (2 ∷ [])
        (claim 1 (2 ∷ []) ((0, ByLife) ∷ (2, ByLife) ∷ []) ∷ []) ≡ true }
    ensures one_move_more { refutes toy toy_start 2 (2 ∷ [])
        (claim 1 (2 ∷ []) ((0, ByLife) ∷ (2, ByLife) ∷ []) ∷ []) ≡ false }
    ensures no_life_at_two { refutes toy toy_start 2 (2 ∷ [])
        (claim 2 (2 ∷ []) ((0, ByLife) ∷ (2, ByStalemate) ∷ []) ∷ []) ≡ false }
    ensures a_reason_is_missing { refutes toy toy_start 1 (2 ∷ [])
        (claim 1 (2 ∷ []) ((0, ByLife) ∷ []) ∷ []) ≡ false }
    ensures a_reason_too_many { refutes toy toy_start 1 (2 ∷ [])
        (claim 1 (2 ∷ []) ((0, ByLife) ∷ (1, ByLife) ∷ (2, ByLife) ∷ []) ∷ []) ≡ false }
    ensures no_claim { refutes toy toy_start 1 (5 ∷ []) [] ≡ false }
    ensures no_member { refutes toy toy_start 1 (5 ∷ []) (claim 1 [] [] ∷ []) ≡ false }
    ensures another_list { refutes toy toy_start 1 (0 ∷ []) (claim 1 (5 ∷ []) [] ∷ []) ≡ false }
    ensures cited { refutes toy toy_start 2 (0 ∷ 5 ∷ [])
        (claim 2 (5 ∷ []) [] ∷ claim 2 (0 ∷ 5 ∷ [])
        ((0, ByRefused 1) ∷ (2, ByStalemate) ∷ (3, ByClass 0 1) ∷ []) ∷ []) ≡ true }
    ensures cited_for_one_more { refutes toy toy_start 2 (0 ∷ 5 ∷ [])
        (claim 1 (5 ∷ []) [] ∷ claim 2 (0 ∷ 5 ∷ [])
        ((0, ByRefused 1) ∷ (2, ByStalemate) ∷ (3, ByClass 0 1) ∷ []) ∷ []) ≡ false }
    ensures class_with_one_less { refutes toy toy_start 2 (0 ∷ [])
        (claim 1 (5 ∷ []) [] ∷ claim 2 (0 ∷ [])
        ((0, ByClass 0 1) ∷ (2, ByStalemate) ∷ (3, ByClass 0 1) ∷ []) ∷ []) ≡ false }
    ensures the_smaller_number { refutes toy toy_start 2 (9 ∷ [])
        (claim 1 (9 ∷ []) ((0, ByLife) ∷ []) ∷ claim 2 (9 ∷ []) ((0, ByClass 4 1) ∷ []) ∷ [])
        ≡ true }
    ensures itself { refutes toy toy_start 2 (9 ∷ [])
        (claim 2 (9 ∷ []) ((0, ByClass 4 1) ∷ []) ∷ []) ≡ false }
    ensures a_later_one { refutes toy toy_start 1 (9 ∷ [])
        (claim 2 (9 ∷ []) ((0, ByClass 4 2) ∷ []) ∷ claim 1 (9 ∷ []) ((0, ByLife) ∷ []) ∷ [])
        ≡ false }
    ensures place_nought { refutes toy toy_start 2 (0 ∷ 5 ∷ [])
        (claim 2 (5 ∷ []) [] ∷ claim 2 (0 ∷ 5 ∷ [])
        ((0, ByRefused 0) ∷ (2, ByStalemate) ∷ (3, ByClass 0 1) ∷ []) ∷ []) ≡ false }
{}
