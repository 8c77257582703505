//! The definitions evaluated on the small game of `krieg_theory`. The numbers were worked by hand.
//!
//! | List | plan | pairs and replies |
//! |---|---|---|
//! | 0, 1 | at 0 the try 0, and where it is illegal the try 1 | 0 and 1 at the root, 1 over `no`; no reply |
//! | 2 | at 0 the try 0, and after 0 and 1 one more try | 2 at the root, 0 and 1 after the edges; two replies |
//! | 3 | at 0 the try 1, and after 0 the first plan's node | 3 at the root, 0 and 1 after the edge, 1 over `no`; two replies |
//! | 6 | at 1 the first plan's node | three first moves, of which two are heard as 1; 0 and 1 at the root, 1 over `no` |

ghost use Rattle.std.specs.Prelude.{◌≡◌, List, [], ◌∷◌};
ghost use Rattle.krieg_theory.specs.Tree.{Try, Nothing, Just, NoEdges, Edge};
ghost use Rattle.krieg_theory.specs.Toy.{toy, toy_start};
ghost use Rattle.krieg_checker.specs.Reach.{From, No, On, reached_from};
ghost use Rattle.krieg_checker.specs.CheckCost.{check_cost};

/// What checks take.
pub fn check_costs()
    ensures over_no { check_cost toy toy_start
        ((0, Try 0 (Just (Try 1 Nothing NoEdges)) NoEdges) ∷ []) (0 ∷ 1 ∷ []) ≡ 3 }
    ensures repeats { check_cost toy toy_start
        ((0, Try 0 (Just (Try 1 Nothing NoEdges)) NoEdges) ∷ []) (1 ∷ 0 ∷ 1 ∷ []) ≡ 3 }
    ensures no_node { check_cost toy toy_start ((0, Try 0 Nothing NoEdges) ∷ []) (0 ∷ 1 ∷ []) ≡ 2 }
    ensures no_root { check_cost toy toy_start ((9, Try 0 Nothing NoEdges) ∷ []) (0 ∷ 1 ∷ []) ≡ 0 }
    ensures over_edges { check_cost toy toy_start
        ((
          0,
          Try 0 Nothing (Edge 0 (Try 0 Nothing NoEdges)
              (Edge 1 (Try 1 Nothing NoEdges) NoEdges)),
        ) ∷ []) (2 ∷ []) ≡ 5 }
    ensures first_edge { check_cost toy toy_start
        ((
          0,
          Try 0 Nothing (Edge 0 (Try 0 Nothing NoEdges)
              (Edge 0 (Try 1 Nothing NoEdges) NoEdges)),
        ) ∷ []) (2 ∷ []) ≡ 4 }
    ensures no_edge { check_cost toy toy_start ((0, Try 0 Nothing NoEdges) ∷ []) (2 ∷ []) ≡ 3 }
    ensures merging { check_cost toy toy_start
        ((0, Try 1 Nothing (Edge 0 (Try 0 (Just (Try 1 Nothing NoEdges)) NoEdges) NoEdges)) ∷ [])
        (3 ∷ []) ≡ 6 }
    ensures first_moves { check_cost toy toy_start
        ((1, Try 0 (Just (Try 1 Nothing NoEdges)) NoEdges) ∷ []) (6 ∷ []) ≡ 6 }
    ensures over { check_cost toy toy_start ((1, Try 0 Nothing NoEdges) ∷ []) (7 ∷ []) ≡ 0 }
{}

/// What is reached, with the last step of each path first.
pub fn reaching()
    ensures over_no { reached_from toy toy_start
        ((0, Try 0 (Just (Try 1 Nothing NoEdges)) NoEdges) ∷ []) (0 ∷ 1 ∷ [])
        ≡ (From 0 ∷ [], Try 0 (Just (Try 1 Nothing NoEdges)) NoEdges, 0)
        ∷ (From 0 ∷ [], Try 0 (Just (Try 1 Nothing NoEdges)) NoEdges, 1)
        ∷ (No ∷ From 0 ∷ [], Try 1 Nothing NoEdges, 1) ∷ [] }
    ensures over_an_edge { reached_from toy toy_start
        ((0, Try 0 Nothing (Edge 1 (Try 1 Nothing NoEdges) NoEdges)) ∷ []) (2 ∷ [])
        ≡ (From 0 ∷ [], Try 0 Nothing (Edge 1 (Try 1 Nothing NoEdges) NoEdges), 2)
        ∷ (On 1 ∷ From 0 ∷ [], Try 1 Nothing NoEdges, 1) ∷ [] }
{}
