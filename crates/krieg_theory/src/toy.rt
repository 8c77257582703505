//! A game of eleven positions and four tries, on which each definition is evaluated. The numbers were worked by hand.
//!
//! | Position | try 0 | try 1 | try 2 | try 3 |
//! |---|---|---|---|---|
//! | 0 | mates | illegal | stalemates | heard 0, position 5 |
//! | 1 | illegal | mates | heard 0, position 0 | illegal |
//! | 2 | heard 0, position 0, or heard 1, position 1 | illegal | stalemates | illegal |
//! | 3 | illegal | heard 0, position 0 or 1 | illegal | illegal |
//! | 4 | stalemates | illegal | heard 3, position 2, or heard 0, position 0 | illegal |
//! | 5 | illegal | illegal | illegal | illegal |
//! | 8 | illegal | mates | mates | illegal |
//! | 9 | heard 4, position 9 | illegal | illegal | illegal |
//! | 10 | illegal | heard 0, position 0 | mates | illegal |
//!
//! In 6 and 7 the opponent is to move first: in 6 the player then hears 1, position 0 or 1, or 2, position 2, and in 7
//! there is no move. In the others the player is to move, and heard 9 in position 4 and 0 elsewhere.

ghost use Rattle.std.specs.Prelude.{◌≡◌, true, false, nat_lt, List, [], ◌∷◌, Some, None};
ghost use Rattle.krieg_theory.specs.Sets.{as_set};
ghost use Rattle.krieg_theory.specs.Tree.{Try, Nothing, Just, NoEdges, Edge, size, depth};
ghost use Rattle.krieg_theory.specs.Wins.{wins};
ghost use Rattle.krieg_theory.specs.Split.{refused, tries, keys, class, mates_at};
ghost use Rattle.krieg_theory.specs.Can.{can, begins, first_try, least};
ghost use Rattle.krieg_theory.specs.Canonical.{IsCanon};
ghost use Rattle.krieg_theory.specs.Computed.{canon};
ghost use Rattle.krieg_theory.specs.Plans.{openings, opening_set, mates, can_plan, canon_plan, canon_worst};
ghost use Rattle.krieg_theory.specs.Toy.{toy, toy_start, only, or_else, by_ear};
ghost use Rattle.krieg_theory.specs.ToyLawful.{lawful, start_lawful};

use crate::game::HiddenGame;

/// The small game.
pub struct Toy;

impl HiddenGame for Toy {
    ghost game = { toy };

    ghost outset = { toy_start };

    ghost lawful = { lawful };

    ghost outset_lawful = { start_lawful };
}

/// Winning one position by a tree.
pub fn winning()
    ensures mate { wins toy (only 0) 0 1 ≡ true }
    ensures never_in_none { wins toy (only 0) 0 0 ≡ false }
    ensures stalemate_is_no_win { wins toy (only 2) 0 1 ≡ false }
    ensures illegal_alone { wins toy (only 0) 1 1 ≡ false }
    ensures illegal_costs_nothing { wins toy (or_else 0 (only 1)) 1 1 ≡ true }
    ensures two_useless_tries { wins toy (or_else 3 (or_else 0 (only 1))) 1 1 ≡ true }
    ensures two_moves { wins toy by_ear 2 2 ≡ true }
    ensures not_one { wins toy by_ear 2 1 ≡ false }
    ensures an_edge_is_missing { wins toy (Try 0 Nothing (Edge 0 (only 0) NoEdges)) 2 2 ≡ false }
    ensures every_reply { wins toy (Try 1 Nothing (Edge 0 (only 0) NoEdges)) 3 2 ≡ false }
    ensures one_node_for_both { wins toy (Try 1 Nothing (Edge 0 (or_else 0 (only 1)) NoEdges)) 3 2
        ≡ true }
    ensures first_edge_decides { wins toy (Try 1 Nothing
        (Edge 0 (only 0) (Edge 0 (or_else 0 (only 1)) NoEdges))) 3 2 ≡ false }
    ensures not_the_last { wins toy (Try 1 Nothing
        (Edge 0 (or_else 0 (only 1)) (Edge 0 (only 0) NoEdges))) 3 2 ≡ true }
{}

/// The size and the depth of a tree.
pub fn measures()
    ensures one { size (only 0) ≡ 1 }
    ensures three { size by_ear ≡ 3 }
    ensures two_deep { depth by_ear ≡ 2 }
    ensures by_refusals { depth (or_else 3 (or_else 0 (only 1))) ≡ 3 }
    ensures five { size (Try 0 (Just (only 1)) (Edge 0 by_ear NoEdges)) ≡ 5 }
{}

/// What a try makes of a set.
pub fn splitting()
    ensures refusing { refused toy (0 ∷ 1 ∷ 2 ∷ []) 0 ≡ 1 ∷ [] }
    ensures none_refuses { refused toy (0 ∷ 2 ∷ []) 0 ≡ [] }
    ensures sensible { tries toy (0 ∷ 1 ∷ []) ≡ 0 ∷ 1 ∷ 2 ∷ 3 ∷ [] }
    ensures no_try { tries toy (5 ∷ []) ≡ [] }
    ensures heard { keys toy (2 ∷ []) 0 ≡ 0 ∷ 1 ∷ [] }
    ensures heard_once { keys toy (3 ∷ []) 1 ≡ 0 ∷ [] }
    ensures behind { class toy (3 ∷ []) 1 0 ≡ 0 ∷ 1 ∷ [] }
    ensures merged { class toy (1 ∷ 4 ∷ []) 2 0 ≡ 0 ∷ [] }
    ensures in_order { keys toy (4 ∷ []) 2 ≡ 0 ∷ 3 ∷ [] }
    ensures each_once { as_set nat_lt (2 ∷ 0 ∷ 2 ∷ 1 ∷ []) ≡ 0 ∷ 1 ∷ 2 ∷ [] }
    ensures never_heard { class toy (2 ∷ []) 0 7 ≡ [] }
    ensures mated { mates_at toy 0 0 ≡ true }
    ensures stalemated { mates_at toy 0 2 ≡ false }
    ensures answered { mates_at toy 0 3 ≡ false }
{}

/// The recursion over sets.
pub fn recursion()
    ensures one { can toy 1 (0 ∷ 1 ∷ []) ≡ true }
    ensures none { can toy 0 (0 ∷ []) ≡ false }
    ensures not_in_one { can toy 1 (2 ∷ []) ≡ false }
    ensures in_two { can toy 2 (2 ∷ []) ≡ true }
    ensures both { can toy 2 (1 ∷ 2 ∷ []) ≡ true }
    ensures lost { can toy 3 (5 ∷ []) ≡ false }
    ensures lost_with_another { can toy 3 (0 ∷ 5 ∷ []) ≡ false }
    ensures never { can toy 4 (9 ∷ []) ≡ false }
    ensures three { can toy 3 (4 ∷ []) ≡ true }
    ensures not_two { can toy 2 (4 ∷ []) ≡ false }
    ensures stalemate_begins_nothing { begins toy 3 (0 ∷ []) 2 ≡ false }
    ensures lost_class_begins_nothing { begins toy 3 (0 ∷ []) 3 ≡ false }
    ensures begun { begins toy 2 (1 ∷ []) 2 ≡ true }
    ensures first { first_try toy 2 (1 ∷ []) ≡ Some 1 }
    ensures first_of_two { first_try toy 2 (10 ∷ []) ≡ Some 1 }
    ensures first_of_one { first_try toy 1 (10 ∷ []) ≡ Some 2 }
    ensures none_first { first_try toy 2 (4 ∷ []) ≡ None }
    ensures least_of_the_set { least toy 3 (1 ∷ 2 ∷ []) ≡ 2 }
    ensures least_of_the_refused { least toy 3 (refused toy (1 ∷ 2 ∷ []) 0) ≡ 1 }
{}

/// Canonical nodes, by what holds of them among all trees.
pub fn canonical_nodes()
    ensures by_ear { IsCanon toy by_ear (2 ∷ []) }
    ensures first { IsCanon toy (only 1) (8 ∷ []) }
    ensures not_the_second { IsCanon toy (only 2) (8 ∷ []) → ⊥ }
    ensures no_useless_try { IsCanon toy (or_else 0 (only 1)) (8 ∷ []) → ⊥ }
    ensures no_spare_node { IsCanon toy (or_else 1 (only 2)) (8 ∷ []) → ⊥ }
    ensures no_spare_edge { IsCanon toy (Try 1 Nothing (Edge 0 (only 0) NoEdges)) (8 ∷ []) → ⊥ }
    ensures in_order { IsCanon toy (Try 0 Nothing (Edge 1 (only 1) (Edge 0 (only 0) NoEdges)))
        (2 ∷ []) → ⊥ }
{}

/// Canonical nodes and plans, as they are computed.
pub fn canonical()
    ensures in_one { canon toy 2 (0 ∷ 1 ∷ []) ≡ Just (or_else 0 (only 1)) }
    ensures in_two { canon toy 2 (2 ∷ []) ≡ Just by_ear }
    ensures with_refused { canon toy 2 (1 ∷ 2 ∷ [])
        ≡ Just (Try 0 (Just (only 1)) (Edge 0 (only 0) (Edge 1 (only 1) NoEdges))) }
    ensures refused_at_its_least { canon toy 2 (2 ∷ 10 ∷ [])
        ≡ Just (Try 0 (Just (only 2)) (Edge 0 (only 0) (Edge 1 (only 1) NoEdges))) }
    ensures nothing { canon toy 3 (5 ∷ []) ≡ Nothing }
    ensures one_opening { openings toy toy_start (0 ∷ 1 ∷ []) ≡ 0 ∷ [] }
    ensures two_openings { openings toy toy_start (0 ∷ 4 ∷ []) ≡ 0 ∷ 9 ∷ [] }
    ensures set_of_one { opening_set toy toy_start (0 ∷ 4 ∷ []) 9 ≡ 4 ∷ [] }
    ensures first_classes { opening_set toy toy_start (6 ∷ []) 1 ≡ 0 ∷ 1 ∷ [] }
    ensures after_the_reply { canon_plan toy toy_start 2 (6 ∷ []) ≡ (1, or_else 0 (only 1))
        ∷ (2, by_ear) ∷ [] }
    ensures worst { canon_worst toy toy_start 3 (6 ∷ []) ≡ 2 }
    ensures worst_of_all { canon_worst toy toy_start 3 (0 ∷ 4 ∷ []) ≡ 3 }
    ensures mates_all { mates toy toy_start ((1, or_else 0 (only 1)) ∷ (2, by_ear) ∷ []) (6 ∷ []) 2
        ≡ true }
    ensures not_in_fewer { mates toy toy_start ((1, or_else 0 (only 1)) ∷ (2, by_ear) ∷ []) (6 ∷ [])
        1 ≡ false }
    ensures a_root_is_missing { mates toy toy_start ((1, or_else 0 (only 1)) ∷ []) (6 ∷ []) 2
        ≡ false }
    ensures first_root_decides { mates toy toy_start ((0, only 1) ∷ (0, only 0) ∷ []) (0 ∷ []) 1
        ≡ false }
    ensures over { mates toy toy_start ((0, only 0) ∷ []) (7 ∷ []) 3 ≡ false }
    ensures over_with_another { can_plan toy toy_start 3 (6 ∷ 7 ∷ []) ≡ false }
    ensures can_start { can_plan toy toy_start 2 (6 ∷ []) ≡ true }
{}
