//! The definitions evaluated on the small game of `krieg_theory`. The numbers were worked by hand.
//!
//! | Set, number | result | tries that were split, with what each takes | charged |
//! |---|---|---|---|
//! | 2, 1 | lost | 0 takes 3, 2 takes 1 | 4 |
//! | 0, 1 | won by 0 | 0 takes 1 | 1 |
//! | 1, 1 | won by 1 | 1 takes 1 | 1 |
//! | 2, 2 | won by 0 | 0 takes 3 | 3 |
//! | 5, 1 and 5, 2 | lost | none | 0 |
//! | 0 and 5, 1 | lost | 0 takes 2, 2 takes 2, 3 takes 3 | 7 |
//! | 0 and 5, 2 | lost | the same | 7 |

ghost use Rattle.std.specs.Prelude.{◌≡◌, true, false, List, [], ◌∷◌, Some, None};
ghost use Rattle.krieg_theory.specs.Toy.{toy, toy_start};
ghost use Rattle.krieg_costs.specs.Reach.{reach};
ghost use Rattle.krieg_accounts.specs.Stored.{pairs};
ghost use Rattle.krieg_accounts.specs.Sound.{known, IsSound};
ghost use Rattle.krieg_accounts.specs.Charges.{charged, owed, all_owed};
ghost use Rattle.krieg_accounts.specs.Stretch.{IsStretch, FallsShort, CoversSet, CoversTry};
ghost use Rattle.krieg_accounts.specs.Answers.{opening_sets, AnswersPlan};
ghost use Rattle.krieg_accounts.specs.Toy.{lost_within, won_within, of_two, of_nought_and_five};

/// What is stored.
pub fn storing()
    ensures won { known toy of_two (2 ∷ [], 2) ≡ Some (Some 0) }
    ensures lost { known toy of_two (2 ∷ [], 1) ≡ Some None }
    ensures not_for_more { known toy of_two (2 ∷ [], 3) ≡ None }
    ensures not_for_a_part { known toy of_nought_and_five (0 ∷ [], 2) ≡ None }
    ensures first_decides { known toy (won_within (0 ∷ []) 1 0 ∷ lost_within (0 ∷ []) 1 ∷ [])
        (0 ∷ [], 1) ≡ Some (Some 0) }
    ensures stored_pairs { pairs of_two ≡ (2 ∷ [], 1) ∷ (0 ∷ [], 1) ∷ (1 ∷ [], 1) ∷ (2 ∷ [], 2)
        ∷ [] }
    ensures openings { opening_sets toy toy_start (6 ∷ []) ≡ (0 ∷ 1 ∷ []) ∷ (2 ∷ []) ∷ [] }
{}

/// What it took, and what is owed yet.
pub fn charging()
    ensures nothing { charged toy [] ≡ 0 }
    ensures up_to_the_first { charged toy of_two ≡ 9 }
    ensures every_try { charged toy of_nought_and_five ≡ 14 }
    ensures stored_is_paid { owed toy of_two (2 ∷ [], 2) ≡ 0 }
    ensures another_number_is_owed { owed toy of_two (2 ∷ [], 3) ≡ 4 }
    ensures all_tries { owed toy [] (0 ∷ 1 ∷ [], 1) ≡ 10 }
    ensures all_at_first { all_owed toy (reach toy 2 (2 ∷ [])) [] ≡ 15 }
    ensures none_at_last { all_owed toy (reach toy 2 (2 ∷ [])) of_two ≡ 0 }
    ensures in_between { all_owed toy (reach toy 2 (2 ∷ [])) (lost_within (2 ∷ []) 1 ∷ []) ≡ 11 }
{}

/// Which tables are sound.
pub fn standing()
    ensures empty { IsSound toy false [] }
    ensures won { IsSound toy false of_two }
    ensures lost { IsSound toy false of_nought_and_five }
    ensures a_later_try { IsSound toy false (won_within (8 ∷ []) 1 2 ∷ []) → ⊥ }
    ensures lost_for_more { IsSound toy false (lost_within (2 ∷ []) 1 ∷ lost_within (2 ∷ []) 2
        ∷ []) → ⊥ }
    ensures number_nought { IsSound toy false (lost_within (0 ∷ []) 0 ∷ []) → ⊥ }
    ensures smaller_number_is_missing { IsSound toy false (won_within (0 ∷ []) 1 0
        ∷ won_within (1 ∷ []) 1 1 ∷ won_within (2 ∷ []) 2 0 ∷ []) → ⊥ }
    ensures class_is_missing { IsSound toy false (lost_within (2 ∷ []) 1 ∷ won_within (0 ∷ []) 1 0
        ∷ won_within (2 ∷ []) 2 0 ∷ []) → ⊥ }
    ensures refused_part_is_missing { IsSound toy false (won_within (0 ∷ 1 ∷ []) 1 0 ∷ []) → ⊥ }
    ensures block_is_cut { IsSound toy true (lost_within (0 ∷ 5 ∷ []) 1 ∷ lost_within (0 ∷ 5 ∷ []) 2
        ∷ []) }
    ensures smaller_number_is_cut { IsSound toy true (lost_within (0 ∷ 5 ∷ []) 2 ∷ []) → ⊥ }
    ensures block_is_missing { IsSound toy false (lost_within (5 ∷ []) 1
        ∷ lost_within (0 ∷ 5 ∷ []) 1 ∷ lost_within (0 ∷ 5 ∷ []) 2 ∷ []) → ⊥ }
{}

/// Which tables have the answer for a list of positions.
pub fn answering()
    ensures won { AnswersPlan toy toy_start of_two 2 (2 ∷ []) }
    ensures lost { AnswersPlan toy toy_start of_nought_and_five 2 (0 ∷ 5 ∷ []) }
    ensures over { AnswersPlan toy toy_start [] 2 (7 ∷ []) }
    ensures not_for_more { AnswersPlan toy toy_start of_nought_and_five 3 (0 ∷ 5 ∷ []) → ⊥ }
    ensures one_opening_of_two { AnswersPlan toy toy_start of_two 2 (6 ∷ []) → ⊥ }
{}

/// Which stretches there are.
pub fn searching()
    ensures by_hand { IsStretch toy false (CoversSet toy (2 ∷ []) 2) 0 [] of_two 20 11 }
    ensures one_unit_less { IsStretch toy false (CoversSet toy (2 ∷ []) 2) 0 [] of_two 20 12 → ⊥ }
    ensures forgetting { IsStretch toy false (CoversSet toy (2 ∷ []) 2) 0 of_two [] 20 29 → ⊥ }
    ensures another_set { IsStretch toy false (CoversSet toy (5 ∷ []) 2) 0 []
        (won_within (0 ∷ []) 1 0 ∷ []) 20 19 → ⊥ }
    ensures a_cut_is_free { IsStretch toy true (CoversTry toy (2 ∷ []) 2 0) 3 [] [] 20 20 }
    ensures a_split_is_not { IsStretch toy false (CoversTry toy (2 ∷ []) 2 0) 3 [] [] 20 20 → ⊥ }
    ensures a_win_is_paid { IsStretch toy true (CoversSet toy (0 ∷ []) 1) 0 []
        (won_within (0 ∷ []) 1 0 ∷ []) 20 20 → ⊥ }
    ensures short { FallsShort toy (CoversSet toy (2 ∷ []) 2) 0 [] 14 }
    ensures enough { FallsShort toy (CoversSet toy (2 ∷ []) 2) 0 [] 15 → ⊥ }
{}
