//! Mate by a player who sees the position, evaluated on the small game. The numbers were worked by hand.

ghost use Rattle.std.specs.Prelude.{◌≡◌, true, false, List, [], ◌∷◌};
ghost use Rattle.krieg_theory.specs.Can.{can};
ghost use Rattle.krieg_theory.specs.Toy.{toy};
ghost use Rattle.krieg_theory.specs.Seen.{sees, escapes, escapes_in_some};

/// Mate by a player who sees the position.
pub fn seeing()
    ensures in_one { sees toy 1 0 ≡ true }
    ensures in_none { sees toy 0 0 ≡ false }
    ensures stalemate_is_no_mate { sees toy 1 4 ≡ false }
    ensures not_in_one { sees toy 1 2 ≡ false }
    ensures in_two { sees toy 2 2 ≡ true }
    ensures more_moves { sees toy 3 2 ≡ true }
    ensures no_try { sees toy 5 5 ≡ false }
    ensures never { sees toy 6 9 ≡ false }
    ensures three { sees toy 3 4 ≡ true }
    ensures not_two { sees toy 2 4 ≡ false }
{}

/// Three positions that are mates in one each: no try mates in all three, and a set of them cannot be won in one.
pub fn seeing_is_more()
    ensures first { sees toy 1 1 ≡ true }
    ensures second { sees toy 1 8 ≡ true }
    ensures third { sees toy 1 10 ≡ true }
    ensures together { can toy 1 (1 ∷ 8 ∷ 10 ∷ []) ≡ false }
{}

/// Tries after which some reply escapes.
pub fn escaping()
    ensures escape { escapes toy 3 3 0 ≡ true }
    ensures no_escape { escapes toy 2 2 1 ≡ false }
    ensures mate_has_none { escapes toy 0 0 0 ≡ false }
    ensures illegal_has_none { escapes toy 0 0 1 ≡ false }
    ensures one_reply_of_two { escapes toy 1 2 4 ≡ true }
    ensures neither_with_two { escapes toy 2 2 4 ≡ false }
    ensures one_member { escapes_in_some toy 3 (0 ∷ 1 ∷ []) 3 ≡ true }
    ensures no_member { escapes_in_some toy 3 (1 ∷ 2 ∷ []) 0 ≡ false }
{}
