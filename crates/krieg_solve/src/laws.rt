//! What keys are over trees, as a theorem: the function does nothing, and its contract is the law. `krieg_search` has the laws of plans,
//! costs and refutations.

ghost use Rattle.krieg_words.specs.declared.dialects.Dialect.{Dialect};
ghost use Rattle.krieg_solve.specs.Laws.{KeysAreWon};

/// The keys of a set with a number are exactly the tries that are legal in some member and begin a tree that wins all of the set
/// within it.
pub fn keys_are_won()
    ensures { (d : Dialect) → KeysAreWon d }
{}
