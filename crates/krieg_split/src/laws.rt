//! The laws: each function here does nothing, and its contract is a theorem.

ghost use Rattle.krieg_words.specs.declared.dialects.Dialect.{Dialect};
ghost use Rattle.krieg_split.specs.Laws.{ClassesAreSets, RefusedIsSet};

/// Each class of a split ascends and has no more members than the split took units. Where its key occurs it is not
/// empty.
#[tactic(auto, using(crate::proofs::PartSizes::classes_are_sets))]
pub fn classes_are_sets()
    ensures { (d : Dialect) → ClassesAreSets d }
{}

/// What refuses a try is a set, and a smaller one where the try is legal in some member.
#[tactic(auto, using(crate::proofs::PartSizes::refused_is_set))]
pub fn refused_is_set()
    ensures { (d : Dialect) → RefusedIsSet d }
{}
