//! The laws: each function here does nothing, and its contract is a theorem.

ghost use Rattle.krieg_make.specs.Laws.{AreCounted, AreDistinct, AreListedOnce, AreValid, HaveOneHand, RookMates, RoundsAreAlike};

/// The made positions are valid, look the same to White, and are distinct; in each of them the rook mates.
#[tactic(auto, using(crate::proofs::MadeLists::one_hand, crate::proofs::Distinct::distinct))]
pub fn positions_law()
    ensures valid { AreValid }
    ensures hand { HaveOneHand }
    ensures distinct { AreDistinct }
    ensures mates { RookMates }
{}

/// A made sheet lists as many positions as its number says, and none twice.
#[tactic(auto, using(crate::proofs::MadeLists::counted, crate::proofs::Distinct::listed_once))]
pub fn lists_law()
    ensures counted { AreCounted }
    ensures once { AreListedOnce }
{}

/// In each round of a made session the first try is early, the second illegal, and the third is done and silent.
#[tactic(auto, using(crate::proofs::RoundVerdicts::rounds_alike))]
pub fn rounds_law()
    ensures { RoundsAreAlike }
{}
