//! The law: a function here does nothing, and its contract is a theorem.

ghost use Rattle.krieg_cli.specs.Limits.{AreLimits, FitInputs};

/// The limits are the numbers that the definition lists. An input has room for every plan file, and for what is written of a refutation or of a strategy.
#[tactic(auto, using(crate::proofs::Limits::limits))]
pub fn limits_law()
    ensures numbers { AreLimits }
    ensures fit { FitInputs }
{}
