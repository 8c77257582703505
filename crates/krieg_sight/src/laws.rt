//! The laws: each function here does nothing, and its contract is a theorem.

ghost use Rattle.krieg_sight.specs.Laws.{SeesIsMates, EscapesIsFlees};

/// A mate by a player who sees the position is the same here as in the theory, whatever the dialect.
pub fn sees_is_mates()
    ensures { SeesIsMates }
{}

/// And so is a try that fails by it.
pub fn escapes_is_flees()
    ensures { EscapesIsFlees }
{}
