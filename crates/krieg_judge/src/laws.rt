//! The laws: each function here does nothing, and its contract is a theorem.

ghost use Rattle.krieg_board.specs.declared.men.Side.{Side};
ghost use Rattle.krieg_words.specs.declared.dialects.Dialect.{Dialect};
ghost use Rattle.krieg_game.specs.Chess.{chess};
ghost use Rattle.krieg_game.specs.Outset.{outset};
ghost use Rattle.krieg_judge.specs.Laws.{ReachedIsOnce, ReachedIsLeast, ReachedIsClosed};

/// No pair of a node and a position is counted twice, however many games and nodes lead to it.
pub fn reached_is_once()
    ensures { (d : Dialect) (who : Side) → ReachedIsOnce (chess d) (outset d who) }
{}

/// The pairs that are counted have what comes first, and with each pair what comes next.
pub fn reached_is_closed()
    ensures { (d : Dialect) (who : Side) → ReachedIsClosed (chess d) (outset d who) }
{}

/// And they are the least set of pairs that has.
pub fn reached_is_least()
    ensures { (d : Dialect) (who : Side) → ReachedIsLeast (chess d) (outset d who) }
{}
