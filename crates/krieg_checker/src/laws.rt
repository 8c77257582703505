//! The laws: each function here does nothing, and its contract is a theorem.

ghost use Rattle.krieg_board.specs.declared.men.Side.{Side};
ghost use Rattle.krieg_words.specs.declared.dialects.Dialect.{Dialect};
ghost use Rattle.krieg_game.specs.Chess.{chess};
ghost use Rattle.krieg_game.specs.Outset.{outset};
ghost use Rattle.krieg_checker.specs.Laws.{ReachedIsOnce, ReachedIsLeast};

/// No pair of a node and a position is counted twice, however many games lead to it.
pub fn reached_is_once()
    ensures { (d : Dialect) (who : Side) → ReachedIsOnce (chess d) (outset d who) }
{}

/// The pairs that are counted are the least set that has what comes first, and with each pair what comes next.
pub fn reached_is_least()
    ensures { (d : Dialect) (who : Side) → ReachedIsLeast (chess d) (outset d who) }
{}
