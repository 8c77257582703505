//! The laws of shared plans, for chess in each dialect and from either side's turn: each function here does nothing, and its contract is a
//! theorem.

ghost use Rattle.krieg_board.specs.declared.men.Side.{Side};
ghost use Rattle.krieg_words.specs.declared.dialects.Dialect.{Dialect};
ghost use Rattle.krieg_game.specs.Chess.{chess};
ghost use Rattle.krieg_game.specs.Outset.{outset};
ghost use Rattle.krieg_share.specs.Laws.{SharedUnfolds, SetsHaveOneNode};

/// The canonical plan, once it is shared, unfolds to itself.
pub fn shared_unfolds()
    ensures { (d : Dialect) (who : Side) → SharedUnfolds (chess d) (outset d who) }
{}

/// Each set that is reached has one node, which leads to lower numbers.
pub fn sets_have_one_node()
    ensures { (d : Dialect) (who : Side) → SetsHaveOneNode (chess d) (outset d who) }
{}
