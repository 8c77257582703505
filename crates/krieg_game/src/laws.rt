//! The laws: each function here does nothing, and its contract is a theorem.

ghost use Rattle.krieg_board.specs.Order.{move_cmp};
ghost use Rattle.krieg_board.specs.declared.men.Side.{Side};
ghost use Rattle.krieg_words.specs.declared.dialects.Dialect.{Dialect};
ghost use Rattle.krieg_theory.specs.Game.{IsGame};
ghost use Rattle.krieg_theory.specs.Laws.{MoreMovesWin, MoreMovesMate, WorstIsThere};
ghost use Rattle.krieg_theory.specs.Plans.{IsOutset};
ghost use Rattle.krieg_theory.specs.Sets.{IsOrder};
ghost use Rattle.krieg_game.specs.Keys.{key_cmp, key_lt, root_cmp, root_lt};
ghost use Rattle.krieg_game.specs.Chess.{chess};
ghost use Rattle.krieg_game.specs.Outset.{outset};
ghost use Rattle.krieg_game.specs.Laws.{IsStrict, NothingWinsInNone, IllegalTryGoesOn, LegalTryWins, MatesAtOnce, ClassesComeAbout, RefusedAscends, OutcomesAreReplies};
ghost use Rattle.krieg_game.specs.ClassLaws.{SetsHaveTheClasses, SetsMayGrow, OutcomesAreClassed, FirstMovesAreClassed, OpeningsAreClassed};
ghost use Rattle.krieg_game.specs.OutsetLaws.{MatesFromEach, OverIsEnded, OpeningsAreMembers, OpeningsComeFirst, OpeningsOccur};

/// Keys have a total order, in which any two that differ stand one before the other.
#[tactic(auto, using(crate::proofs::KeyLaws::key_strict, crate::proofs::KeyLaws::key_order))]
pub fn keys_are_ordered()
    ensures strict { IsStrict key_cmp }
    ensures order { IsOrder key_lt }
{}

/// So have the keys of roots.
#[tactic(auto, using(crate::proofs::KeyLaws::root_strict, crate::proofs::KeyLaws::root_order))]
pub fn root_keys_are_ordered()
    ensures strict { IsStrict root_cmp }
    ensures order { IsOrder root_lt }
{}

/// So have moves.
#[tactic(auto, using(crate::proofs::MoveOrder::move_strict))]
pub fn moves_are_ordered()
    ensures { IsStrict move_cmp }
{}

/// Chess under an umpire is a game of the theory: each legal move is listed, the list ascends, and positions,
/// moves and keys are ordered.
pub fn chess_is_game()
    ensures { (d : Dialect) → IsGame (chess d) }
{}

/// How it starts meets the law of the theory.
pub fn outset_is_lawful()
    ensures { (d : Dialect) (who : Side) → IsOutset (chess d) (outset d who) }
{}

/// Nothing is won within no move.
#[tactic(auto, using(crate::proofs::Winning::nothing_wins_in_none))]
pub fn nothing_wins_in_none()
    ensures { (d : Dialect) → NothingWinsInNone d }
{}

/// An illegal try is won by the node for it, within the same number.
#[tactic(auto, using(crate::proofs::Winning::illegal_try_goes_on))]
pub fn illegal_try_goes_on()
    ensures { (d : Dialect) → IllegalTryGoesOn d }
{}

/// A legal try wins where it mates, or where the game goes on and every reply is answered within one move less.
#[tactic(auto, using(crate::proofs::Winning::legal_try_wins))]
pub fn legal_try_wins()
    ensures { (d : Dialect) → LegalTryWins d }
{}

/// A try mates at once where it is legal and leaves a mate.
#[tactic(auto, using(crate::proofs::Winning::mates_at_once))]
pub fn mates_at_once()
    ensures { (d : Dialect) → MatesAtOnce d }
{}

/// A legal try has one outcome for each reply.
#[tactic(auto, using(crate::proofs::Winning::outcomes_are_replies))]
pub fn outcomes_are_replies()
    ensures { (d : Dialect) → OutcomesAreReplies d }
{}

/// The members that refuse a try are a set as the members are.
pub fn refused_ascends()
    ensures { (d : Dialect) → RefusedAscends d }
{}

/// A class has just the positions that come about by a member, the legal try and a reply of which its key is told.
pub fn classes_come_about()
    ensures { (d : Dialect) → ClassesComeAbout d }
{}

/// A plan mates where it mates from each listed position, whichever side is to move there.
#[tactic(auto, using(crate::proofs::Starting::mates_from_each))]
pub fn mates_from_each()
    ensures { (d : Dialect) (who : Side) → MatesFromEach d who }
{}

/// A listed position is over just where the opponent is to move and has no move.
#[tactic(auto, using(crate::proofs::Starting::over_is_ended))]
pub fn over_is_ended()
    ensures { (d : Dialect) (who : Side) → OverIsEnded d who }
{}

/// At the player's turn an opening set has the listed positions with those opening words.
pub fn openings_are_members()
    ensures { (d : Dialect) (who : Side) → OpeningsAreMembers d who }
{}

/// At the opponent's turn it has what comes about by a first move of which its key is told.
pub fn openings_come_first()
    ensures { (d : Dialect) (who : Side) → OpeningsComeFirst d who }
{}

/// Each opening set ascends, and a root's key occurs just where its set is not empty.
#[tactic(auto, using(crate::proofs::Starting::openings_occur))]
pub fn openings_occur()
    ensures { (d : Dialect) (who : Side) → OpeningsOccur d who }
{}

/// The outcomes of a try in a set have the classes of the theory.
pub fn outcomes_are_classed()
    ensures { (d : Dialect) → OutcomesAreClassed d }
{}

/// Neither repeats of outcomes nor their order matter for the classes.
#[tactic(auto, using(crate::proofs::OutcomeSets::sets_have_the_classes))]
pub fn sets_have_the_classes()
    ensures { SetsHaveTheClasses }
{}

/// Repeats may be dropped of the outcomes that came before more come.
#[tactic(auto, using(crate::proofs::OutcomeSets::sets_may_grow))]
pub fn sets_may_grow()
    ensures { SetsMayGrow }
{}

/// At the opponent's turn the opening sets are the classes of his first moves.
pub fn first_moves_are_classed()
    ensures { (d : Dialect) (who : Side) → FirstMovesAreClassed d who }
{}

/// At the player's turn they are the classes of the listed positions.
pub fn openings_are_classed()
    ensures { (d : Dialect) (who : Side) → OpeningsAreClassed d who }
{}

/// A tree that wins within some number of own moves wins within one more.
#[tactic(auto, using(crate::proofs::Theorems::more_moves_win))]
pub fn more_moves_win()
    ensures { (d : Dialect) → MoreMovesWin (chess d) }
{}

/// A plan that mates within some number of own moves mates within one more.
#[tactic(auto, using(crate::proofs::Theorems::more_moves_mate))]
pub fn more_moves_mate()
    ensures { (d : Dialect) (who : Side) → MoreMovesMate (chess d) (outset d who) }
{}

/// A plan that mates within a number has a worst case, which is at most that number.
#[tactic(auto, using(crate::proofs::Theorems::worst_is_there))]
pub fn worst_is_there()
    ensures { (d : Dialect) (who : Side) → WorstIsThere (chess d) (outset d who) }
{}
