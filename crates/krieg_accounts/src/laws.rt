//! The laws: each function here does nothing, and its contract is a theorem about every game.

ghost use Rattle.krieg_accounts.specs.Laws.{PartCan, ResultIsCan, WonIsLeast, StoredIsBacking, StoredIsCanon, StretchesJoin, NotedIsStretch, LostIsStretch, ShortOfPair, SetsAnswerPlan, FloorIsCharged, FloorIsTaken, FreshIsEnough, ShortIsBelowFresh};

use krieg_theory::HiddenGame;

/// A stored result says whether the set can be won within the number.
pub fn result_is_can<G: HiddenGame>()
    ensures { ResultIsCan G.game }
{}

/// A set that is stored as won is so with its least number.
pub fn won_is_least<G: HiddenGame>()
    ensures { WonIsLeast G.game }
{}

/// The pairs for which something is stored keep the rules of backing.
pub fn stored_is_backing<G: HiddenGame>()
    ensures { StoredIsBacking G.game }
{}

/// The try that is stored for a set begins its canonical node, and the nodes of its parts go on.
pub fn stored_is_canon<G: HiddenGame>()
    ensures { StoredIsCanon G.game }
{}

/// One stretch behind another is a stretch.
pub fn stretches_join<G: HiddenGame>()
    ensures { StretchesJoin G.game }
{}

/// What wins a set wins each part of it that has a member.
pub fn part_can<G: HiddenGame>()
    ensures { PartCan G.game }
{}

/// A pair that was expanded and whose result is noted was a stretch that costs nothing apart from what is stored.
pub fn noted_is_stretch<G: HiddenGame>()
    ensures { NotedIsStretch G.game }
{}

/// Where tries may be cut, a set that is known to be lost is noted for nothing.
pub fn lost_is_stretch<G: HiddenGame>()
    ensures { LostIsStretch G.game }
{}

/// Units that fall short of all tries of a pair that is not stored fall short of the pair.
pub fn short_of_pair<G: HiddenGame>()
    ensures { ShortOfPair G.game }
{}

/// Where the opening sets are answered, so is the question for a plan.
pub fn sets_answer_plan<G: HiddenGame>()
    ensures { SetsAnswerPlan G.game G.outset }
{}

/// A sound table that has the answer was charged at least the floor.
pub fn floor_is_charged<G: HiddenGame>()
    ensures { FloorIsCharged G.game G.outset }
{}

/// A search from the empty table to one that has the answer takes at least the floor.
pub fn floor_is_taken<G: HiddenGame>()
    ensures { FloorIsTaken G.game G.outset }
{}

/// A search from the empty table takes at most what is fresh.
pub fn fresh_is_enough<G: HiddenGame>()
    ensures { FreshIsEnough G.game G.outset }
{}

/// And it falls short only where fewer units than are fresh were there.
pub fn short_is_below_fresh<G: HiddenGame>()
    ensures { ShortIsBelowFresh G.game G.outset }
{}
