ghost use Rattle.krieg_umpire.specs.Laws.{LastIsConsistent, LinesAreHeard, SessionsAreReadBack, SheetsAreInPlace, SheetsAreReadBack, DoneAreLegal, DoneAreTries, SansAreReadBack, UnsansAreReadBack};

/// The law that of the lines of both players those of one are what he hears, in their order.
#[tactic(auto, using(crate::proofs::HeardLines::heard_lines))]
pub fn lines_law()
    ensures { LinesAreHeard }
{}

/// The law that a player's sheet of a game is a sheet: its words can be said and fit the dialect, and its
/// entries are in place. The position in which the game stands is consistent with it.
#[tactic(auto, using(crate::proofs::SheetsOfGames::sheets, crate::proofs::LastPositions::consistency))]
pub fn sheet_law()
    ensures sheets { SheetsAreInPlace }
    ensures last { LastIsConsistent }
{}

/// The law that what is written is read again: a session as the same session, and a player's sheet of a
/// game as the same sheet.
#[tactic(auto, using(crate::proofs::SessionFormat::again))]
pub fn reading_law()
    ensures sessions { SessionsAreReadBack }
    ensures sheets { SheetsAreReadBack }
{}

/// The laws that the moves of a session's record are legal, that as tries they are those that were done, that
/// what is written of a session is read as its record, and what is written of a record as its session.
#[tactic(auto, using(crate::proofs::DoneMoves::laws))]
pub fn score_law()
    ensures legal { DoneAreLegal }
    ensures tries { DoneAreTries }
    ensures records { SansAreReadBack }
    ensures sessions { UnsansAreReadBack }
{}
