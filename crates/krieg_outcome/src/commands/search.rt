// What a search makes of a sheet: the commands that ask for a search differ in that search alone.
ghost use Rattle.std.specs.Prelude.{◌≡◌, ◌≤◌, false, length};
ghost use Rattle.std.specs.List.{All};
ghost use Rattle.krieg_board.specs.Validity.{IsValid};
ghost use Rattle.krieg_theory.specs.Sets.{is_nil};
ghost use Rattle.krieg_sheet.specs.Turns.{is_over};
ghost use Rattle.krieg_belief.specs.Possible.{HaveOneHand};
ghost use Rattle.krieg_outcome.specs.Asked as sheets;
ghost use Rattle.krieg_outcome.specs.Parts.{Decides, AreTerms, ByKind};

use crate::commands::asked::asked;
use crate::commands::{keys, share, solve};
use crate::ending::Ending;
use krieg_args::MOST_FIND_MOVES;
use krieg_board::Side;
use krieg_fen::MOST_LISTED;
use krieg_pack::Belief;
use krieg_sheet::{Sheet, read_sheet};
use krieg_words::Dialect;
use std::alloc::Global;

/// Which search a command asks for.
#[derive(Clone, Copy)]
pub(crate) enum SearchKind {
    /// For the best plan, where no try is cut.
    Solve,
    /// For the best plan, where tries may be cut.
    Find,
    /// For every first try that is as fast as any.
    Keys,
    /// For the best plan as a strategy.
    Share,
}

/// What the words ask of a search.
#[derive(Clone, Copy)]
pub(crate) struct Terms {
    /// Within how many own moves a plan is to mate.
    pub moves: u64,
    /// How many units the search may take.
    pub budget: u64,
    /// How many positions may be possible.
    pub limit: u64,
}

/// What the search comes to for the set.
fn searched(
    alloc: Global,
    kind: SearchKind,
    terms: Terms,
    d: Dialect,
    who: Side,
    set: &Belief,
) -> Result<Vec<u8>, Ending>
    requires terms { AreTerms terms }
    requires some { is_nil set.now ≡ false }
    requires few { length set.now ≤ MOST_LISTED }
    requires hand { HaveOneHand who set.now }
    requires valid { All IsValid set.now }
    ensures { let found = ByKind kind d who set.now terms.moves terms.budget in
        Decides (λ answer. answer.items) result found }
{
    match kind {
        SearchKind::Solve => solve::searched(alloc, false, terms, d, who, set),
        SearchKind::Find => solve::searched(alloc, true, terms, d, who, set),
        SearchKind::Keys => keys::searched(alloc, terms, d, who, set),
        SearchKind::Share => share::searched(alloc, terms, d, who, set),
    }
}

/// What the search answers to a sheet, which is let go before it begins.
fn answered(alloc: Global, kind: SearchKind, terms: Terms, sheet: Sheet) -> Result<Vec<u8>, Ending>
    requires terms { AreTerms terms }
    ensures { let found = sheets.OfSheet (ByKind kind) is_over terms.moves terms.budget terms.limit
        sheet in
        Decides (λ answer. answer.items) result found }
{
    let set = asked(alloc, &sheet, terms.limit, sheet.is_over())?;
    let (dialect, side) = (sheet.dialect(), sheet.side());
    drop(sheet);
    searched(alloc, kind, terms, dialect, side, &set)
}

/// What the search answers to the text of a sheet.
pub(crate) fn answer(
    alloc: Global,
    kind: SearchKind,
    moves: u64,
    budget: u64,
    limit: u64,
    text: Vec<u8>,
) -> Result<Vec<u8>, Ending>
    requires most { moves ≤ MOST_FIND_MOVES }
    requires few { limit ≤ MOST_LISTED }
    ensures { let found = sheets.Searches (ByKind kind) is_over moves budget limit text.items in
        Decides (λ answer. answer.items) result found }
{
    let terms = Terms {
        moves,
        budget,
        limit,
    };
    let sheet = read_sheet(alloc, &text)?;
    drop(text);
    answered(alloc, kind, terms, sheet)
}
