ghost use Rattle.std.specs.Prelude.{◌≡◌, ◌≤◌};
ghost use Rattle.krieg_sheet.specs.Places.{IsSheet};
ghost use Rattle.krieg_outcome.specs.Parts.{Decides};
ghost use Rattle.krieg_outcome.specs.Asked as sheets;
ghost use Rattle.krieg_outcome.specs.Refute as spec;

use crate::commands::asked::asked;
use crate::ending::Ending;
use crate::refusal::Refusal;
use krieg_board::{MOST_MOVES, Side, Units};
use krieg_fen::MOST_LISTED;
use krieg_pack::Belief;
use krieg_refute::{Denied, refute};
use krieg_refutefile::{Denial, Pieces, write_denial};
use krieg_sheet::{Sheet, read_sheet};
use krieg_words::Dialect;
use std::alloc::Global;

/// What a search for claims comes to, within so many moves and units. The set and the claims are let go while the text is made.
fn searched(
    alloc: Global,
    d: Dialect,
    who: Side,
    set: Belief,
    moves: u64,
    budget: u64,
) -> Result<Pieces, Ending>
    requires least { 1 ≤ moves }
    requires most { moves ≤ MOST_MOVES }
    requires listed { spec.CanBeListed who set }
    ensures { Decides (λ answer. answer) result (spec.Claimed d who set moves budget) }
{
    let moves = moves as u8;
    let mut units = Units::new(budget);
    match refute(alloc, d, &set, moves, &mut units)? {
        Denied::Denial(claims) => {
            let denial = Denial {
                dialect: d,
                side: who,
                moves,
                set,
                claims,
            };
            Ok(write_denial(alloc, denial)?)
        }
        Denied::Exists => Err(Ending::Refused(Refusal::PlanExists)),
    }
}

/// Whether the player of the sheet has no turn: the game is over, or the opponent is to move.
fn has_no_turn(sheet: &Sheet) -> bool
    ensures none { result ≡ sheets.has_no_turn sheet.now }
    ensures sheet { IsSheet sheet.now }
{
    sheet.is_over() || !sheet.my_turn()
}

/// What `refute` answers to a sheet, which is let go before the search.
fn refuted(
    alloc: Global,
    sheet: Sheet,
    moves: u64,
    budget: u64,
    limit: u64,
) -> Result<Pieces, Ending>
    requires least { 1 ≤ moves }
    requires most { moves ≤ MOST_MOVES }
    requires few { limit ≤ MOST_LISTED }
    ensures { let found = sheets.OfSheet spec.Claimed sheets.has_no_turn moves budget limit sheet in
        Decides (λ answer. answer) result found }
{
    let set = asked(alloc, &sheet, limit, has_no_turn(&sheet))?;
    let (dialect, side) = (sheet.dialect(), sheet.side());
    drop(sheet);
    searched(alloc, dialect, side, set, moves, budget)
}

/// What `refute` answers to the text of a sheet.
pub(crate) fn answer(
    alloc: Global,
    moves: u64,
    budget: u64,
    limit: u64,
    text: Vec<u8>,
) -> Result<Pieces, Ending>
    requires least { 1 ≤ moves }
    requires most { moves ≤ MOST_MOVES }
    requires few { limit ≤ MOST_LISTED }
    ensures { let found = sheets.Searches spec.Claimed sheets.has_no_turn moves budget limit
        text.items in
        Decides (λ answer. answer) result found }
{
    let sheet = read_sheet(alloc, &text)?;
    drop(text);
    refuted(alloc, sheet, moves, budget, limit)
}
