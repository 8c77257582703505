ghost use Rattle.std.specs.Prelude.{◌≡◌, ◌⊎◌, [], IfOk, IfSome, OnOk};
ghost use Rattle.krieg_accounts.specs.Stored.{pairs};
ghost use Rattle.krieg_accounts.specs.Stretch.{CoversSets};
ghost use Rattle.krieg_costs.specs.Sums.{IsOnce};
ghost use Rattle.krieg_game.specs.Chess.{chess};
ghost use Rattle.krieg_parting.specs.Turns.{IsOwnTurn, IsOthersTurn};
ghost use Rattle.krieg_table.specs.Entries.{entries};
ghost use Rattle.krieg_search.specs.Stretches.{IsAtWork, Searches, TellsSets};
ghost use Rattle.krieg_search.specs.Openings.{AreNumbered};
ghost use Rattle.krieg_search.specs.Decision.{IsAsking, IsDecision, AreFewNotes, sets_in};

use crate::blockers::Blockers;
use crate::lost_sets::LostSets;
use crate::notes::Notes;
use crate::openings::{Opening, find_openings};
use crate::search::{MOST_LEVELS, Search};
use crate::stop::SearchStop;
use crate::way::Way;
use krieg_board::{Side, Units};
use krieg_pack::Belief;
use krieg_sight::Sight;
use krieg_table::Table;
use std::alloc::Global;
use std::mem;

/// What a search leaves: the results, and what may be heard before the first own turn.
#[derive(Drop)]
pub struct Findings {
    pub table: Table,
    pub openings: Vec<Opening>,
    /// What blocks each try of sets that cannot be won.
    pub notes: Notes,
}

/// Whether some plan mates every listed position.
#[derive(Drop)]
pub enum Decision {
    /// None does, since some listed position is over.
    Over,
    /// None does: the set of some opening cannot be won, and the first such is stored.
    Lost(Findings),
    /// Some plan does: the set of each opening is stored as one that can be won.
    Won(Findings),
}

/// Whether the set of each opening can be won within `moves`, up to the first that cannot.
fn all_openings_win(
    search: &mut Search,
    way: Way,
    openings: &[Opening],
    moves: u8,
) -> Result<bool, SearchStop>
    requires ready { IsAtWork way search.old }
    requires numbered { AreNumbered search.old.table openings.now }
    ensures searched { Searches way result
        (TellsSets way.d search.new.table (sets_in search.old.table openings.now) moves)
        (CoversSets (chess way.d) (sets_in search.old.table openings.now) moves) 0
        search.old search.new }
    ensures ready { OnOk result (IsAtWork way search.new) }
    ensures most { search.new.notes.most ≡ search.old.notes.most }
{
    for o in openings {
        if !search.can_win(way, o.set, moves, MOST_LEVELS)? {
            return Ok(false);
        }
    }
    Ok(true)
}

/// What was asked: what may be heard before the first own turn, and whether the set of each can be won.
#[derive(Drop)]
pub struct Outlook {
    pub openings: Vec<Opening>,
    pub all_win: bool,
}

/// A search that has found out nothing yet, with so many units. It takes no memory.
pub fn new_search(way: Way, units: u64) -> Search
    ensures empty { result.table ≡ [] }
    ensures ready { IsAtWork way result }
    ensures most { result.notes.most ≡ way.noted }
    ensures units { result.units ≡ units }
{
    Search {
        sight: Sight::new(way.alloc, if way.cut { units } else { 0 }),
        notes: Notes::new(way.alloc, way.noted),
        lost_sets: LostSets::new(way.alloc),
        table: Table::new(way.alloc),
        units: Units::new(units),
        blockers: Blockers::new(way.alloc),
    }
}

/// Asks of the set of each opening whether it can be won within `moves`, up to the first that cannot: the first step of a search, on
/// which others may follow. There are no openings where some listed position is over.
pub fn ask_openings(
    search: &mut Search,
    way: Way,
    who: Side,
    b: &Belief,
    moves: u8,
) -> Result<Option<Outlook>, SearchStop>
    requires turn { IsOwnTurn who b.now ⊎ IsOthersTurn who b.now }
    requires empty { search.old.table ≡ [] }
    requires ready { IsAtWork way search.old }
    ensures asked { IsAsking way.d who b.now moves way.cut search.new.table result
        search.old.units search.new.units }
    ensures ready { IfOk result (λ o. IfSome o (λ _. IsAtWork way search.new)) }
    ensures most { search.new.notes.most ≡ search.old.notes.most }
{
    let Some(openings) = find_openings(
        way.alloc,
        way.d,
        who,
        b,
        &mut search.table,
        &mut search.units,
    )?
    else {
        return Ok(None);
    };
    let all_win = all_openings_win(search, way, &openings, moves)?;
    Ok(Some(Outlook { openings, all_win }))
}

/// What a search leaves, with these openings: it has no table and no notes from then on.
fn take_findings(search: &mut Search, alloc: Global, openings: Vec<Opening>) -> Findings
    ensures table { result.table ≡ search.old.table }
    ensures once { IsOnce (pairs (entries search.old.table)) }
    ensures openings { result.openings ≡ openings }
    ensures notes { result.notes ≡ search.old.notes }
{
    search.table.know_once();
    Findings {
        table: mem::replace(&mut search.table, Table::new(alloc)),
        openings,
        notes: mem::replace(&mut search.notes, Notes::new(alloc, 0)),
    }
}

/// Whether some plan mates every listed position within `moves`, and by which results.
///
/// Where tries may be cut it looks into no part of a try that is found to fail even for a player who sees the position: the
/// answer is the same, but of such tries the table has no block. It takes at most as many looks for it as there are units, each at a position
/// or at all squares of a king who is alone.
///
/// At most as many notes are kept as the way says. An answer takes what its account says, or less where tries may be cut, and after an error
/// no units are new.
pub fn decide(
    way: Way,
    who: Side,
    b: &Belief,
    moves: u8,
    units: &mut Units,
) -> Result<Decision, SearchStop>
    requires turn { IsOwnTurn who b.now ⊎ IsOthersTurn who b.now }
    ensures decided { IsDecision way.d who b.now moves way.cut result units.old units.new }
    ensures noted { IfOk result (λ r. AreFewNotes r way.noted) }
{
    let mut search = new_search(way, units.left());
    let asked = ask_openings(&mut search, way, who, b, moves)?;
    *units = Units::new(search.units.left());
    let Some(Outlook { openings, all_win }) = asked else {
        return Ok(Decision::Over);
    };
    let found = take_findings(&mut search, way.alloc, openings);
    if !all_win {
        return Ok(Decision::Lost(found));
    }
    Ok(Decision::Won(found))
}
