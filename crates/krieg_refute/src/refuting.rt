ghost use Rattle.std.specs.Prelude.{◌≡◌, ◌<◌, ◌≤◌, false, true, find, is_some, length, [], Ok, Err, Vec, IfSome, IfOk, IfErr};
ghost use Rattle.std.specs.declared.alloc.Global.{Global};
ghost use Rattle.krieg_theory.specs.Sets.{is_nil};
ghost use Rattle.krieg_table.specs.SetRows.{set_at};
ghost use Rattle.krieg_search.specs.WonSets.{IsPaidFor};
ghost use Rattle.krieg_search.specs.Openings.{AreNumbered};
ghost use Rattle.krieg_search.specs.Notes.{AreNotes};
ghost use Rattle.krieg_refutation.specs.declared.refutation.Claim.{Claim};
ghost use Rattle.krieg_refute.specs.Drafts.{claims_over, AreWithin};
ghost use Rattle.krieg_refute.specs.RefuteAnswers as side;
ghost use Rattle.krieg_refute.specs.RefuteAnswers.{IsOneSide, IsDenied, IsTaken};
ghost use Rattle.krieg_refute.specs.Claiming.{IsClaimList, IsLost, is_lost_opening, Claims, AreClaims};

use crate::claiming::{ClaimList, Setting, claim, is_lost};
use crate::claims::{Draft, claims_of};
use indexmap::IndexSet;
use krieg_board::{MOST_MOVES, Side, Units};
use krieg_pack::Belief;
use krieg_refutation::Claim;
use krieg_search::decide::{Decision, Findings, decide};
use krieg_search::{Notes, Opening, Question, SearchStop, Way};
use krieg_table::Table;
use krieg_words::Dialect;
use std::alloc::Global;

/// The most notes that the search keeps of what blocks the tries of lost sets: 256 KB of them. What is not noted is found once more.
const MOST_NOTED: usize = 16_384;

/// What is found of a set of positions and a number of moves.
#[derive(Drop)]
pub enum Denied {
    /// No plan mates all members within the number, and these claims show it.
    Denial(Vec<Claim>),
    /// Some plan mates all members within the number.
    Exists,
}

/// The side that is to move in the first member, and White where there is none.
fn side_of(b: &Belief) -> Side
    ensures { result ≡ side.side_of b.now }
{
    if b.is_empty() {
        return Side::White;
    }
    b.get(0).side()
}

/// The set of the first opening that is stored as one that cannot be won within `moves`. The openings are let go.
fn lost_opening(table: &Table, openings: Vec<Opening>, moves: u8) -> u32
    requires numbered { AreNumbered table.now openings.items }
    requires some { is_some (find (is_lost_opening table.now moves) openings.items) ≡ true }
    ensures { IfSome (find (is_lost_opening table.now moves) openings.items) (λ o. o.set ≡ result) }
{
    for o in openings.as_slice() {
        if is_lost(table, o.set, moves) {
            return o.set;
        }
    }
    unreachable!()
}

/// No claims yet.
fn no_claims(alloc: Global) -> ClaimList
    ensures claims { result.claims.items ≡ [] }
    ensures places { result.places.keys ≡ [] }
    ensures positions { result.positions ≡ 0 }
    ensures reasons { result.reasons ≡ 0 }
{
    ClaimList {
        claims: Vec::new(alloc),
        places: IndexSet::new(alloc),
        positions: 0,
        reasons: 0,
    }
}

/// Writes the claims that the set, which is stored as such, cannot be won within its number of moves, and lets the notes go.
fn write_claims(
    setting: Setting,
    table: &mut Table,
    claimed: &mut ClaimList,
    asked: Question,
) -> Result<u16, SearchStop>
    requires some { 0 < asked.moves }
    requires within { asked.set < length table.old }
    requires members { is_nil (set_at table.old asked.set) ≡ false }
    requires paid { IsPaidFor setting.way.d false table.old }
    requires noted { AreNotes setting.way.d false table.old setting.notes }
    requires lost { IsLost table.old (set_at table.old asked.set) asked.moves }
    requires claimed { IsClaimList setting.way.d table.old claimed.old }
    ensures { Claims setting.way.d result (set_at table.old asked.set) asked.moves
        table.old table.new claimed.old claimed.new }
{
    claim(&setting, table, claimed, asked)
}

/// The claims that the set, which is stored as such, cannot be won within its number of moves, whose sets are in the table.
fn drafts_for(
    setting: Setting,
    table: &mut Table,
    asked: Question,
) -> Result<Vec<Draft>, SearchStop>
    requires some { 0 < asked.moves }
    requires within { asked.set < length table.old }
    requires members { is_nil (set_at table.old asked.set) ≡ false }
    requires paid { IsPaidFor setting.way.d false table.old }
    requires noted { AreNotes setting.way.d false table.old setting.notes }
    requires lost { IsLost table.old (set_at table.old asked.set) asked.moves }
    ensures within { IfOk result (λ drafts. AreWithin table.new drafts.items) }
    ensures claims { IfOk result (λ drafts. (cs : Vec Claim Global)
        → cs.items ≡ claims_over table.new drafts.items
        → AreClaims setting.way.d (set_at table.old asked.set) asked.moves (Ok cs)) }
    ensures stop { IfErr result (λ stop. AreClaims setting.way.d (set_at table.old asked.set)
        asked.moves (Err stop)) }
{
    let mut claimed = no_claims(setting.way.alloc);
    match write_claims(setting, table, &mut claimed, asked) {
        Ok(_) => Ok(claimed.claims),
        Err(stop) => Err(stop),
    }
}

/// The claims that the set, which is stored as such, cannot be won within `moves`.
fn claims_for(
    way: Way,
    notes: Notes,
    mut table: Table,
    set: u32,
    moves: u8,
) -> Result<Vec<Claim>, SearchStop>
    requires some { 0 < moves }
    requires within { set < length table }
    requires members { is_nil (set_at table set) ≡ false }
    requires paid { IsPaidFor way.d false table }
    requires noted { AreNotes way.d false table notes }
    requires lost { IsLost table (set_at table set) moves }
    ensures { AreClaims way.d (set_at table set) moves result }
{
    let setting = Setting { way, notes };
    let drafts = drafts_for(setting, &mut table, Question { set, moves })?;
    Ok(claims_of(way.alloc, table, drafts)?)
}

/// The claims that no plan of the side to move mates all members within `moves`, as the umpire tells games in the
/// dialect, or that some plan does.
///
/// `Denial` has the claims of krieg_claims for the first opening set that cannot be won, in order, and they refute.
/// `Exists` comes only where some plan mates within `moves`, and `Large` only where none does and these claims are more than
/// `MOST_CLAIMS`, or have more than `MOST_CLAIMED` positions or reasons: since these exclude each other, each comes exactly
/// then, if neither units nor memory are wanting.
///
/// The units are those of the search: an answer takes at least the floor of krieg_costs and at most what is fresh. `Spent`
/// comes only where fewer units are left than are fresh. An error takes none, and `Large` is one.
///
/// From 1 to [`MOST_MOVES`] moves may be asked for, and the same side is to move in all members. `NoMemory` comes for want of memory, and
/// for more different sets than a table keeps.
pub fn refute(
    alloc: Global,
    d: Dialect,
    b: &Belief,
    moves: u8,
    units: &mut Units,
) -> Result<Denied, SearchStop>
    requires turn { IsOneSide b.now }
    requires some { 0 < moves }
    requires most { moves ≤ MOST_MOVES }
    ensures answer { IsDenied d (side.side_of b.now) b.now moves result }
    ensures units { IsTaken d (side.side_of b.now) b.now moves result units.old units.new }
{
    let who = side_of(b);
    let mut left = Units::new(units.left());
    let way = Way {
        alloc,
        d,
        cut: false,
        noted: MOST_NOTED,
    };
    match decide(way, who, b, moves, &mut left)? {
        Decision::Over => unreachable!(),
        Decision::Lost(found) => {
            let Findings {
                table,
                openings,
                notes,
            } = found;
            let set = lost_opening(&table, openings, moves);
            let claims = claims_for(way, notes, table, set, moves)?;
            *units = left;
            Ok(Denied::Denial(claims))
        }
        Decision::Won(_found) => {
            *units = left;
            Ok(Denied::Exists)
        }
    }
}
