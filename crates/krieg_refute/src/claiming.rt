ghost use Rattle.std.specs.Prelude.{◌≡◌, ◌<◌, ◌≤◌, ◌^◌, ◌↔◌, ◌++◌, ◌∷◌, [], false, true, IfOk, OnOk, IsTrue, map, length};
ghost use Rattle.std.specs.List.{list_any};
ghost use Rattle.krieg_words.specs.declared.dialects.Dialect.{Dialect as Umpire};
ghost use Rattle.krieg_parting.specs.Mating.{lives};
ghost use Rattle.krieg_theory.specs.Sets.{In, is_nil};
ghost use Rattle.krieg_theory.specs.Split as theory;
ghost use Rattle.krieg_theory.specs.Split.{legal_in_some};
ghost use Rattle.krieg_costs.specs.Cost.{made};
ghost use Rattle.krieg_game.specs.Chess.{chess};
ghost use Rattle.krieg_game.specs.Classes.{class_pair};
ghost use Rattle.krieg_pack.specs.Order.{position_lt};
ghost use Rattle.krieg_accounts.specs.Stored.{stored};
ghost use Rattle.krieg_table.specs.SetRows.{set_at};
ghost use Rattle.krieg_table.specs.Entries.{entries};
ghost use Rattle.krieg_claims.specs.Losses.{is_loss};
ghost use Rattle.krieg_search.specs.WonSets.{IsPaidFor};
ghost use Rattle.krieg_search.specs.Remainders.{IsRemainder};
ghost use Rattle.krieg_search.specs.Notes.{IsBlock, IsRow, AreNotes};
ghost use Rattle.krieg_refute.specs.Blocking.{HasBlock, HasRow, IsNoted};
ghost use Rattle.krieg_refute.specs.Claiming.{at_once_reason, IsLost, IsFirstLost, IsClaimList, IsNext, IsPushed, Claims, Reasons, Blocks};
ghost use Rattle.krieg_refutation.specs.Refutations.{why_of, reason_of, most_claims, most_claimed};
ghost use Rattle.krieg_search.specs.Stretches.{AreCounted};

use crate::claims::Draft;
use indexmap::IndexSet;
use krieg_board::{Move, NoMemory, Units};
use krieg_game::Class;
use krieg_moves::{after_if_legal, is_mate};
use krieg_pack::{Belief, Packed, unpack};
use krieg_parting::PartStop;
use krieg_refutation::{MOST_CLAIMED, MOST_CLAIMS, Reason, Why};
use krieg_search::{Block, Note, Notes, Question, Remainder, SearchStop, Way, left_by, number_of};
use krieg_split::{PackedKey, tries};
use krieg_table::{SetResult, Table};
use std::alloc::Global;

/// The claims that are written so far, each behind those that it cites.
#[derive(Drop)]
pub(crate) struct ClaimList {
    pub claims: Vec<Draft>,
    /// What the claims speak of, in their order.
    pub places: IndexSet<Question>,
    /// How many positions the claims have in all.
    pub positions: usize,
    /// How many reasons they have in all.
    pub reasons: usize,
}

/// What stays the same while claims are written, with what the search has noted.
#[derive(Drop)]
pub(crate) struct Setting {
    pub way: Way,
    pub notes: Notes,
}

/// Whether the set is stored as one that cannot be won within `moves`.
pub(crate) fn is_lost(table: &Table, set: u32, moves: u8) -> bool
    requires { set < length table.now }
    ensures { result ≡ is_loss (stored position_lt (entries table.now)
        (set_at table.now set, moves)) }
{
    match table.result(set, moves) {
        Some(SetResult::Loses) => true,
        Some(SetResult::Wins(_)) => false,
        None => false,
    }
}

/// Whether in some member the try is legal and does not mate.
fn lives_in_some(members: &[Packed], mv: &Move) -> bool
    ensures { result ≡ list_any (lives mv.now) members.now }
{
    for member in members {
        if let Some(q) = after_if_legal(&unpack(member), *mv) {
            if !is_mate(&q) {
                return true;
            }
        }
    }
    false
}

/// What the try leaves to be won, by units that are made for this split alone, since the search has paid for it. Where one
/// move is left, no reply is counted once a member lives.
fn left_again(
    way: Way,
    table: &Table,
    set: u32,
    mv: Move,
    moves: u8,
) -> Result<Option<Remainder>, NoMemory>
    requires some { 0 < moves }
    requires within { set < length table.now }
    requires paid { made (chess way.d) (set_at table.now set) mv < 2 ^ 64 }
    ensures { IfOk result (IsRemainder way.d false (set_at table.now set) mv moves) }
{
    let opened = table.open(way.alloc, set)?;
    let b = opened.of(table, set);
    if moves == 1 && lives_in_some(b.members(), &mv) {
        return Ok(None);
    }
    let mut units = Units::new(u64::MAX);
    match left_by(way, b, mv, moves, &mut units) {
        Ok(left) => Ok(left),
        Err(PartStop::Spent) => unreachable!(),
        Err(PartStop::NoMemory) => Err(NoMemory),
    }
}

/// What blocks the try, by one split more: the first class that is stored as lost with one move less, or the members that refuse
/// it; or it fails at once.
fn block_of(way: Way, table: &mut Table, set: u32, mv: Move, moves: u8) -> Result<Block, NoMemory>
    requires some { 0 < moves }
    requires within { set < length table.old }
    requires paid { IsPaidFor way.d false table.old }
    requires lost { IsLost table.old (set_at table.old set) moves }
    requires legal { legal_in_some (chess way.d) (set_at table.old set) mv ≡ true }
    ensures { IfOk result (HasBlock way.d table.old table.new (set_at table.old set) mv moves) }
{
    let Some(Remainder { classes, refused }) = left_again(way, table, set, mv, moves)? else {
        return Ok(Block::AtOnce);
    };
    if let Some(class) = first_lost(table, classes, moves - 1)? {
        return Ok(Block::Class(class.0, class.1));
    }
    Ok(Block::Refused(number_of(table, refused)?))
}

/// The tries that make sense in the set with that number.
fn tries_in(alloc: Global, table: &Table, set: u32) -> Result<Vec<Move>, NoMemory>
    requires { set < length table.now }
    ensures { IfOk result (λ moves. (d : Umpire)
        → moves.items ≡ theory.tries (chess d) (set_at table.now set)) }
{
    let opened = table.open(alloc, set)?;
    tries(alloc, opened.of(table, set))
}

/// Adds the next try of the set, with what blocks it.
fn add_note(
    way: Way,
    table: &mut Table,
    asked: Question,
    mv: &Move,
    row: &mut Vec<Note>,
) -> Result<(), NoMemory>
    requires some { 0 < asked.moves }
    requires within { asked.set < length table.old }
    requires paid { IsPaidFor way.d false table.old }
    requires lost { IsLost table.old (set_at table.old asked.set) asked.moves }
    requires legal { legal_in_some (chess way.d) (set_at table.old asked.set) mv.now ≡ true }
    ensures { OnOk result (IsNoted way.d table.old table.new (set_at table.old asked.set)
        mv.now asked.moves row.old.items row.new.items) }
{
    let block = block_of(way, table, asked.set, *mv, asked.moves)?;
    row.push(Note { mv: *mv, block })?;
    Ok(())
}

/// Each try that makes sense in the set, in order, with what blocks it.
fn row_of(way: Way, table: &mut Table, asked: Question) -> Result<Vec<Note>, NoMemory>
    requires some { 0 < asked.moves }
    requires within { asked.set < length table.old }
    requires paid { IsPaidFor way.d false table.old }
    requires lost { IsLost table.old (set_at table.old asked.set) asked.moves }
    ensures { IfOk result (λ row. HasRow way.d table.old table.new asked row.items) }
{
    let tries = tries_in(way.alloc, table, asked.set)?;
    let mut row = Vec::with_capacity(way.alloc, tries.len())?;
    for mv in &tries {
        add_note(way, table, asked, mv, &mut row)?;
    }
    Ok(row)
}

/// Why a try fails at once: with one move left it lives in some member, and else it stalemates in some.
fn at_once(moves: u8) -> Why
    ensures { why_of result ≡ at_once_reason moves }
{
    if moves == 1 {
        return Why::Lives;
    }
    Why::Stale
}

/// The first of the classes that is stored as one that cannot be won within `moves`: its words, and the number of its set.
///
/// Each class that is looked at is let go into the table.
fn first_lost(
    table: &mut Table,
    classes: Vec<Class>,
    moves: u8,
) -> Result<Option<(PackedKey, u32)>, NoMemory>
    requires { AreCounted table.old }
    ensures { IfOk result (IsFirstLost table.old table.new (map class_pair classes.items) moves) }
{
    for class in classes {
        let set = number_of(table, class.belief)?;
        if is_lost(table, set, moves) {
            return Ok(Some((PackedKey::new(&class.own, &class.reply), set)));
        }
    }
    Ok(None)
}

/// Whether so many claims, with so many positions and reasons, may be written.
fn are_few(claims: usize, positions: usize, reasons: usize) -> bool
    ensures { IsTrue result ↔ ((claims ≤ most_claims) × (positions ≤ most_claimed)
        × (reasons ≤ most_claimed)) }
{
    claims <= MOST_CLAIMS && positions <= MOST_CLAIMED && reasons <= MOST_CLAIMED
}

/// How many members the set with that number has.
fn size_of_set(alloc: Global, table: &Table, set: u32) -> Result<usize, NoMemory>
    requires { set < length table.now }
    ensures { IfOk result (λ size. size ≡ length (set_at table.now set)) }
{
    let opened = table.open(alloc, set)?;
    Ok(opened.of(table, set).len())
}

/// Adds a claim and what it speaks of, which is new. Nothing is counted.
fn add(claimed: &mut ClaimList, asked: Question, reasons: Vec<Reason>) -> Result<(), NoMemory>
    requires { In asked claimed.old.places.keys → ⊥ }
    ensures claims { OnOk result (claimed.new.claims.items ≡ claimed.old.claims.items
        ++ record { moves = asked.moves; set = asked.set; reasons = reasons } ∷ []) }
    ensures places { OnOk result (claimed.new.places.keys ≡ claimed.old.places.keys
        ++ asked ∷ []) }
{
    claimed.claims.push(Draft {
        moves: asked.moves,
        set: asked.set,
        reasons,
    })?;
    claimed.places.insert(asked)?;
    Ok(())
}

/// Puts the claim of a set behind the others, and gives its place. `Large` comes where the claims are too many with it.
fn push(
    setting: &Setting,
    table: &Table,
    claimed: &mut ClaimList,
    asked: Question,
    reasons: Vec<Reason>,
) -> Result<u16, SearchStop>
    requires within { asked.set < length table.now }
    requires claimed { IsClaimList setting.now.way.d table.now claimed.old }
    requires next { IsNext setting.now.way.d table.now claimed.old.places.keys
        (set_at table.now asked.set) asked.moves (map reason_of reasons.items) }
    ensures { IsPushed setting.now.way.d table.now (set_at table.now asked.set) asked.moves
        claimed.old claimed.new result }
{
    let members = size_of_set(setting.way.alloc, table, asked.set)?;
    let positions = claimed.positions.saturating_add(members);
    let count = claimed.reasons.saturating_add(reasons.len());
    if !are_few(claimed.claims.len() + 1, positions, count) {
        return Err(SearchStop::Large);
    }
    add(claimed, asked, reasons)?;
    claimed.positions = positions;
    claimed.reasons = count;
    Ok(claimed.claims.len() as u16)
}

/// The place of the claim that the set cannot be won within its number of moves, as it is stored. A claim that is not there yet is
/// put behind all that it cites.
#[cycle(claim)]
pub(crate) fn claim(
    setting: &Setting,
    table: &mut Table,
    claimed: &mut ClaimList,
    asked: Question,
) -> Result<u16, SearchStop>
    requires some { 0 < asked.moves }
    requires within { asked.set < length table.old }
    requires members { is_nil (set_at table.old asked.set) ≡ false }
    requires paid { IsPaidFor setting.now.way.d false table.old }
    requires noted { AreNotes setting.now.way.d false table.old setting.now.notes }
    requires lost { IsLost table.old (set_at table.old asked.set) asked.moves }
    requires claimed { IsClaimList setting.now.way.d table.old claimed.old }
    ensures { Claims setting.now.way.d result (set_at table.old asked.set) asked.moves
        table.old table.new claimed.old claimed.new }
{
    table.know_once();
    if let Some(index) = claimed.places.get_index_of(&asked) {
        return Ok(index as u16 + 1);
    }
    let reasons = reasons_of(setting, table, claimed, asked)?;
    push(setting, table, claimed, asked, reasons)
}

/// The reasons of all tries of the set, by claims that stand before its own. What blocks the tries is as the search has noted it,
/// or is found by one split more for each.
#[cycle(claim)]
fn reasons_of(
    setting: &Setting,
    table: &mut Table,
    claimed: &mut ClaimList,
    asked: Question,
) -> Result<Vec<Reason>, SearchStop>
    requires some { 0 < asked.moves }
    requires within { asked.set < length table.old }
    requires paid { IsPaidFor setting.now.way.d false table.old }
    requires noted { AreNotes setting.now.way.d false table.old setting.now.notes }
    requires lost { IsLost table.old (set_at table.old asked.set) asked.moves }
    requires claimed { IsClaimList setting.now.way.d table.old claimed.old }
    ensures { Reasons setting.now.way.d result (set_at table.old asked.set) asked.moves
        (theory.tries (chess setting.now.way.d) (set_at table.old asked.set)) table.old table.new
        claimed.old claimed.new }
{
    if let Some(row) = setting.notes.of(asked.set, asked.moves) {
        return reasons_for(setting, table, claimed, asked, row);
    }
    let row = row_of(setting.way, table, asked)?;
    reasons_for(setting, table, claimed, asked, row.as_slice())
}

/// The reasons of tries by what blocks each.
#[cycle(claim)]
fn reasons_for(
    setting: &Setting,
    table: &mut Table,
    claimed: &mut ClaimList,
    asked: Question,
    row: &[Note],
) -> Result<Vec<Reason>, SearchStop>
    requires some { 0 < asked.moves }
    requires within { asked.set < length table.old }
    requires paid { IsPaidFor setting.now.way.d false table.old }
    requires noted { AreNotes setting.now.way.d false table.old setting.now.notes }
    requires lost { IsLost table.old (set_at table.old asked.set) asked.moves }
    requires claimed { IsClaimList setting.now.way.d table.old claimed.old }
    requires row { IsRow setting.now.way.d false table.old asked row.now }
    ensures { Reasons setting.now.way.d result (set_at table.old asked.set) asked.moves
        (theory.tries (chess setting.now.way.d) (set_at table.old asked.set)) table.old table.new
        claimed.old claimed.new }
{
    let mut reasons = Vec::with_capacity(setting.way.alloc, row.len())?;
    for note in row {
        let why = why(setting, table, claimed, asked, note)?;
        reasons.push(Reason { mv: note.mv, why })?;
    }
    Ok(reasons)
}

/// Why the try does not begin to win the set, by what blocks it.
#[cycle(claim)]
fn why(
    setting: &Setting,
    table: &mut Table,
    claimed: &mut ClaimList,
    asked: Question,
    note: &Note,
) -> Result<Why, SearchStop>
    requires some { 0 < asked.moves }
    requires within { asked.set < length table.old }
    requires paid { IsPaidFor setting.now.way.d false table.old }
    requires noted { AreNotes setting.now.way.d false table.old setting.now.notes }
    requires lost { IsLost table.old (set_at table.old asked.set) asked.moves }
    requires claimed { IsClaimList setting.now.way.d table.old claimed.old }
    requires legal { legal_in_some (chess setting.now.way.d) (set_at table.old asked.set)
        note.now.mv ≡ true }
    requires blocked { IsBlock setting.now.way.d false table.old (set_at table.old asked.set)
        asked.moves note.now.mv note.now.block }
    ensures { Blocks setting.now.way.d result (set_at table.old asked.set) asked.moves note.now.mv
        table.old table.new claimed.old claimed.new }
{
    let moves = asked.moves;
    match note.block {
        Block::AtOnce => Ok(at_once(moves)),
        Block::Class(heard, set) => {
            let less = Question {
                set,
                moves: moves - 1,
            };
            let place = claim(setting, table, claimed, less)?;
            Ok(Why::Class(heard, place))
        }
        Block::Refused(set) => {
            let place = claim(setting, table, claimed, Question { set, moves })?;
            Ok(Why::Refused(place))
        }
    }
}
