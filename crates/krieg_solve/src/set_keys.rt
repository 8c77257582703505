ghost use Rattle.std.specs.Prelude.{◌≡◌, ◌↔◌, ℕ, ◌<◌, ◌++◌, ◌∷◌, [], true, OnOk, Some, not, length, map};
ghost use Rattle.krieg_words.specs.declared.dialects.Dialect.{Dialect};
ghost use Rattle.krieg_pack.specs.Order.{position_lt};
ghost use Rattle.krieg_theory.specs.Sets.{In, is_nil};
ghost use Rattle.krieg_theory.specs.Can.{begins};
ghost use Rattle.krieg_theory.specs.Split.{legal_in_some, refused};
ghost use Rattle.krieg_costs.specs.Sums.{total};
ghost use Rattle.krieg_accounts.specs.Stored.{stored};
ghost use Rattle.krieg_accounts.specs.Stretch.{CoversTries, CoversSets};
ghost use Rattle.krieg_game.specs.Chess.{chess};
ghost use Rattle.krieg_table.specs.SetRows.{set_at};
ghost use Rattle.krieg_table.specs.Entries.{entries};
ghost use Rattle.krieg_table.specs.Opened.{IsOpened};
ghost use Rattle.krieg_search.specs.Stretches.{IsAtWork, Searches};
ghost use Rattle.krieg_search.specs.WonSets.{WonBy};
ghost use Rattle.krieg_solve.specs.KeyTries.{key_try, key_tries};
ghost use Rattle.krieg_solve.specs.SetKeys.{AreSetKeys, LooksAt, later_price, least_pair};

use crate::build::win_of;
use crate::keys::KeyTry;
use krieg_board::{Move, NoMemory};
use krieg_moves::is_legal;
use krieg_pack::{Packed, unpack};
use krieg_search::{Search, SearchStop, Way};
use krieg_split::tries;
use krieg_table::{OpenSet, Table, Win};

/// The keys of the set with a number, with its least number of moves.
#[derive(Drop)]
pub(crate) struct SetKeys {
    pub set: u32,
    pub least: u8,
    pub tries: Vec<KeyTry>,
}

/// Whether some of the positions refuses the try.
fn some_refuses(members: &[Packed], mv: &Move) -> bool
    ensures { (d : Dialect) → result ≡ not (is_nil (refused (chess d) members.now mv.now)) }
{
    for member in members {
        if !is_legal(&unpack(member), *mv) {
            return true;
        }
    }
    false
}

/// Adds a key of the set with that number, which is open.
fn add_key(
    table: &Table,
    opened: &OpenSet,
    set: u32,
    mv: &Move,
    keys: &mut Vec<KeyTry>,
) -> Result<(), NoMemory>
    requires within { set < length table.now }
    requires opened { IsOpened opened.now (set_at table.now set) }
    ensures { OnOk result ((d : Dialect) → keys.new.items
        ≡ keys.old.items ++ key_try d (set_at table.now set) mv.now ∷ []) }
{
    let may_be_refused = some_refuses(opened.of(table, set).members(), mv);
    keys.push(KeyTry {
        mv: *mv,
        may_be_refused,
    })?;
    Ok(())
}

/// Whether the next try of the set with that number is a key, behind those that are found: before there is one that which is stored
/// alone, and behind that each that begins to win with as many moves.
fn is_key(
    search: &mut Search,
    way: Way,
    set: u32,
    win: &Win,
    mv: &Move,
    found: &Vec<KeyTry>,
) -> Result<bool, SearchStop>
    requires some { 0 < win.now.moves }
    requires within { set < length search.old.table }
    requires ready { IsAtWork way search.old }
    requires legal { legal_in_some (chess way.d) (set_at search.old.table set) mv.now ≡ true }
    requires first { found.now.items ≡ [] → (begins (chess way.d) win.now.moves
        (set_at search.old.table set) mv.now ≡ true) ↔ (mv.now ≡ win.now.mv) }
    ensures searched { LooksAt way set win.now.moves mv.now found.now.items result
        search.old search.new }
    ensures ready { OnOk result (IsAtWork way search.new) }
{
    if found.is_empty() {
        return Ok(*mv == win.mv);
    }
    search.begins(way, set, win.moves, *mv)
}

/// The keys of the set that is stored as won in this way: the try that is stored, which is the first, and of those behind it each that
/// begins to win with as many moves. None before it does, so none is split twice.
fn keys_of_set(search: &mut Search, way: Way, set: u32, win: Win) -> Result<Vec<KeyTry>, SearchStop>
    requires within { set < length search.old.table }
    requires ready { IsAtWork way search.old }
    requires some { 0 < win.moves }
    requires won { stored position_lt (entries search.old.table)
        (set_at search.old.table set, win.moves) ≡ Some (Some win.mv) }
    ensures searched { Searches way result
        (λ v. v.items ≡ key_tries way.d win.moves (set_at search.old.table set))
        (CoversTries (chess way.d) (set_at search.old.table set) win.moves)
        (later_price way.d (set_at search.old.table set, win.moves)) search.old search.new }
    ensures ready { OnOk result (IsAtWork way search.new) }
{
    let opened = search.table.open(way.alloc, set)?;
    let all = tries(way.alloc, opened.of(&search.table, set))?;
    let mut keys = Vec::new(way.alloc);
    for mv in &all {
        if is_key(search, way, set, &win, mv, &keys)? {
            add_key(&search.table, &opened, set, mv, &mut keys)?;
        }
    }
    Ok(keys)
}

/// The keys of each of the sets, which are stored as won within `moves`.
pub(crate) fn keys_of_sets(
    search: &mut Search,
    way: Way,
    sets: &[u32],
    moves: u8,
) -> Result<Vec<SetKeys>, SearchStop>
    requires ready { IsAtWork way search.old }
    requires within { (s : ℕ) → In s sets.now → s < length search.old.table }
    requires won { (s : ℕ) → In s sets.now
        → WonBy search.old.table (set_at search.old.table s) moves }
    ensures searched { Searches way result
        (λ v. AreSetKeys way.d moves search.old.table sets.now v.items)
        (CoversSets (chess way.d) (map (set_at search.old.table) sets.now) moves)
        (total (later_price way.d) (map (least_pair way.d moves search.old.table) sets.now))
        search.old search.new }
{
    let mut found = Vec::new(way.alloc);
    for number in sets {
        let set = *number;
        let win = win_of(&search.table, set, moves);
        let least = win.moves;
        let tries = keys_of_set(search, way, set, win)?;
        found.push(SetKeys { set, least, tries })?;
    }
    Ok(found)
}
