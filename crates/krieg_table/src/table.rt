ghost use Rattle.std.specs.Prelude.{◌≡◌, ◌<◌, ◌≤◌, ℕ, [], length, None, Some, IfOk, IfSome, OnOk, OnErr, is_some, option_map};
ghost use Rattle.krieg_board.specs.declared.men.Move.{Move as Try};
ghost use Rattle.krieg_theory.specs.Sets.{In};
ghost use Rattle.krieg_pack.specs.Kept.{is_listed};
ghost use Rattle.krieg_pack.specs.Order.{position_lt};
ghost use Rattle.krieg_costs.specs.Sums.{IsOnce};
ghost use Rattle.krieg_accounts.specs.Stored.{stored, pairs};
ghost use Rattle.krieg_table.specs.SetRows.{sets, set_at, known_at, number_of, interned, with_result};
ghost use Rattle.krieg_table.specs.Entries.{try_of, entries};
ghost use Rattle.krieg_table.specs.Opened.{IsOpened};
ghost use Rattle.krieg_table.specs.Table.{IsInterned, IsNext, IsNoted};

use crate::open_set::OpenSet;
use crate::results::Results;
use crate::set_result::{SetResult, Win};
use indexmap::IndexMap;
use krieg_board::NoMemory;
use krieg_pack::{Belief, KeptSet};
use std::alloc::Global;
use std::marker::Model;

/// A table with so many sets is full.
pub const MOST_SETS: usize = 100_000_000;

/// Sets of positions by number, and what is known of each for numbers of own moves from 1 on.
///
/// Sets are numbered from 0 in the order in which they first came, and each has one number. In contracts a `Table` is
/// the list of its rows: each a set with what is known of it. `entries` has the same results by sets.
#[derive(Drop)]
pub struct Table {
    rows: IndexMap<KeptSet, Results>,
}

impl Model for Table {
    ghost use Rattle.krieg_table.specs.SetRows.{SetRows};
    ghost use Rattle.krieg_table.specs.Table.{IsTable};

    ghost Value = { SetRows };

    ghost view = { λ t. t.rows.entries };

    ghost invariant = { λ t. IsTable t.rows.entries };
}

impl Table {
    /// An empty table. It takes no memory.
    pub fn new(alloc: Global) -> Table
        ensures { result ≡ [] }
    {
        Table {
            rows: IndexMap::new(alloc),
        }
    }

    /// How many sets there are.
    pub fn len(&self) -> usize
        ensures { result ≡ length self.now }
    {
        self.rows.len()
    }

    /// Tells a proof that no set has two numbers, and that no two results are of the same set with the same number of moves.
    pub fn know_once(&self)
        ensures sets { IsOnce (sets self.now) }
        ensures results { IsOnce (pairs (entries self.now)) }
    {
        let _rows = self.rows.len();
    }

    /// The number of the set, from 0 in the order of the first calls. A set that is there keeps its number and what is
    /// known of it, and the new copy is dropped.
    ///
    /// `NoMemory` comes for a new set alone, and leaves the table as it was.
    pub fn intern(&mut self, b: Belief) -> Result<u32, NoMemory>
        requires { length self.old < MOST_SETS }
        ensures number { IfOk result (λ id. id ≡ number_of b self.old) }
        ensures rows { OnOk result (self.new ≡ interned b self.old) }
        ensures ok { IfOk result (λ id. IsInterned self.old self.new b id) }
        ensures err { OnErr result (self.new ≡ self.old) }
        ensures new_alone { OnErr result (In b (sets self.old) → ⊥) }
    {
        let row = self.rows.entry(KeptSet::of(b))?;
        let id = row.index();
        row.or_insert(Results::none());
        Ok(id as u32)
    }

    /// The set with that number, opened, so that it can be looked at.
    pub fn open(&self, alloc: Global, id: u32) -> Result<OpenSet, NoMemory>
        requires { id < length self.now }
        ensures { IfOk result (λ o. IsOpened o (set_at self.now id)) }
    {
        match self.rows.get_index(id as usize) {
            Some((kept, _)) => Ok(OpenSet {
                made: kept.made(alloc)?,
            }),
            None => unreachable!(),
        }
    }

    /// The set with that number, where it is kept as a list.
    pub(crate) fn listed(&self, id: u32) -> Option<&Belief>
        requires { id < length self.now }
        ensures value { IfSome result (λ b. b.now ≡ set_at self.now id) }
        ensures there { is_some result ≡ is_listed (set_at self.now id) }
    {
        match self.rows.get_index(id as usize) {
            Some((kept, _)) => kept.listed(),
            None => unreachable!(),
        }
    }

    /// What was noted of the set with that number and the number of own moves.
    pub fn result(&self, id: u32, moves: u8) -> Option<SetResult>
        requires { id < length self.now }
        ensures value { result ≡ known_at self.now id moves }
        ensures by_sets { option_map try_of result
            ≡ stored position_lt (entries self.now) (set_at self.now id, moves) }
    {
        self.rows[id as usize].get(moves)
    }

    /// The greatest number of own moves with which the set with that number was noted to be lost, and it is lost with each smaller one;
    /// 0 where none was.
    pub fn lost(&self, id: u32) -> u8
        requires { id < length self.now }
        ensures all { (i : ℕ) → 0 < i → i ≤ result
            → stored position_lt (entries self.now) (set_at self.now id, i) ≡ Some None }
        ensures only { (i : ℕ) → stored position_lt (entries self.now) (set_at self.now id, i)
            ≡ Some None → i ≤ result }
    {
        self.rows[id as usize].lost()
    }

    /// With how many own moves the set with that number is won, and by which try, where that was noted.
    pub fn win(&self, id: u32) -> Option<Win>
        requires { id < length self.now }
        ensures stored { IfSome result (λ w. stored position_lt (entries self.now)
            (set_at self.now id, w.moves) ≡ Some (Some w.mv)) }
        ensures only { (i : ℕ) (m : Try) → stored position_lt (entries self.now)
            (set_at self.now id, i) ≡ Some (Some m) → result ≡ Some (record { moves = i; mv = m }) }
    {
        self.rows[id as usize].win()
    }

    /// Notes what is known of the set with that number and the number of own moves, where it is known to be lost with each smaller
    /// one, and nothing else is known. All other results stay. It takes no memory.
    pub fn note(&mut self, id: u32, moves: u8, known: SetResult)
        requires within { id < length self.old }
        requires next { IsNext self.old id moves }
        ensures rows { self.new ≡ with_result self.old id moves known }
        ensures noted { IsNoted self.old self.new id moves known }
    {
        self.rows[id as usize].put(moves, known);
    }

    /// The sets, by their numbers. All else is let go.
    pub fn into_sets(self, alloc: Global) -> Result<Vec<Belief>, NoMemory>
        ensures { IfOk result (λ v. v.items ≡ sets self) }
    {
        let mut sets = Vec::with_capacity(alloc, self.rows.len())?;
        for kept in self.rows.into_keys() {
            sets.push(kept.open(alloc)?)?;
        }
        Ok(sets)
    }
}
