ghost use Rattle.std.specs.Prelude.{◌≡◌, ◌<◌, true};
ghost use Rattle.krieg_search.specs.LostParts.{HasLostPart};

use crate::way::Way;
use indexmap::IndexMap;
use krieg_board::{Position, Side};
use krieg_pack::{Belief, Packed, unpack};
use krieg_split::is_within;
use krieg_table::Table;
use std::alloc::Global;

/// Where the men of the side to move stand, kind by kind.
#[derive(Clone, Copy, PartialEq, Eq, Hash)]
struct OwnMen {
    pawns: u64,
    knights: u64,
    bishops: u64,
    rooks: u64,
    queens: u64,
    kings: u64,
}

/// The men of the side to move.
fn own_men(p: &Position) -> OwnMen {
    let sets = p.bits().sets();
    let own = match p.side() {
        Side::White => sets.white,
        Side::Black => sets.black,
    };
    OwnMen {
        pawns: sets.pawns & own,
        knights: sets.knights & own,
        bishops: sets.bishops & own,
        rooks: sets.rooks & own,
        queens: sets.queens & own,
        kings: sets.kings & own,
    }
}

/// The squares on which a man of the other side stands in some member.
fn hidden_squares(members: &[Packed]) -> u64 {
    let mut squares = 0;
    for member in members {
        let p = unpack(member);
        let sets = p.bits().sets();
        squares |= match p.side() {
            Side::White => sets.black,
            Side::Black => sets.white,
        };
    }
    squares
}

/// Whether the set with that number is found to be lost with so many moves, and to be a part of the other.
fn is_lost_part(alloc: Global, table: &Table, set: u32, b: &Belief, moves: u8) -> bool
    requires { 0 < moves }
    ensures { result ≡ true → HasLostPart table.now b.now moves }
{
    if table.len() <= set as usize {
        return false;
    }
    if table.lost(set) < moves {
        return false;
    }
    let Ok(opened) = table.open(alloc, set) else {
        return false;
    };
    let part = opened.of(table, set);
    if part.is_empty() {
        return false;
    }
    is_within(part, b)
}

/// Whether one of these sets is such a part. Behind each stand the squares of the other side's men, of which a part has no more.
fn one_is_lost_part(
    alloc: Global,
    table: &Table,
    sets: &IndexMap<u32, u64>,
    b: &Belief,
    moves: u8,
) -> bool
    requires { 0 < moves }
    ensures { result ≡ true → HasLostPart table.now b.now moves }
{
    let hidden = hidden_squares(b.members());
    for (set, squares) in sets.iter() {
        if squares & !hidden == 0 && is_lost_part(alloc, table, *set, b, moves) {
            return true;
        }
    }
    false
}

/// Sets that are known to be lost with some number of moves, by the men of the side to move. A set that has one of them within it is
/// lost too.
///
/// It only proposes: what it finds is looked at again. So its contracts ask nothing of what it holds.
#[derive(Drop)]
pub(crate) struct LostSets {
    by_men: IndexMap<OwnMen, IndexMap<u32, u64>>,
}

impl LostSets {
    /// It takes no memory.
    pub(crate) fn new(alloc: Global) -> LostSets {
        LostSets {
            by_men: IndexMap::new(alloc),
        }
    }

    /// Adds the set with that number, where tries may be cut and there is memory for it.
    #[inline(never)]
    pub(crate) fn add(&mut self, way: Way, set: u32, b: &Belief) {
        if !way.cut || b.is_empty() {
            return;
        }
        let Ok(entry) = self.by_men.entry(own_men(&b.get(0))) else {
            return;
        };
        let sets = entry.or_insert(IndexMap::new(way.alloc));
        match sets.insert(set, hidden_squares(b.members())) {
            Ok(_) => {}
            Err(_) => {}
        }
    }

    /// Whether a set that is known to be lost with so many moves is found within this one.
    #[inline(never)]
    pub(crate) fn has_part(&self, alloc: Global, table: &Table, b: &Belief, moves: u8) -> bool
        requires { 0 < moves }
        ensures { result ≡ true → HasLostPart table.now b.now moves }
    {
        if b.is_empty() {
            return false;
        }
        match self.by_men.get(&own_men(&b.get(0))) {
            Some(sets) => one_is_lost_part(alloc, table, sets, b, moves),
            None => false,
        }
    }
}
