ghost use Rattle.std.specs.Prelude.{◌≡◌, ℕ, IfSome, Some, slice_get};
ghost use Rattle.krieg_nets.specs.Nets.{Against, IsKept, IsNet, IsPut, against_by};
ghost use Rattle.krieg_nets.specs.declared.kept.Net.{Net};

use crate::others::Others;
use indexmap::IndexSet;
use std::alloc::Global;
use std::marker::Model;

/// So many rows are kept: some 20 MB, and 13 MB for each number of moves. Three men have fewer, however they stand.
const MOST_ROWS: usize = 400_000;

/// What is found for one number of moves: three sets of squares of the lone king. Of squares that are in none of them nothing is claimed.
#[derive(Clone, Copy)]
pub(crate) struct Net {
    /// With him there, and the others to move, they do not mate within so many moves.
    pub none: u64,
    /// With him there and to move, some move of his leaves them no mate within so many.
    pub fled: u64,
    /// With him there and to move, he is stalemated.
    pub stale: u64,
}

impl Net {
    /// Nothing is claimed.
    pub(crate) fn nothing() -> Net
        ensures { (men : Against) (moves : ℕ) → IsNet men moves result }
    {
        Net {
            none: 0,
            fled: 0,
            stale: 0,
        }
    }
}

/// What is asked: the men, and the number of moves.
#[derive(Clone, Copy)]
pub(crate) struct Asked {
    pub others: Others,
    pub moves: u8,
}

/// The nets that were found: a row for each way in which the men stand, and a level for each number of moves. So a look-up mostly reads a
/// hint, a row and a net, and no table by hashes.
///
/// In contracts it is the men of the rows.
#[derive(Drop)]
pub(crate) struct Kept {
    rows: IndexSet<Others>,
    /// For each number of moves the nets by rows, as far as they were needed.
    levels: Vec<Vec<Option<Net>>>,
    /// Where the rows of men may be, which are asked first: for each number that `hint_of` gives. Nothing is claimed of it.
    hints: Vec<u32>,
}

impl Model for Kept {
    ghost use Rattle.std.specs.Prelude.{List};
    ghost use Rattle.krieg_nets.specs.declared.others.Others.{Others};
    ghost use Rattle.krieg_nets.specs.Nets.{AreKept};

    ghost Value = { List Others };

    ghost view = { λ k. k.rows.keys };

    ghost invariant = { λ k. AreKept k.rows.keys k.levels.items };
}

/// There are so many hints: 128 KB.
const HINTS: usize = 32_768;

/// A number from a set of squares in which each square counts. The high ones are brought down first, since a product has them in few bits.
#[inline]
fn mixed(set: u64, factor: u64) -> u64 {
    (set ^ (set >> 32)).wrapping_mul(factor)
}

/// Which hint is that of the men: some number below 32,768, from all of their squares.
#[inline]
fn hint_of(others: &Others) -> usize {
    let ones = mixed(others.ones, 0x9E37_79B9_7F4A_7C15);
    let twos = mixed(others.twos, 0xC2B2_AE3D_27D4_EB4F);
    let fours = mixed(others.fours, 0x1656_67B1_9E37_79F9);
    ((ones ^ twos ^ fours) >> 49) as usize
}

/// Makes that row the hint of these men, where there is memory for hints.
fn set_hint(hints: &mut Vec<u32>, others: &Others, row: usize) {
    if hints.is_empty() && hints.resize(HINTS, 0).is_err() {
        return;
    }
    let Ok(row) = u32::try_from(row) else {
        return;
    };
    if let Some(hint) = hints.get_mut(hint_of(others)) {
        *hint = row;
    }
}

/// Makes the list so long that it has that row, where there is memory for it.
fn lengthen(level: &mut Vec<Option<Net>>, row: usize)
    ensures { (n : ℕ) (x : Net) → slice_get level.new.items n ≡ Some (Some x)
        → slice_get level.old.items n ≡ Some (Some x) }
{
    let Some(end) = row.checked_add(1) else {
        return;
    };
    if level.len() < end {
        match level.resize(end, None) {
            Ok(()) => {}
            Err(_) => {}
        }
    }
}

/// Puts the net in that row of a level, where there is memory for it.
fn put_in(level: &mut Vec<Option<Net>>, row: usize, net: &Net)
    ensures { IsPut level.old.items level.new.items row net.now }
{
    lengthen(level, row);
    if row < level.len() {
        level[row] = Some(*net);
    }
}

impl Kept {
    /// Nothing is known. It takes no memory.
    pub(crate) fn new(alloc: Global) -> Kept {
        Kept {
            rows: IndexSet::new(alloc),
            levels: Vec::new(alloc),
            hints: Vec::new(alloc),
        }
    }

    /// That row, where it is the one of these men.
    #[inline]
    fn row_if(&self, row: usize, others: &Others) -> Option<usize>
        ensures { IfSome result (λ n. slice_get self.now n ≡ Some others.now) }
    {
        if *self.rows.get_index(row)? == *others {
            return Some(row);
        }
        None
    }

    /// The row of these men by the hint, where it is that.
    #[inline]
    fn hinted(&self, others: &Others) -> Option<usize>
        ensures { IfSome result (λ n. slice_get self.now n ≡ Some others.now) }
    {
        self.row_if(*self.hints.get(hint_of(others))? as usize, others)
    }

    /// The row of these men, where the hint is not that.
    fn other_row(&mut self, others: &Others) -> Option<usize>
        ensures row { IfSome result (λ n. slice_get self.new n ≡ Some others.now) }
        ensures same { self.new ≡ self.old }
    {
        let (row, found) = self.rows.get_full(others)?;
        if *found != *others {
            return None;
        }
        set_hint(&mut self.hints, others, row);
        Some(row)
    }

    /// The row of these men, where there is one.
    #[inline]
    fn row(&mut self, others: &Others) -> Option<usize>
        ensures row { IfSome result (λ n. slice_get self.new n ≡ Some others.now) }
        ensures same { self.new ≡ self.old }
    {
        if let Some(row) = self.hinted(others) {
            return Some(row);
        }
        self.other_row(others)
    }

    /// The net in that row for so many moves, where there is one.
    #[inline]
    fn at(&self, row: usize, moves: u8) -> Option<Net>
        ensures { IfSome result (IsKept self.now moves row) }
    {
        *self.levels.get(moves as usize)?.get(row)?
    }

    /// The net that is kept, where there is one.
    #[inline]
    pub(crate) fn of(&mut self, asked: &Asked) -> Option<Net>
        ensures net { IfSome result (λ net.
            IsNet (against_by asked.now.others) asked.now.moves net) }
    {
        let row = self.row(&asked.others)?;
        self.at(row, asked.moves)
    }

    /// Whether there is a row for these men, or room for one.
    pub(crate) fn has_room(&mut self, others: &Others) -> bool
        ensures { self.new ≡ self.old }
    {
        self.rows.len() < MOST_ROWS || self.row(others).is_some()
    }

    /// Begins a row for these men, where there is room and memory for it.
    fn begin(&mut self, others: &Others) {
        if self.rows.len() < MOST_ROWS {
            match self.rows.insert(*others) {
                Ok(_) => {}
                Err(_) => {}
            }
        }
    }

    /// Begins the level of so many moves, where that of one move less is the last, and there is memory for it.
    fn begin_level(&mut self, moves: u8)
        ensures { self.new ≡ self.old }
    {
        if self.levels.len() == moves as usize {
            let alloc = *self.levels.allocator();
            match self.levels.push(Vec::new(alloc)) {
                Ok(()) => {}
                Err(_) => {}
            }
        }
    }

    /// Puts the net in that row for so many moves, where there is such a level, and memory for it.
    fn put(&mut self, row: usize, moves: u8, net: &Net)
        requires { IsKept self.old moves row net.now }
    {
        if let Some(level) = self.levels.get_mut(moves as usize) {
            put_in(level, row, net);
        }
    }

    /// Keeps the net, where there is room and memory for it, and some net of one move less was kept.
    pub(crate) fn keep(&mut self, asked: &Asked, net: &Net)
        requires { IsNet (against_by asked.now.others) asked.now.moves net.now }
    {
        if self.row(&asked.others).is_none() {
            self.begin(&asked.others);
        }
        if let Some(row) = self.row(&asked.others) {
            self.begin_level(asked.moves);
            self.put(row, asked.moves, net);
        }
    }
}
