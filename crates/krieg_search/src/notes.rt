ghost use Rattle.std.specs.Prelude.{◌≡◌, ◌+◌, ◌≤◌, ◌++◌, ◌∷◌, [], Bool, IfOk, OnOk, IfSome, option_map};
ghost use Rattle.krieg_words.specs.declared.dialects.Dialect.{Dialect};
ghost use Rattle.krieg_table.specs.SetRows.{SetRows};
ghost use Rattle.krieg_search.specs.Notes.{AreNotes, IsRow, row_of, items_of};

use indexmap::IndexMap;
use krieg_board::{Move, NoMemory};
use krieg_split::PackedKey;
use std::alloc::Global;
use std::marker::Model;

/// What blocks a try of a set: why it begins no win within a number of moves.
#[derive(Clone, Copy)]
pub enum Block {
    /// Nothing that is left to be won: the try fails at once, since it stalemates in some member or, with one move left,
    /// lives in some.
    AtOnce,
    /// The class of these words, whose set has the number, cannot be won with one move less.
    Class(PackedKey, u32),
    /// The members that refuse it, whose set has the number, cannot be won with the same number of moves.
    Refused(u32),
}

/// A try of a set with what blocks it. 16 bytes in memory.
#[derive(Clone, Copy)]
pub struct Note {
    pub mv: Move,
    pub block: Block,
}

// A search may keep thousands of them.
const _: () = prove!(size_of::<Note>() <= 16);

/// A set by its number, with a number of own moves.
#[derive(Clone, Copy, PartialEq, Eq, Hash)]
pub struct Question {
    pub set: u32,
    pub moves: u8,
}

/// Notes on sets that cannot be won, as far as there was room for them.
///
/// In contracts they are a list of rows, what was asked with its notes, one for each try; how many notes may be kept; and how
/// many of these may be added yet.
#[derive(Drop)]
pub struct Notes {
    rows: IndexMap<Question, Vec<Note>>,
    /// How many notes may be kept.
    most: usize,
    /// How many may be added yet.
    left: usize,
}

impl Model for Notes {
    ghost use Rattle.krieg_search.specs.Notes.{NoteState};

    ghost Value = { NoteState };

    ghost view = { λ n. record { rows = n.rows.entries; most = n.most; left = n.left } };
}

/// The notes on one set, while its tries are tried: nothing where they are not to be kept.
pub(crate) type Row = Option<Vec<Note>>;

/// Adds what blocks the next try to a row that is kept.
#[inline(never)]
fn push(notes: &mut Vec<Note>, mv: Move, block: Block) -> Result<(), NoMemory>
    ensures { OnOk result (notes.new.items ≡ notes.old.items ++ record { mv = mv; block = block }
        ∷ []) }
{
    notes.push(Note { mv, block })?;
    Ok(())
}

/// Adds what blocks the next try.
pub(crate) fn add(row: &mut Row, mv: Move, block: Block) -> Result<(), NoMemory>
    ensures { OnOk result (items_of row.new
        ≡ option_map (λ ns. ns ++ record { mv = mv; block = block } ∷ []) (items_of row.old)) }
{
    match row {
        Some(notes) => push(notes, mv, block),
        None => Ok(()),
    }
}

impl Notes {
    /// Nothing is noted, and at most so many notes will be kept. It takes no memory.
    pub fn new(alloc: Global, most: usize) -> Notes
        ensures { result ≡ record { rows = []; most = most; left = most } }
    {
        Notes {
            rows: IndexMap::new(alloc),
            most,
            left: most,
        }
    }

    /// What is noted of the tries of the set with so many moves: each try that makes sense in it, in order, or nothing where
    /// it was not noted.
    pub fn of(&self, set: u32, moves: u8) -> Option<&[Note]>
        ensures value { option_map (λ ns. ns.now) result
            ≡ row_of self.now.rows (record { set = set; moves = moves }) }
        ensures right { (d : Dialect) (cut : Bool) (T : SetRows) → AreNotes d cut T self.now
            → IfSome result (λ ns. IsRow d cut T (record { set = set; moves = moves }) ns.now) }
    {
        match self.rows.get(&Question { set, moves }) {
            Some(row) => Some(row.as_slice()),
            None => None,
        }
    }

    /// How many notes may be added yet behind those on so many tries of a set with so many moves, if there is room for these.
    /// Sets with more moves are fewer and larger, so part of the room is left to them: a quarter by those with two, an eighth
    /// by those with three, and so on.
    fn left_behind(&self, moves: u8, tries: usize) -> Option<usize>
        ensures { IfSome result (λ left. left + tries ≡ self.now.left) }
    {
        let left = self.left.checked_sub(tries)?;
        if left < self.most.checked_shr(u32::from(moves)).unwrap_or(0) {
            return None;
        }
        Some(left)
    }

    /// A row for the notes on so many tries of a set with so many moves, where there is room for it. None is kept where one
    /// move is left.
    #[inline(never)]
    pub(crate) fn row(&self, alloc: Global, moves: u8, tries: usize) -> Result<Row, NoMemory>
        ensures { IfOk result (λ row. IfSome (items_of row) (λ ns. ns ≡ [])) }
    {
        if moves <= 1 || self.left_behind(moves, tries).is_none() {
            return Ok(None);
        }
        Ok(Some(Vec::with_capacity(alloc, tries)?))
    }

    /// Keeps the row of the set with so many moves, where there is still room for it.
    #[inline(never)]
    pub(crate) fn keep(&mut self, set: u32, moves: u8, row: Row) -> Result<(), NoMemory>
        ensures noted { (d : Dialect) (cut : Bool) (T : SetRows) → AreNotes d cut T self.old
            → IfSome (items_of row) (IsRow d cut T (record { set = set; moves = moves }))
            → OnOk result (AreNotes d cut T self.new) }
        ensures most { self.new.most ≡ self.old.most }
    {
        let Some(notes) = row else {
            return Ok(());
        };
        let Some(left) = self.left_behind(moves, notes.len()) else {
            return Ok(());
        };
        self.left = left;
        self.rows.insert(Question { set, moves }, notes)?;
        Ok(())
    }
}
