ghost use Rattle.std.specs.Prelude.{◌≡◌, ◌↔◌, ◌≢◌, ℕ, IfOk, OnOk, OnErr, Err, true, false, None};
ghost use Rattle.std.specs.List.{All};
ghost use Rattle.krieg_board.specs.Validity.{IsValid};
ghost use Rattle.krieg_words.specs.ToldWords.{Fits};
ghost use Rattle.krieg_wordtext.specs.Line.{LineFits};
ghost use Rattle.krieg_sheet.specs.Sheets.{new_sheet, entered};
ghost use Rattle.krieg_sheet.specs.Turns as turns;
ghost use Rattle.krieg_sheet.specs.Lists as lists;
ghost use Rattle.krieg_sheet.specs.Places as spec;
ghost use Rattle.krieg_sheet.specs.SheetReading as reading;
ghost use Rattle.krieg_sheet.specs.Places.{IsSheet, OpeningFits};

use crate::list::list_fault;
use crate::turns::{ends, first_turn, may_stand, over_after, over_at_first, turn_after};
use krieg_board::{Position, Side};
use krieg_words::{Dialect, Words, know_words};
use krieg_wordtext::{Line, know_line};
use std::alloc::{AllocFailed, Global};
use std::marker::Model;
use thiserror::Error;

/// Why a sheet or an entry is refused.
#[derive(Clone, Copy, Debug, PartialEq, Eq, Error)]
pub enum SheetFault {
    /// There is no position, or there are more than 200,000.
    #[error("no position, or more than 200,000")]
    Count,
    /// The position with this number, from 0, is the first whose hand differs from that of the first one.
    #[error("position {0} has another hand than the first")]
    Differs(usize),
    /// The line may not stand after the last entry.
    #[error("a line that may not stand after the last entry")]
    OutOfPlace,
    /// Memory was not found.
    #[error("memory was not found")]
    NoMemory,
}

fn know_opening(opens: &Option<Words>)
    ensures { spec.IsOpening opens.now }
{
    if let Some(w) = opens {
        know_words(w);
    }
}

/// One player's sheet: his side, one to 200,000 positions that all have the same hand of that side, the
/// umpire's dialect, the opening words where he heard them, and the lines that he heard then. Each entry
/// is in place, and the words fit the dialect.
///
/// In contracts it is a `SheetState`, and each call that reads one says that it `IsSheet`.
#[derive(Drop)]
pub struct Sheet {
    dialect: Dialect,
    side: Side,
    list: Vec<Position>,
    opens: Option<Words>,
    entries: Vec<Line>,
    turn: Side,
    over: bool,
}

impl Model for Sheet {
    ghost use Rattle.krieg_sheet.specs.Sheets.{SheetState};
    ghost use Rattle.krieg_sheet.specs.Places.{IsKept};

    ghost Value = { SheetState };

    ghost view = { λ s. record { dialect = s.dialect; side = s.side; list = s.list.items; opens = s.opens; entries = s.entries.items } };

    ghost invariant = { λ s. IsKept (record { dialect = s.dialect; side = s.side; list = s.list.items; opens = s.opens; entries = s.entries.items }) s.turn s.over };
}

impl Sheet {
    /// A sheet without entries.
    ///
    /// `Count` exactly where the list has no or more than 200,000 positions, and otherwise `Differs(i)`
    /// exactly where position i, from 0, is the first whose hand differs from that of the first one.
    pub fn begin(
        alloc: Global,
        dialect: Dialect,
        side: Side,
        list: Vec<Position>,
        opens: Option<Words>,
    ) -> Result<Sheet, SheetFault>
        requires { OpeningFits dialect opens }
        ensures value { result ≡ spec.begun dialect side list.items opens }
        ensures new_sheet { IfOk result (λ s. s ≡ new_sheet dialect side list.items opens) }
        ensures sheet { IfOk result (λ s. IsSheet s) }
    {
        match list_fault(&list, side) {
            Some(fault) => Err(fault),
            None => Ok(Sheet::listed(alloc, dialect, side, list, opens)),
        }
    }

    /// A sheet without entries over a list without a fault.
    pub(crate) fn listed(
        alloc: Global,
        dialect: Dialect,
        side: Side,
        list: Vec<Position>,
        opens: Option<Words>,
    ) -> Sheet
        requires listed { lists.list_fault side list.items ≡ None }
        requires valid { All IsValid list.items }
        requires fits { OpeningFits dialect opens }
        ensures value { result ≡ new_sheet dialect side list.items opens }
        ensures sheet { IsSheet result }
    {
        know_opening(&opens);
        let turn = first_turn(&list);
        let over = over_at_first(&opens);
        Sheet {
            dialect,
            side,
            list,
            opens,
            entries: Vec::new(alloc),
            turn,
            over,
        }
    }

    /// The side of the player.
    pub fn side(&self) -> Side
        ensures value { result ≡ self.now.side }
        ensures sheet { IsSheet self.now }
    {
        self.side
    }

    /// The umpire's dialect.
    pub fn dialect(&self) -> Dialect
        ensures value { result ≡ self.now.dialect }
        ensures sheet { IsSheet self.now }
    {
        self.dialect
    }

    /// The listed positions: the game began in one of them.
    pub fn list(&self) -> &[Position]
        ensures value { result.now ≡ self.now.list }
        ensures sheet { IsSheet self.now }
    {
        &self.list
    }

    /// The opening words, where the player heard them.
    pub fn opens(&self) -> Option<Words>
        ensures value { result ≡ self.now.opens }
        ensures sheet { IsSheet self.now }
    {
        self.opens
    }

    /// The lines that the player heard, without the opening words.
    pub fn entries(&self) -> &[Line]
        ensures value { result.now ≡ self.now.entries }
        ensures sheet { IsSheet self.now }
    {
        &self.entries
    }

    /// Whether it is the player's turn after the last entry.
    pub fn my_turn(&self) -> bool
        ensures value { result ≡ turns.is_my_turn self.now }
        ensures sheet { IsSheet self.now }
    {
        self.turn == self.side
    }

    /// Whether the game is over after the last entry.
    pub fn is_over(&self) -> bool
        ensures value { result ≡ turns.is_over self.now }
        ensures sheet { IsSheet self.now }
    {
        self.over
    }

    /// Whether the line may be the next entry.
    pub(crate) fn is_in_place(&self, line: &Line) -> bool
        ensures { result ≡ turns.is_in_place self.now line.now }
    {
        may_stand(self.my_turn(), self.is_over(), line)
    }

    /// Adds an entry that is in place. Where memory is not found, the sheet is as before.
    pub(crate) fn enter(&mut self, line: Line) -> Result<(), AllocFailed<Line>>
        requires fits { LineFits self.old.dialect line }
        requires in_place { turns.is_in_place self.old line ≡ true }
        ensures ok { OnOk result (self.new ≡ entered self.old line) }
        ensures err { OnErr result (self.new ≡ self.old) }
    {
        know_line(&line);
        let turn = turn_after(self.turn, &line);
        let over = over_after(self.over, &line);
        self.entries.push(line)?;
        self.turn = turn;
        self.over = over;
        Ok(())
    }

    /// Whether opening words may come: right after the list, once.
    fn may_open(&self) -> bool
        ensures { result ≡ reading.may_open self.now }
    {
        self.opens.is_none() && self.entries.is_empty()
    }

    /// Whether the line of a text may stand after those that were read.
    pub(crate) fn may_follow(&self, line: &Line) -> bool
        ensures { result ≡ reading.may_follow self.now line.now }
    {
        match line {
            Line::Opens(_) => self.may_open(),
            _ => self.is_in_place(line),
        }
    }

    /// Takes the opening words, right after the list.
    fn open(&mut self, w: Words)
        requires fits { Fits self.old.dialect w }
        requires may { reading.may_open self.old ≡ true }
        ensures { self.new ≡ reading.with_opening self.old w }
    {
        know_words(&w);
        let over = ends(&w);
        self.opens = Some(w);
        self.over = over;
    }

    /// Takes a line of a text that may stand there. Where memory is not found, the sheet is as before.
    pub(crate) fn follow(&mut self, line: Line) -> Result<(), AllocFailed<Line>>
        requires fits { LineFits self.old.dialect line }
        requires may { reading.may_follow self.old line ≡ true }
        ensures ok { OnOk result (self.new ≡ reading.followed_by self.old line) }
        ensures err { OnErr result (self.new ≡ self.old) }
    {
        if let Line::Opens(w) = line {
            self.open(w);
            return Ok(());
        }
        self.enter(line)
    }

    /// Adds an entry. `OutOfPlace` exactly where the line is not in place. After a refusal the sheet is
    /// as before.
    pub fn push(&mut self, line: Line) -> Result<(), SheetFault>
        requires { LineFits self.old.dialect line }
        ensures ok { OnOk result (self.new ≡ entered self.old line) }
        ensures out { result ≡ Err SheetFault.OutOfPlace
            ↔ (turns.is_in_place self.old line ≡ false) }
        ensures others { (result ≢ Err SheetFault.Count)
            × ((i : ℕ) → result ≢ Err (SheetFault.Differs i)) }
        ensures err { OnErr result (self.new ≡ self.old) }
    {
        if !self.is_in_place(&line) {
            return Err(SheetFault::OutOfPlace);
        }
        match self.enter(line) {
            Ok(()) => Ok(()),
            Err(_) => Err(SheetFault::NoMemory),
        }
    }
}
