ghost use Rattle.std.specs.Prelude.{◌≡◌, ◌+◌, true, IfSome, IfOk, OnOk, length};
ghost use Rattle.krieg_text.specs.Lines.{lines};
ghost use Rattle.krieg_text.specs.Formats.{IsReading};
ghost use Rattle.krieg_text.specs.Reading.{taken, whole, Gives, GivesOn, Passed};
ghost use Rattle.krieg_wordtext.specs.Line.{LineFits};
ghost use Rattle.krieg_sheet.specs.Places.{IsSheet};
ghost use Rattle.krieg_sheet.specs.SheetReading as spec;
ghost use Rattle.krieg_sheet.specs.SheetSpelling.{SpellsSheet, SheetGrammar};

use crate::sheet::Sheet;
use krieg_fen::{Turn, read_listing};
use krieg_text::{Cursor, LineSource, TextFault, TextKind, is_name};
use krieg_words::Dialect;
use krieg_wordtext::{Line, read_line_in, read_version_lines};
use std::alloc::Global;

/// The dialect, by the lines of the version.
#[tactic(auto, unfolding(crate::specs::SheetReading::sheet_version_at))]
fn read_sheet_version(from: &mut Cursor<'_>) -> Result<Dialect, TextFault>
    ensures value { GivesOn (λ d. d) result from.new (spec.sheet_version_at from.old) }
    ensures rest { Passed from.old from.new }
{
    read_version_lines(from, b"krieg sheet ")
}

/// `end`, or a line that may follow what was read.
#[tactic(auto, unfolding(crate::specs::SheetReading::next_form))]
fn next_form(sheet: &Sheet, text: &[u8]) -> Result<Option<Line>, TextKind>
    ensures value { result ≡ spec.next_form sheet.now text.now }
    ensures fits { IfOk result (λ o. IfSome o (λ l. LineFits sheet.now.dialect l)) }
    ensures may { IfOk result (λ o. IfSome o (λ l. spec.may_follow sheet.now l ≡ true)) }
{
    if is_name(b"end", text) {
        return Ok(None);
    }
    match read_line_in(sheet.dialect(), text) {
        Err(_) => Err(TextKind::Syntax),
        Ok(line) => {
            if sheet.may_follow(&line) {
                Ok(Some(line))
            } else {
                Err(TextKind::OutOfPlace)
            }
        }
    }
}

/// The next line, as `end` or a line that may follow what was read.
fn read_entry(from: &mut Cursor<'_>, sheet: &Sheet) -> Result<Option<Line>, TextFault>
    ensures value { GivesOn (λ o. o) result from.new
        (taken (spec.next_form sheet.now) from.old) }
    ensures fits { IfOk result (λ o. IfSome o (λ l. LineFits sheet.now.dialect l)) }
    ensures may { IfOk result (λ o. IfSome o (λ l. spec.may_follow sheet.now l ≡ true)) }
    ensures fewer { OnOk result (length from.new.left + 1 ≡ length from.old.left) }
{
    from.next(|line| next_form(sheet, line))
}

/// Reads lines into the sheet, up to `end`.
#[tactic(auto, using(crate::proofs::Entries::entries))]
fn read_entries(from: &mut Cursor<'_>, sheet: &mut Sheet) -> Result<(), TextFault>
    ensures { GivesOn (λ _. sheet.new) result from.new (spec.entries_at sheet.old from.old) }
{
    'entries: loop {
        match read_entry(from, sheet) {
            Err(fault) => return Err(fault),
            Ok(None) => return Ok(()),
            Ok(Some(entry)) => sheet.follow(entry)?,
        }
    }
}

#[tactic(auto, unfolding(crate::specs::SheetReading::sheet_at))]
fn read_lines(alloc: Global, text: &[u8]) -> Result<Sheet, TextFault>
    ensures { Gives (λ s. s) result (whole spec.sheet_at (lines text.now)) }
{
    let mut from = Cursor::new(text);
    let dialect = read_sheet_version(&mut from)?;
    let (side, list) = read_listing(alloc, &mut from, Turn::Either)?;
    let mut sheet = Sheet::listed(alloc, dialect, side, list, None);
    read_entries(&mut from, &mut sheet)?;
    from.end()?;
    Ok(sheet)
}

/// The sheet that the text spells, in version 1 or 2.
///
/// The fault is the first line that is not accepted, or, where all lines are and the text is not
/// complete, the number of lines plus 1 with `Syntax`. Its kinds are `Version`, `Syntax`, `Count`,
/// `Position`, `Differs` and `OutOfPlace`.
#[tactic(auto, using(crate::proofs::SheetGrammars::reading))]
pub fn read_sheet(alloc: Global, text: &[u8]) -> Result<Sheet, TextFault>
    ensures reading { IsReading (λ s. s) spec.sheet_at IsSheet SpellsSheet SheetGrammar
        (lines text.now) result }
    // What is read is a sheet: its positions have one hand, its words can be told, its entries are in place.
    ensures sheet { IfOk result (λ s. IsSheet s) }
{
    read_lines(alloc, text)
}
