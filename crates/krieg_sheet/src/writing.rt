ghost use Rattle.std.specs.Prelude.{◌≡◌, ◌≤◌, ◌∷◌, [], ℕ, Ok, map, length};
ghost use Rattle.krieg_board.specs.declared.men.Side.{Side as BoardSide};
ghost use Rattle.krieg_text.specs.Lines.{lines};
ghost use Rattle.krieg_text.specs.Reading.{whole};
ghost use Rattle.krieg_text.specs.Writing.{PutsLines, alone, Appends};
ghost use Rattle.krieg_wordtext.specs.Line.{LineFits};
ghost use Rattle.krieg_sheet.specs.Places.{OpeningFits, IsSheet};
ghost use Rattle.krieg_sheet.specs.SheetReading.{sheet_at};
ghost use Rattle.krieg_sheet.specs.SheetSpelling.{SpellsSheet};
ghost use Rattle.krieg_sheet.specs.SheetText as spec;

use crate::sheet::Sheet;
use krieg_board::{NoMemory, Side};
use krieg_fen::{put_list, put_list_head};
use krieg_text::Text;
use krieg_words::{Dialect, Words};
use krieg_wordtext::{Line, put_line_in, put_version_lines, version_line_count};

/// Adds the lines of a sheet that stand before `n` positions: the version and the dialect, the side, and
/// the number of positions. After them `put_listed` adds each position, and `put_end` the last line.
#[tactic(auto, using(krieg_text::proofs::Writings::writings))]
pub fn put_head(d: Dialect, side: Side, n: usize, text: &mut Text) -> Result<(), NoMemory>
    ensures { PutsLines result text.old text.new (spec.head_lines d side n) }
{
    put_version_lines(b"krieg sheet ", d, text)?;
    put_list_head(side, n, text)
}

/// The number of the line of a written sheet that says how many positions are listed.
pub fn list_line(d: Dialect) -> usize
    ensures value { (who : BoardSide) (n : ℕ) → result ≡ length (spec.head_lines d who n) }
    ensures small { result ≤ 4 }
{
    version_line_count(d) + 2
}

/// Adds the line of an entry, or of opening words.
pub fn put_entry(d: Dialect, line: Line, text: &mut Text) -> Result<(), NoMemory>
    requires { LineFits d line }
    ensures { PutsLines result text.old text.new (spec.entry_line d line ∷ []) }
{
    put_line_in(d, line, text)?;
    text.end_line()
}

/// Adds the last line.
pub fn put_end(text: &mut Text) -> Result<(), NoMemory>
    ensures { PutsLines result text.old text.new (spec.end_line ∷ []) }
{
    text.line(b"end")
}

/// Adds the line of the opening words, where there are any.
fn put_opens(d: Dialect, opens: &Option<Words>, text: &mut Text) -> Result<(), NoMemory>
    requires { OpeningFits d opens.now }
    ensures { PutsLines result text.old text.new (map alone (spec.opens_lines d opens.now)) }
{
    match opens {
        None => Ok(()),
        Some(w) => put_entry(d, Line::Opens(*w), text),
    }
}

/// Adds the lines of the sheet.
#[tactic(auto, using(krieg_text::proofs::Writings::writings))]
pub fn put_sheet(s: &Sheet, text: &mut Text) -> Result<(), NoMemory>
    ensures value { PutsLines result text.old text.new (spec.sheet_lines s.now) }
    ensures sheet { IsSheet s.now }
{
    let d = s.dialect();
    let list = s.list();
    let entries = s.entries();
    put_head(d, s.side(), list.len(), text)?;
    put_list(list, text)?;
    put_opens(d, &s.opens(), text)?;
    for line in entries {
        put_entry(d, *line, text)?;
    }
    put_end(text)
}

/// Appends the text of the sheet in its one written form: version 1 where the dialect is wild16, and
/// otherwise version 2. Where memory runs out, nothing is appended.
#[tactic(auto, using(crate::proofs::SheetsAgain::again), unfolding(crate::specs::SheetText::sheet_text))]
pub fn write_sheet(s: &Sheet, text: &mut Vec<u8>) -> Result<(), NoMemory>
    ensures value { Appends result text.old.items text.new.items (spec.sheet_text s.now) }
    // The text spells the sheet, and is read as it again.
    ensures spelled { SpellsSheet s.now (lines (spec.sheet_text s.now)) }
    ensures again { whole sheet_at (lines (spec.sheet_text s.now)) ≡ Ok s.now }
    ensures sheet { IsSheet s.now }
{
    let mut all = Text::after(text);
    let done = put_sheet(s, &mut all);
    all.end(done, text)
}
