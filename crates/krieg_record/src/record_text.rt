ghost use Rattle.std.specs.Prelude.{◌≡◌, ◌<◌, ◌∷◌, [], IsTrue, Ok};
ghost use Rattle.krieg_text.specs.Lines.{lines};
ghost use Rattle.krieg_text.specs.Reading.{whole};
ghost use Rattle.krieg_text.specs.Writing.{PutsText, PutsLines, Appends};
ghost use Rattle.krieg_moves.specs.Legal.{is_legal};
ghost use Rattle.krieg_record.specs.Records.{state_of, AreLegal};
ghost use Rattle.krieg_record.specs.RecordReading.{record_at};
ghost use Rattle.krieg_record.specs.RecordSpelling.{SpellsRecord};
ghost use Rattle.krieg_record.specs.RecordText as spec;

use crate::record::Record;
use crate::san::put_san;
use krieg_board::{Move, NoMemory, Position, know_valid};
use krieg_fen::{put_position, side_mark};
use krieg_moves::after;
use krieg_text::Text;

fn put_move_line(p: &Position, mv: Move, text: &mut Text) -> Result<(), NoMemory>
    requires { IsTrue (is_legal p.now mv) }
    ensures { PutsLines result text.old text.new (spec.move_line p.now mv ∷ []) }
{
    text.put(side_mark(p.side()))?;
    put_san(p, mv, text)?;
    text.end_line()
}

/// Adds a line for each move.
fn put_moves(start: &Position, moves: &[Move], text: &mut Text) -> Result<(), NoMemory>
    requires { AreLegal start.now moves.now }
    ensures { PutsLines result text.old text.new (spec.move_lines start.now moves.now) }
{
    let mut p = *start;
    for mv in moves {
        put_move_line(&p, *mv, text)?;
        p = after(&p, *mv);
    }
    Ok(())
}

#[tactic(auto, using(krieg_text::proofs::Writings::writings))]
fn put_record(r: &Record, text: &mut Text) -> Result<(), NoMemory>
    requires { AreLegal r.now.start r.now.moves.items }
    ensures { PutsLines result text.old text.new (spec.record_lines (state_of r.now)) }
{
    text.line(b"krieg record 1")?;
    text.put(b"start ")?;
    put_position(&r.start, text)?;
    text.end_line()?;
    put_moves(&r.start, &r.moves, text)?;
    text.line(b"end")
}

/// Tells a proof that the text of the record spells it, and is read as it again.
#[tactic(auto, using(crate::proofs::RecordTexts::writes))]
fn know_text(r: &Record)
    requires { AreLegal r.now.start r.now.moves.items }
    ensures spelled { SpellsRecord (state_of r.now) (lines (spec.record_text (state_of r.now))) }
    ensures again { whole record_at (lines (spec.record_text (state_of r.now)))
        ≡ Ok (state_of r.now) }
{
    know_valid(&r.start);
}

/// Appends the text of the record in its one written form. Where memory runs out, nothing is appended.
#[tactic(auto, unfolding(crate::specs::RecordText::record_text))]
pub fn write_record(r: &Record, text: &mut Vec<u8>) -> Result<(), NoMemory>
    requires { AreLegal r.now.start r.now.moves.items }
    ensures value { Appends result text.old.items text.new.items
        (spec.record_text (state_of r.now)) }
    // The text spells the record, and is read as it again.
    ensures spelled { SpellsRecord (state_of r.now) (lines (spec.record_text (state_of r.now))) }
    ensures again { whole record_at (lines (spec.record_text (state_of r.now)))
        ≡ Ok (state_of r.now) }
{
    know_text(r);
    let mut all = Text::after(text);
    let done = put_record(r, &mut all);
    all.end(done, text)
}
