ghost use Rattle.std.specs.Prelude.{◌≡◌, ◌+◌, ◌<◌, ◌∷◌, ◌++◌, [], IfOk, OnOk, IsTrue, Some, length};
ghost use Rattle.krieg_text.specs.Formats.{Always, IsReading};
ghost use Rattle.krieg_text.specs.Lines.{lines};
ghost use Rattle.krieg_text.specs.Reading.{taken, whole, Gives, GivesOn, Passed};
ghost use Rattle.krieg_moves.specs.After as change;
ghost use Rattle.krieg_moves.specs.Legal.{is_legal};
ghost use Rattle.krieg_record.specs.Records.{state_of, IsRecord};
ghost use Rattle.krieg_record.specs.RecordReading as spec;
ghost use Rattle.krieg_record.specs.RecordSpelling.{SpellsRecord, RecordGrammar};
ghost use Rattle.krieg_fen.specs.Forms as forms;

use crate::record::Record;
use crate::san_reading::{SanFault, read_san};
use krieg_board::{Move, NoMemory, Position, Side};
use krieg_fen::start_form;
use krieg_moves::after;
use krieg_text::{Cursor, LineSource, TextFault, TextKind, behind, is_name, read_version};
use std::alloc::Global;

/// A line after the start.
enum RecordLine {
    /// One move.
    Played(Move),
    /// The last line.
    End,
}

#[tactic(auto, unfolding(crate::specs::RecordReading::record_version))]
fn read_record_version(from: &mut Cursor<'_>) -> Result<u64, TextFault>
    ensures value { GivesOn (λ n. n) result from.new (taken spec.record_version from.old) }
    ensures rest { Passed from.old from.new }
{
    read_version(from, b"krieg record ", 1)
}

fn read_start_line(from: &mut Cursor<'_>) -> Result<Position, TextFault>
    ensures value { GivesOn (λ p. p) result from.new (taken forms.start_form from.old) }
    ensures rest { Passed from.old from.new }
{
    from.next(|line| start_form(line))
}

/// The move, where the side is to move. Where it is not, the text is read for its form alone.
fn in_turn(turn: bool, meant: Result<Move, SanFault>) -> Result<Move, TextKind>
    ensures { result ≡ spec.in_turn turn meant }
{
    match meant {
        Err(SanFault::Syntax) => Err(TextKind::Syntax),
        Ok(mv) if turn => Ok(mv),
        _ => Err(TextKind::OutOfPlace),
    }
}

fn move_of(p: &Position, who: Side, text: &[u8]) -> Result<Move, TextKind>
    ensures { result ≡ spec.move_by p.now (Some (who, text.now)) }
{
    in_turn(who == p.side(), read_san(p, text))
}

/// The move that the line spells where that position stands.
#[tactic(auto, unfolding(crate::specs::RecordReading::move_form, crate::specs::RecordReading::marked))]
fn move_form(p: &Position, text: &[u8]) -> Result<Move, TextKind>
    ensures { result ≡ spec.move_form p.now text.now }
{
    match behind(b"w ", text) {
        Some(mv) => move_of(p, Side::White, mv),
        None => match behind(b"b ", text) {
            Some(mv) => move_of(p, Side::Black, mv),
            None => Err(TextKind::Syntax),
        },
    }
}

#[tactic(auto, unfolding(crate::specs::RecordReading::line_form))]
fn line_form(p: &Position, text: &[u8]) -> Result<RecordLine, TextKind>
    ensures { result ≡ spec.line_form p.now text.now }
{
    if is_name(b"end", text) {
        return Ok(RecordLine::End);
    }
    let mv = move_form(p, text)?;
    Ok(RecordLine::Played(mv))
}

/// Makes the legal move, and adds it to the moves.
fn play(mv: &Move, p: &mut Position, moves: &mut Vec<Move>) -> Result<(), NoMemory>
    requires { IsTrue (is_legal p.old mv.now) }
    ensures position { p.new ≡ change.after p.old mv.now }
    ensures moves { OnOk result (moves.new.items ≡ moves.old.items ++ mv.now ∷ []) }
{
    *p = after(p, *mv);
    moves.push(*mv)?;
    Ok(())
}

/// The next line, where that position stands.
fn read_record_line(from: &mut Cursor<'_>, p: &Position) -> Result<RecordLine, TextFault>
    ensures value { GivesOn (λ l. l) result from.new (taken (spec.line_form p.now) from.old) }
    ensures fewer { OnOk result (length from.new.left + 1 ≡ length from.old.left) }
{
    from.next(|line| line_form(p, line))
}

/// The moves up to the last line.
#[tactic(auto, using(crate::proofs::MoveLines::reads))]
fn read_moves(
    alloc: Global,
    start: &Position,
    from: &mut Cursor<'_>,
) -> Result<Vec<Move>, TextFault>
    ensures { GivesOn (λ x. (x.items, tt)) result from.new (spec.moves_at start.now from.old) }
{
    let mut moves: Vec<Move> = Vec::new(alloc);
    let mut p = *start;
    'moves: loop {
        match read_record_line(from, &p) {
            Err(fault) => return Err(fault),
            Ok(RecordLine::End) => {
                moves.shrink_to_fit();
                return Ok(moves);
            }
            Ok(RecordLine::Played(mv)) => play(&mv, &mut p, &mut moves)?,
        }
    }
}

#[tactic(auto, unfolding(crate::specs::RecordReading::record_at))]
fn read_lines(alloc: Global, text: &[u8]) -> Result<Record, TextFault>
    ensures { Gives (λ r. state_of r) result (whole spec.record_at (lines text.now)) }
{
    let mut from = Cursor::new(text);
    let _version = read_record_version(&mut from)?;
    let start = read_start_line(&mut from)?;
    let moves = read_moves(alloc, &start, &mut from)?;
    from.end()?;
    Ok(Record { start, moves })
}

/// The record that the text spells, a game with its moves in SAN.
///
/// The fault is the first line that is not accepted, or, where all lines are and the text is not
/// complete, the number of lines plus 1 with `Syntax`. Its kinds are `Version`, `Syntax`, `Position` and
/// `OutOfPlace`.
#[tactic(auto, using(crate::proofs::RecordReadings::records))]
pub fn read_record(alloc: Global, text: &[u8]) -> Result<Record, TextFault>
    ensures reading { IsReading (λ r. state_of r) spec.record_at Always SpellsRecord RecordGrammar
        (lines text.now) result }
    // It begins in a valid position, and its moves are legal.
    ensures game { IfOk result (λ r. IsRecord (state_of r)) }
{
    read_lines(alloc, text)
}
