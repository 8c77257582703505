ghost use Rattle.std.specs.Prelude.{◌≡◌, ◌+◌, OnOk, length};
ghost use Rattle.krieg_text.specs.Lines.{lines};
ghost use Rattle.krieg_text.specs.Reading.{taken, Gives, GivesOn};
ghost use Rattle.krieg_planfile.specs.HeardReading as spec;
ghost use Rattle.krieg_planfile.specs.HeardStates.{heard_state_of};
ghost use Rattle.krieg_planfile.specs.HeardSpelling.{IsHeardReading};
ghost use Rattle.krieg_planfile.specs.PlanFiles.{IsPlanFile};
ghost use Rattle.krieg_planfile.specs.PlanReading.{plan_at};
ghost use Rattle.krieg_planfile.specs.PlanSpelling.{SpellsPlan, PlanGrammar};

use crate::reading::read_plan_lines;
use krieg_plan::PlanFile;
use krieg_text::{Cursor, LineSource, TextFault, TextKind};
use krieg_words::Dialect;
use krieg_wordtext::{Line, read_line_in};
use std::alloc::Global;

/// A plan file, and what its player heard.
#[derive(Drop)]
pub struct HeardPlan {
    /// The plan file.
    pub file: PlanFile,
    /// The lines that the player heard, in order, in the dialect of the file.
    pub heard: Vec<Line>,
}

/// The line of the dialect that the text spells.
fn heard_line(d: Dialect, text: &[u8]) -> Result<Line, TextKind>
    ensures { result ≡ spec.heard_form d text.now }
{
    match read_line_in(d, text) {
        Ok(line) => Ok(line),
        Err(_) => Err(TextKind::Syntax),
    }
}

/// The next line, in that dialect.
fn read_heard_line(from: &mut Cursor<'_>, d: Dialect) -> Result<Line, TextFault>
    ensures value { GivesOn (λ l. l) result from.new (taken (spec.heard_form d) from.old) }
    ensures fewer { OnOk result (length from.new.left + 1 ≡ length from.old.left) }
{
    from.next(|line| heard_line(d, line))
}

/// All lines that are left, as what a player heard in that dialect. The fault is the first one that is none of it, with
/// `Syntax`.
#[tactic(auto, using(crate::proofs::HeardLines::heard_lines))]
pub fn read_heard(alloc: Global, from: &mut Cursor<'_>, d: Dialect) -> Result<Vec<Line>, TextFault>
    ensures { Gives (λ heard. heard.items) result
        (spec.all_by (spec.heard_form d) from.old.number from.old.left) }
{
    let mut heard = Vec::new(alloc);
    'lines: loop {
        if from.end().is_ok() {
            return Ok(heard);
        }
        match read_heard_line(from, d) {
            Ok(line) => heard.push(line)?,
            Err(fault) => return Err(fault),
        }
    }
}

#[tactic(auto, unfolding(crate::specs::HeardReading::heard_plan))]
fn read_lines(alloc: Global, text: &[u8]) -> Result<HeardPlan, TextFault>
    ensures { Gives (λ h. heard_state_of h) result (spec.heard_plan (lines text.now)) }
{
    let mut from = Cursor::new(text);
    let file = read_plan_lines(alloc, &mut from)?;
    let heard = read_heard(alloc, &mut from, file.dialect)?;
    Ok(HeardPlan { file, heard })
}

/// The plan file that the text spells up to its line `end`, and behind it the lines that its player heard.
///
/// The fault is the first line that is not accepted: of the plan file as [`read_plan`](crate::read_plan) tells it, and
/// behind it each line that is none of the file's dialect, with `Syntax`. Where no line is refused and the plan file is
/// not complete it is the number of lines plus 1 with `Syntax`.
pub fn read_heard_plan(alloc: Global, text: &[u8]) -> Result<HeardPlan, TextFault>
    ensures exact { Gives (λ h. heard_state_of h) result (spec.heard_plan (lines text.now)) }
    ensures reading { IsHeardReading plan_at (λ s. s.dialect) IsPlanFile SpellsPlan PlanGrammar
        (λ h. heard_state_of h) (lines text.now) result }
{
    read_lines(alloc, text)
}
