ghost use Rattle.std.specs.Prelude.{◌≡◌, ◌≤◌, ◌<◌, ◌+◌, ◌^◌, ℕ, IfOk, IfErr, OnOk, Err, length, take};
ghost use Rattle.krieg_board.specs.declared.men.Side.{Side};
ghost use Rattle.krieg_words.specs.declared.dialects.Dialect.{Dialect};
ghost use Rattle.krieg_fen.specs.declared.forms.TheConstants.{MOST_LISTED};
ghost use Rattle.krieg_sheet.specs.SheetText as text;
ghost use Rattle.krieg_belief.specs.Steps as spec;
ghost use Rattle.krieg_belief.specs.Possible as possible;
ghost use Rattle.krieg_belief.specs.declared.steps.StepStop.TheVariants as stop;
ghost use Rattle.krieg_belief.specs.Limits as limits;
ghost use Rattle.krieg_belief.specs.Limits.{AllWithin, IsStop, IsLateStop};

use crate::steps::{Hearing, StepStop, step};
use krieg_pack::Belief;
use krieg_sheet::{Sheet, list_line};
use krieg_words::Words;
use krieg_wordtext::Line;
use std::alloc::Global;

/// Why the possible positions of a sheet are not listed.
#[derive(Clone, Copy)]
pub enum BeliefStop {
    /// More positions were possible than the limit allows, first after this line of the text that
    /// `write_sheet` writes. For the list alone it is the line that says how many positions it has.
    TooMany { line: usize },
    /// Memory was not found.
    NoMemory,
}

fn stopped(stop: StepStop, line: usize) -> BeliefStop
    ensures { result ≡ limits.stopped stop line }
{
    match stop {
        StepStop::TooMany => BeliefStop::TooMany { line },
        StepStop::NoMemory => BeliefStop::NoMemory,
    }
}

/// The set after all of the lines, where none on the way has more members than the limit allows.
fn go_through(
    alloc: Global,
    hearing: Hearing,
    start: Belief,
    lines: &[Line],
    limit: usize,
    behind: usize,
) -> Result<Belief, BeliefStop>
    requires fits { length start ≤ limit }
    requires room { behind + length lines.now < 2 ^ 64 }
    ensures value { IfOk result
        (λ b. b ≡ spec.run hearing.dialect hearing.side lines.now start) }
    ensures within { OnOk result ((n : ℕ) → n ≤ length lines.now →
        length (spec.run hearing.dialect hearing.side (take n lines.now) start) ≤ limit) }
    ensures stop { IfErr result
        (IsLateStop hearing.dialect hearing.side lines.now start limit behind) }
{
    let mut b = start;
    for i in 0..lines.len() {
        b = match step(alloc, hearing, &lines[i], &b, limit) {
            Ok(next) => next,
            Err(stop) => return Err(stopped(stop, behind + i + 1)),
        };
    }
    Ok(b)
}

/// How many lines of a sheet's text tell the opening words.
fn opening_lines(opens: &Option<Words>) -> usize
    ensures value { (d : Dialect) → result ≡ length (text.opens_lines d opens.now) }
    ensures small { result ≤ 1 }
{
    match opens {
        None => 0,
        Some(_) => 1,
    }
}

/// How many positions are listed.
fn list_len(s: &Sheet) -> usize
    ensures value { result ≡ length s.now.list }
    ensures small { result ≤ MOST_LISTED }
{
    s.list().len()
}

/// The last line before the entries, in the text that `write_sheet` writes.
pub fn line_before_entries(s: &Sheet) -> usize
    ensures value { result ≡ possible.line_of s.now 1 }
    ensures small { result ≤ MOST_LISTED + 5 }
{
    list_line(s.dialect()) + list_len(s) + opening_lines(&s.opens())
}

/// Only the positions with the opening words, where they were heard.
fn after_opening(
    alloc: Global,
    hearing: Hearing,
    opens: &Option<Words>,
    listed: Belief,
    limit: usize,
) -> Result<Belief, StepStop>
    requires { length listed ≤ limit }
    ensures value { IfOk result
        (λ b. b ≡ spec.after_opening hearing.dialect hearing.side opens.now listed) }
    ensures small { IfOk result (λ b. length b ≤ limit) }
    ensures too_many { result ≡ Err stop.TooMany →
        limit < length (spec.after_opening hearing.dialect hearing.side opens.now listed) }
{
    match opens {
        None => Ok(listed),
        Some(w) => step(alloc, hearing, &Line::Opens(*w), &listed, limit),
    }
}

/// The positions in which a game of the sheet may begin, each once, in order: those that are listed, and of these, where
/// the opening words were heard, those that have them. They are what is possible before the entries.
///
/// `TooMany` exactly where `believe` answers it before the entries, with the same line.
pub fn starts_of(alloc: Global, s: &Sheet, limit: usize) -> Result<Belief, BeliefStop>
    ensures value { IfOk result (possible.IsPossible (possible.prefix s.now 1)) }
    ensures within { OnOk result (AllWithin limit (possible.prefix s.now 1)) }
    ensures stop { IfErr result (IsStop s.now limit) }
{
    let hearing = Hearing {
        dialect: s.dialect(),
        side: s.side(),
    };
    let listed = match Belief::from_positions(alloc, s.list()) {
        Ok(listed) => listed,
        Err(_) => return Err(BeliefStop::NoMemory),
    };
    if listed.len() > limit {
        return Err(BeliefStop::TooMany {
            line: list_line(hearing.dialect),
        });
    }
    match after_opening(alloc, hearing, &s.opens(), listed, limit) {
        Ok(start) => Ok(start),
        Err(stop) => Err(stopped(stop, line_before_entries(s))),
    }
}

/// All positions that are consistent with the sheet, each once, in order. They all have the same hand of
/// the sheet's side: the same men and castling rights of its own, and the same side to move.
///
/// `TooMany` exactly where, for the list alone, for the list with the opening words where they were
/// heard, or for these with the first entries, more than `limit` positions are possible. The line is that of
/// the first of these that has too many.
pub fn believe(alloc: Global, s: &Sheet, limit: usize) -> Result<Belief, BeliefStop>
    ensures value { IfOk result (λ b. possible.IsPossible s.now b) }
    ensures hand { IfOk result (λ b. possible.HaveOneHand s.now.side b) }
    ensures within { OnOk result (AllWithin limit s.now) }
    ensures stop { IfErr result (IsStop s.now limit) }
{
    let start = starts_of(alloc, s, limit)?;
    let hearing = Hearing {
        dialect: s.dialect(),
        side: s.side(),
    };
    let behind = line_before_entries(s);
    go_through(alloc, hearing, start, s.entries(), limit, behind)
}
