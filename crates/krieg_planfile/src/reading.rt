ghost use Rattle.std.specs.Prelude.{◌≡◌, IfErr, IfOk, ◌≢◌, ◌<◌, ◌≤◌, None, length};
ghost use Rattle.krieg_text.specs.Lines.{lines};
ghost use Rattle.krieg_text.specs.Reading.{taken, whole, Gives, GivesOn};
ghost use Rattle.krieg_plan.specs.Plans.{plan_of};
ghost use Rattle.krieg_planfile.specs.NodeReading.{branches_by, node_at};
ghost use Rattle.krieg_planfile.specs.PlanFiles as files;
ghost use Rattle.krieg_text.specs.Formats.{IsReading};
ghost use Rattle.krieg_planfile.specs.PlanFiles.{state_of, IsPlanFile};
ghost use Rattle.krieg_planfile.specs.PlanSpelling.{SpellsPlan, PlanGrammar};
ghost use Rattle.krieg_planfile.specs.PlanReading as spec;

use crate::roots::{RootRules, read_roots};
use krieg_board::{Position, Side};
use krieg_fen::{Turn, read_listing};
use krieg_plan::{MOST_NODES, MOST_ON_PATH, Plan, PlanFile};
use krieg_text::{Cursor, LineSource, TextFault, read_count, read_version, read_word};
use krieg_words::Dialect;
use krieg_wordtext::read_dialect_line;
use std::alloc::Global;

/// The next line, as the format's name with one of its two versions.
#[tactic(auto, unfolding(crate::specs::PlanReading::plan_version_form))]
fn read_plan_version(from: &mut Cursor<'_>) -> Result<u64, TextFault>
    ensures { GivesOn (λ n. n) result from.new (taken spec.plan_version_form from.old) }
{
    read_version(from, b"krieg plan ", 2)
}

/// The version and the dialect.
#[tactic(auto, unfolding(crate::specs::PlanReading::heading_at))]
fn read_heading(from: &mut Cursor<'_>) -> Result<(u64, Dialect), TextFault>
    ensures { GivesOn (λ h. h) result from.new (spec.heading_at from.old) }
{
    let version = read_plan_version(from)?;
    let dialect = read_dialect_line(from, version)?;
    Ok((version, dialect))
}

/// Version 1 is for the player's own turn alone.
fn turn_in(version: u64) -> Turn
    ensures { result ≡ spec.turn_in version }
{
    if version == 1 {
        Turn::Own
    } else {
        Turn::Either
    }
}

/// Whether the opponent is to move in the first listed position.
pub(crate) fn waits(side: Side, list: &[Position]) -> bool
    ensures { result ≡ files.waits side list.now }
{
    match list {
        [] => false,
        [first, ..] => first.side() != side,
    }
}

/// The next line, as the number of own moves that is claimed.
#[tactic(auto, unfolding(crate::specs::PlanReading::worst_form))]
fn read_worst(from: &mut Cursor<'_>) -> Result<u64, TextFault>
    ensures value { GivesOn (λ n. n) result from.new (taken spec.worst_form from.old) }
    ensures range { IfOk result (λ n. n ≤ MOST_ON_PATH) }
{
    read_count(from, b"worst ", 1, MOST_ON_PATH as u64)
}

/// The next line, as the number of roots.
#[tactic(auto, unfolding(crate::specs::PlanReading::roots_form))]
fn read_root_count(from: &mut Cursor<'_>) -> Result<u64, TextFault>
    ensures { GivesOn (λ n. n) result from.new (taken spec.roots_form from.old) }
{
    read_count(from, b"roots ", 1, MOST_NODES as u64)
}

/// The next line, as `end`.
#[tactic(auto, unfolding(crate::specs::PlanReading::end_form))]
fn read_end(from: &mut Cursor<'_>) -> Result<(), TextFault>
    ensures { GivesOn (λ u. u) result from.new (taken spec.end_form from.old) }
{
    read_word(from, b"end")
}

/// A plan of `k` roots, with no more nodes than `left`.
#[tactic(auto, using(crate::proofs::PlanOrder::ordered))]
fn read_roots_of_plan(
    alloc: Global,
    from: &mut Cursor<'_>,
    rules: RootRules,
    left: &mut usize,
    k: u64,
) -> Result<Plan, TextFault>
    ensures { GivesOn (λ p. (plan_of p, left.new)) result from.new
        (branches_by (node_at MOST_ON_PATH rules.dialect)
        (spec.root_form rules.version rules.waiting rules.dialect) k None left.old from.old) }
{
    let roots = read_roots(alloc, from, rules, left, k)?;
    Ok(Plan::make(roots))
}

/// What stands after the positions: the claim, the roots, and `end`.
#[tactic(auto, unfolding(crate::specs::PlanReading::claim_at))]
fn read_claim(
    alloc: Global,
    from: &mut Cursor<'_>,
    version: u64,
    dialect: Dialect,
    side: Side,
    list: Vec<Position>,
) -> Result<PlanFile, TextFault>
    ensures { GivesOn (λ f. state_of f) result from.new
        (spec.claim_at version dialect side list.items from.old) }
{
    let worst = read_worst(from)? as u16;
    let count = read_root_count(from)?;
    let mut left = MOST_NODES;
    let rules = RootRules {
        version,
        dialect,
        waiting: waits(side, &list),
    };
    let plan = read_roots_of_plan(alloc, from, rules, &mut left, count)?;
    read_end(from)?;
    Ok(PlanFile {
        dialect,
        side,
        list,
        worst,
        plan,
    })
}

/// The lines of a plan file, up to its line `end`.
#[tactic(auto, unfolding(crate::specs::PlanReading::plan_at))]
pub(crate) fn read_plan_lines(alloc: Global, from: &mut Cursor<'_>) -> Result<PlanFile, TextFault>
    ensures value { GivesOn (λ f. state_of f) result from.new (spec.plan_at from.old) }
{
    let (version, dialect) = read_heading(from)?;
    let (side, list) = read_listing(alloc, from, turn_in(version))?;
    read_claim(alloc, from, version, dialect, side, list)
}

fn read_lines(alloc: Global, text: &[u8]) -> Result<PlanFile, TextFault>
    ensures { Gives (λ f. state_of f) result (whole spec.plan_at (lines text.now)) }
{
    let mut from = Cursor::new(text);
    let file = read_plan_lines(alloc, &mut from)?;
    from.end()?;
    Ok(file)
}

/// The plan file that the text spells, in version 1 or 2.
///
/// The fault is the first line that is not accepted, or, where all lines are and the text is not
/// complete, the number of lines plus 1 with `Syntax`. Every kind of fault may come: `Count` at a number
/// of positions, own moves, roots or edges; `Large` at the line of node 100,001, and `Deep` at that of a
/// node with 2,500 nodes above it; `OutOfPlace` at a key that does not come after the key before it, at a
/// root of the other form, and in version 1 at a first position where the opponent is to move.
///
/// The text is read once, and no more than 2,500 calls stand on one another, whatever the text.
#[tactic(auto, using(crate::proofs::PlanSpellings::reading, crate::proofs::ReadSizes::read_fits))]
pub fn read_plan(alloc: Global, text: &[u8]) -> Result<PlanFile, TextFault>
    ensures reading { IsReading (λ f. state_of f) spec.plan_at IsPlanFile SpellsPlan PlanGrammar
        (lines text.now) result }
    // What is read is a plan file: it is within the limits, its words can be told, its keys ascend.
    ensures plan { IfOk result (λ f. IsPlanFile (state_of f)) }
    // It has fewer than 38,000,000 bytes, so that no plan file is too long for an input.
    ensures short { IfOk result (λ f. length text.now < spec.read_bound) }
{
    read_lines(alloc, text)
}
