ghost use Rattle.std.specs.Prelude.{◌≡◌, ◌≤◌, None, IfOk, List};
ghost use Rattle.krieg_board.specs.Pos.{Pos};
ghost use Rattle.krieg_board.specs.declared.men.Side.TheVariants.{White};
ghost use Rattle.krieg_words.specs.declared.dialects.Dialect.TheVariants.{Wild16};
ghost use Rattle.krieg_sheet.specs.Sheets.{new_sheet};
ghost use Rattle.krieg_sheet.specs.Places.{IsSheet};
ghost use Rattle.krieg_belief.specs.Possible.{IsPossible, HaveOneHand};
ghost use Rattle.krieg_plan.specs.Plans.{plan_of};
ghost use Rattle.krieg_plan.specs.Trees.{plan_size};
ghost use Rattle.krieg_solve.specs.Solutions.{IsBest};
ghost use Rattle.krieg_solve.specs.BuiltPlan.{IsFit};
ghost use Rattle.krieg_outcome.specs.Parts.{Decides};
ghost use Rattle.krieg_outcome.specs.Solve.{least_units};
ghost use Rattle.krieg_outcome.specs.Job as spec;

mod summary;
mod verdict_counts;

use crate::commands::asked::listed;
use crate::commands::job::verdict_counts::made_verdicts;
use crate::ending::Ending;
use crate::limits::JOB_MOVES;
use krieg_args::MOST_SEED;
use krieg_belief::{BeliefStop, believe};
use krieg_board::{MOST_UNITS, NoMemory, Side, Units};
use krieg_checker::{PlanVerdict, check};
use krieg_fen::MOST_LISTED;
use krieg_make::made_sheet;
use krieg_pack::Belief;
use krieg_plan::{MOST_NODES, Plan, PlanFile, size_up_to};
use krieg_sheet::Sheet;
use krieg_solve::{Answer, solve};
use krieg_words::Dialect;
use std::alloc::Global;

/// What a search and a check find.
#[derive(Clone, Copy)]
pub(crate) enum Finding {
    /// The best plan: its worst case, how many nodes it has, and its worst case as the check finds it.
    Plan {
        worst: u8,
        nodes: usize,
        checked: u16,
    },
    /// No plan mates.
    NoPlan,
}

/// The positions that are possible by a sheet that says no more than its list. They are not too many: a sheet lists no
/// more than the limit.
fn possible(alloc: Global, sheet: &Sheet) -> Result<Belief, NoMemory>
    requires new { (list : List Pos) × (sheet.now ≡ new_sheet Wild16 White list None) }
    requires sheet { IsSheet sheet.now }
    ensures value { IfOk result (λ set. IsPossible sheet.now set) }
    ensures hand { IfOk result (λ set. HaveOneHand White set) }
{
    match believe(alloc, sheet, MOST_LISTED as usize) {
        Ok(set) => Ok(set),
        Err(BeliefStop::NoMemory) => Err(NoMemory),
        Err(BeliefStop::TooMany { line: _ }) => unreachable!(),
    }
}

/// How many nodes the plan has.
fn node_count(plan: &Plan) -> usize
    requires { IsFit MOST_NODES (plan_of plan.now) }
    ensures { result ≡ plan_size (plan_of plan.now) }
{
    match size_up_to(plan, MOST_NODES) {
        Some(nodes) => nodes,
        None => unreachable!(),
    }
}

/// The numbers of the best plan for the set, which is checked.
fn checked(alloc: Global, set: &Belief, worst: u8, plan: Plan) -> Result<Finding, Ending>
    requires hand { HaveOneHand White set.now }
    requires best { IsBest Wild16 White set.now JOB_MOVES worst (plan_of plan) }
    requires fit { IsFit MOST_NODES (plan_of plan) }
    requires paid { least_units Wild16 White set.now JOB_MOVES ≤ MOST_UNITS }
    ensures { Decides spec.found_lines result (spec.Plans set.now) }
{
    let nodes = node_count(&plan);
    let file = PlanFile {
        dialect: Dialect::Wild16,
        side: Side::White,
        list: listed(alloc, set)?,
        worst: u16::from(worst),
        plan,
    };
    let mut units = Units::new(MOST_UNITS);
    match check(alloc, &file, &mut units)? {
        PlanVerdict::Mates(checked) => Ok(Finding::Plan {
            worst,
            nodes,
            checked,
        }),
        PlanVerdict::Fails => unreachable!(),
    }
}

/// What is found for the set: the best plan, or that none mates.
fn found(alloc: Global, set: &Belief) -> Result<Finding, Ending>
    requires { HaveOneHand White set.now }
    ensures { Decides spec.found_lines result (spec.Plans set.now) }
{
    let mut units = Units::new(MOST_UNITS);
    let answer = solve(
        alloc,
        Dialect::Wild16,
        Side::White,
        set,
        JOB_MOVES,
        MOST_NODES,
        &mut units,
    )?;
    match answer {
        Answer::Mates { worst, plan } => checked(alloc, set, worst, plan),
        Answer::None => Ok(Finding::NoPlan),
    }
}

/// What `job` answers: the summary of the made inputs of this number.
pub(crate) fn answer(alloc: Global, number: u64) -> Result<Vec<u8>, Ending>
    requires { number ≤ MOST_SEED }
    ensures { Decides (λ answer. answer.items) result (spec.Summarizes number) }
{
    let sheet = made_sheet(alloc, number as u32)?;
    let set = possible(alloc, &sheet)?;
    let found = found(alloc, &set)?;
    let counts = made_verdicts(alloc, number as u32)?;
    Ok(summary::summary(alloc, sheet.list().len(), set.len(), &found, &counts)?)
}
