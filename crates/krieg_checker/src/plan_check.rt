ghost use Rattle.std.specs.Prelude.{◌≡◌};
ghost use Rattle.krieg_parting.specs.Charges.{Charges};
ghost use Rattle.krieg_plan.specs.OneTurn.{IsOneTurn};
ghost use Rattle.krieg_plan.specs.declared.plan.PlanFile.{PlanFile};
ghost use Rattle.krieg_checker.specs.Verdict as spec;
ghost use Rattle.krieg_checker.specs.Verdict.{IsVerdict, AreParts, check_cost};

use crate::roots::walk_roots;
use crate::start::start;
use krieg_board::{Side, Units};
use krieg_pack::Belief;
use krieg_parting::PartStop;
use krieg_plan::{Plan, PlanFile};
use krieg_words::Dialect;
use std::alloc::Global;

/// What a check finds.
#[derive(Clone, Copy)]
pub enum PlanVerdict {
    /// The plan mates every listed position, and this is its worst case.
    Mates(u16),
    /// It does not mate every listed position within the number that the file claims.
    Fails,
}

/// What a plan file says of its listed positions.
#[derive(Clone, Copy)]
struct PlanClaim<'a> {
    dialect: Dialect,
    side: Side,
    worst: u16,
    plan: &'a Plan,
}

/// The answer by what was found, against the number that the file claims.
fn verdict(worst: u16, over: bool, need: Option<u16>) -> PlanVerdict
    ensures { result ≡ spec.verdict worst over need }
{
    match need {
        Some(w) if !over && w <= worst => PlanVerdict::Mates(w),
        _ => PlanVerdict::Fails,
    }
}

/// The same as `check`, by what the file says of its listed positions, and their set.
fn check_set(
    alloc: Global,
    said: &PlanClaim<'_>,
    set: Belief,
    units: &mut Units,
) -> Result<PlanVerdict, PartStop>
    requires { IsOneTurn set }
    ensures { (f : PlanFile) → AreParts f said.now set
        → Charges result (IsVerdict f) (check_cost f) units.old units.new }
{
    let started = start(alloc, said.dialect, said.side, set, units)?;
    let need = walk_roots(
        alloc,
        said.dialect,
        said.plan,
        started.own,
        started.classes,
        units,
    )?;
    Ok(verdict(said.worst, started.over, need))
}

/// Whether the plan mates every listed position within the number that the file claims, and its worst case.
///
/// It takes one unit for each pair of a node and a position that reaches it, and one for each legal reply there; and
/// where the opponent is to move first, one for each of his moves in each listed position. Each is counted once,
/// however many games lead to it, and all are counted where the plan fails too. `Spent` comes only where fewer units
/// are left, and an answer takes exactly these. After an `Err` some of them may be gone,
/// and none are new.
pub fn check(alloc: Global, f: &PlanFile, units: &mut Units) -> Result<PlanVerdict, PartStop>
    requires { IsOneTurn f.now.list.items }
    ensures { Charges result (IsVerdict f.now) (check_cost f.now) units.old units.new }
{
    let set = Belief::from_positions(alloc, f.list.as_slice())?;
    let said = PlanClaim {
        dialect: f.dialect,
        side: f.side,
        worst: f.worst,
        plan: &f.plan,
    };
    check_set(alloc, &said, set, units)
}

/// The same of a file that is let go: its list goes once it is a set, so that no more than one of both is kept.
pub fn check_owned(alloc: Global, f: PlanFile, units: &mut Units) -> Result<PlanVerdict, PartStop>
    requires { IsOneTurn f.list.items }
    ensures { Charges result (IsVerdict f) (check_cost f) units.old units.new }
{
    let PlanFile {
        dialect,
        side,
        list,
        worst,
        plan,
    } = f;
    let set = Belief::from_positions(alloc, list.as_slice())?;
    drop(list);
    let said = PlanClaim {
        dialect,
        side,
        worst,
        plan: &plan,
    };
    check_set(alloc, &said, set, units)
}
