ghost use Rattle.std.specs.Prelude.{◌≡◌, IfOk};
ghost use Rattle.krieg_plan.specs.OneTurn.{IsOneTurn};
ghost use Rattle.krieg_planfile.specs.PlanFiles.{state_of};
ghost use Rattle.krieg_outcome.specs.Parts.{Decides};
ghost use Rattle.krieg_outcome.specs.Check as spec;

use crate::commands::counted::counted;
use crate::ending::Ending;
use crate::refusal::Refusal;
use krieg_board::{NoMemory, Units};
use krieg_checker::{PlanVerdict, check_owned};
use krieg_plan::PlanFile;
use krieg_planfile::read_plan;
use std::alloc::Global;

/// The line of the worst case.
#[tactic(auto, unfolding(crate::specs::Check::worst_text))]
pub(crate) fn worst_text(alloc: Global, worst: u16) -> Result<Vec<u8>, NoMemory>
    ensures { IfOk result (λ text. text.items ≡ spec.worst_text worst) }
{
    counted(alloc, b"mates ", usize::from(worst))
}

/// What the check of a plan file comes to, within so many units. Its list is let go once it is a set.
fn judged(alloc: Global, budget: u64, file: PlanFile) -> Result<Vec<u8>, Ending>
    requires { IsOneTurn file.list.items }
    ensures { Decides (λ answer. answer.items) result (spec.Checked budget (state_of file)) }
{
    let mut units = Units::new(budget);
    match check_owned(alloc, file, &mut units)? {
        PlanVerdict::Mates(worst) => Ok(worst_text(alloc, worst)?),
        PlanVerdict::Fails => Err(Ending::Refused(Refusal::PlanFails)),
    }
}

/// What `check` answers to the text of a plan file.
pub(crate) fn answer(alloc: Global, budget: u64, text: Vec<u8>) -> Result<Vec<u8>, Ending>
    ensures { Decides (λ answer. answer.items) result (spec.Checks budget text.items) }
{
    let file = read_plan(alloc, &text)?;
    drop(text);
    judged(alloc, budget, file)
}
