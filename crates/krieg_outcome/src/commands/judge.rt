ghost use Rattle.krieg_strategyfile.specs.Strategies.{state_of};
ghost use Rattle.krieg_outcome.specs.Parts.{Decides};
ghost use Rattle.krieg_outcome.specs.Judge as spec;

use crate::commands::check::worst_text;
use crate::ending::Ending;
use crate::refusal::Refusal;
use krieg_board::Units;
use krieg_judge::{Judgement, judge};
use krieg_strategy::Strategy;
use krieg_strategyfile::read_strategy;
use std::alloc::Global;

/// What the judgement of a strategy comes to, within so many units.
fn judged(alloc: Global, budget: u64, s: &Strategy) -> Result<Vec<u8>, Ending>
    ensures { Decides (λ answer. answer.items) result (spec.JudgedSo budget (state_of s.now)) }
{
    let mut units = Units::new(budget);
    match judge(alloc, s, &mut units)? {
        Judgement::Mates(worst) => Ok(worst_text(alloc, worst)?),
        Judgement::Fails => Err(Ending::Refused(Refusal::PlanFails)),
    }
}

/// What `judge` answers to the text of a strategy.
pub(crate) fn answer(alloc: Global, budget: u64, text: Vec<u8>) -> Result<Vec<u8>, Ending>
    ensures { Decides (λ answer. answer.items) result (spec.Judges budget text.items) }
{
    let s = read_strategy(alloc, &text)?;
    drop(text);
    judged(alloc, budget, &s)
}
