ghost use Rattle.std.specs.Prelude.{◌≡◌, IfOk};
ghost use Rattle.krieg_refutefile.specs.Refutations.{state_of};
ghost use Rattle.krieg_outcome.specs.Parts.{Decides};
ghost use Rattle.krieg_outcome.specs.Deny as spec;

use crate::commands::counted::counted;
use crate::ending::Ending;
use crate::refusal::Refusal;
use krieg_board::{NoMemory, Units};
use krieg_refutation::{Refutation, deny};
use krieg_refutefile::read_refutation;
use std::alloc::Global;

/// The line that no plan mates within so many moves.
#[tactic(auto, unfolding(crate::specs::Deny::refuted_text))]
fn refuted_text(alloc: Global, moves: u8) -> Result<Vec<u8>, NoMemory>
    ensures { IfOk result (λ text. text.items ≡ spec.refuted_text moves) }
{
    counted(alloc, b"refuted ", usize::from(moves))
}

/// What the look at a refutation comes to, within so many units.
fn judged(alloc: Global, budget: u64, file: &Refutation) -> Result<Vec<u8>, Ending>
    ensures { Decides (λ answer. answer.items) result (spec.Judged budget (state_of file.now)) }
{
    let mut units = Units::new(budget);
    let holds = deny(alloc, file, &mut units)?;
    if holds {
        Ok(refuted_text(alloc, file.moves)?)
    } else {
        Err(Ending::Refused(Refusal::RefutationFails))
    }
}

/// What `deny` answers to the text of a refutation.
pub(crate) fn answer(alloc: Global, budget: u64, text: Vec<u8>) -> Result<Vec<u8>, Ending>
    ensures { Decides (λ answer. answer.items) result (spec.Denies budget text.items) }
{
    let file = read_refutation(alloc, text)?;
    judged(alloc, budget, &file)
}
