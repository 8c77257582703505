// The possible positions of a sheet, for a search.
ghost use Rattle.std.specs.Prelude.{◌≡◌, All, IfOk};
ghost use Rattle.krieg_board.specs.Validity.{IsValid};
ghost use Rattle.krieg_belief.specs.Possible.{HaveOneHand};
ghost use Rattle.krieg_outcome.specs.Parts.{Decides};
ghost use Rattle.krieg_outcome.specs.Asked as spec;

use crate::ending::Ending;
use crate::refusal::Refusal;
use krieg_belief::believe;
use krieg_board::{NoMemory, Position};
use krieg_pack::Belief;
use krieg_sheet::Sheet;
use std::alloc::Global;

/// The positions that the sheet leaves possible, of which there is one, unless nothing is asked of them (`rests`).
pub(crate) fn asked(alloc: Global, sheet: &Sheet, limit: u64, rests: bool) -> Result<Belief, Ending>
    ensures set { Decides (λ set. set) result (spec.OfPossible limit sheet.now rests spec.IsGiven) }
    ensures hand { IfOk result (λ set. HaveOneHand sheet.now.side set) }
{
    let set = believe(alloc, sheet, limit as usize)?;
    if set.is_empty() {
        return Err(Ending::Refused(Refusal::NonePossible));
    }
    if rests {
        return Err(Ending::Refused(Refusal::NotThePlayersTurn));
    }
    Ok(set)
}

/// The members of the set as a list.
pub(crate) fn listed(alloc: Global, set: &Belief) -> Result<Vec<Position>, NoMemory>
    ensures same { IfOk result (λ list. list.items ≡ set.now) }
    ensures valid { IfOk result (λ list. All IsValid list.items) }
{
    let mut list = Vec::with_capacity(alloc, set.len())?;
    for i in 0..set.len() {
        list.push(set.get(i))?;
    }
    Ok(list)
}
