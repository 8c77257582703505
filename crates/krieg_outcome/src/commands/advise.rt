ghost use Rattle.std.specs.Prelude.{◌≡◌};
ghost use Rattle.krieg_strategyfile.specs.HeardStrategies.{heard_state_of};
ghost use Rattle.krieg_outcome.specs.Parts.{Decides};
ghost use Rattle.krieg_outcome.specs.Next.{Advises};

use crate::commands::next::said_next;
use crate::ending::Ending;
use krieg_strategyfile::{HeardStrategy, read_heard_strategy};
use std::alloc::Global;

/// What `advise` answers to the text of a strategy and of what its player heard.
pub(crate) fn answer(alloc: Global, text: Vec<u8>) -> Result<Vec<u8>, Ending>
    ensures { Decides (λ answer. answer.items) result (Advises text.items) }
{
    let HeardStrategy { strategy, heard } = read_heard_strategy(alloc, &text)?;
    drop(text);
    Ok(said_next(alloc, strategy, &heard)?)
}
