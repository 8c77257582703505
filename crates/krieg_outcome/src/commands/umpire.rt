ghost use Rattle.std.specs.Prelude.{◌≡◌};
ghost use Rattle.krieg_outcome.specs.Parts.{Decides};
ghost use Rattle.krieg_outcome.specs.Umpire as spec;

use crate::ending::Ending;
use krieg_board::Side;
use krieg_umpire::{read_session, umpire};
use std::alloc::Global;

/// What `umpire` answers to the text of a session.
pub(crate) fn answer(alloc: Global, who: Option<Side>, text: Vec<u8>) -> Result<Vec<u8>, Ending>
    ensures { Decides (λ answer. answer.items) result (spec.Umpires who text.items) }
{
    let session = read_session(alloc, &text)?;
    drop(text);
    let mut answer = Vec::new(alloc);
    umpire(alloc, &session, who, &mut answer)?;
    Ok(answer)
}
