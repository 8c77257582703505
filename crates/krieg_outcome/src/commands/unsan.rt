ghost use Rattle.std.specs.Prelude.{◌≡◌};
ghost use Rattle.krieg_outcome.specs.Parts.{Decides};
ghost use Rattle.krieg_outcome.specs.Unsan as spec;

use crate::ending::Ending;
use krieg_record::read_record;
use krieg_umpire::{session_of, write_session};
use std::alloc::Global;

/// What `unsan` answers to the text of a record.
pub(crate) fn answer(alloc: Global, text: Vec<u8>) -> Result<Vec<u8>, Ending>
    ensures { Decides (λ answer. answer.items) result (spec.WritesSession text.items) }
{
    let record = read_record(alloc, &text)?;
    drop(text);
    let session = session_of(alloc, &record)?;
    drop(record);
    let mut answer = Vec::new(alloc);
    write_session(&session, &mut answer)?;
    Ok(answer)
}
