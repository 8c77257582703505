ghost use Rattle.std.specs.Prelude.{◌≡◌};
ghost use Rattle.krieg_outcome.specs.Parts.{Decides};
ghost use Rattle.krieg_outcome.specs.San as spec;

use crate::ending::Ending;
use krieg_record::write_record;
use krieg_umpire::{read_session, record_of};
use std::alloc::Global;

/// What `san` answers to the text of a session.
pub(crate) fn answer(alloc: Global, text: Vec<u8>) -> Result<Vec<u8>, Ending>
    ensures { Decides (λ answer. answer.items) result (spec.WritesRecord text.items) }
{
    let session = read_session(alloc, &text)?;
    drop(text);
    let record = record_of(alloc, &session)?;
    drop(session);
    let mut answer = Vec::new(alloc);
    write_record(&record, &mut answer)?;
    Ok(answer)
}
