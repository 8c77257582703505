ghost use Rattle.std.specs.Prelude.{◌≡◌, ◌≤◌};
ghost use Rattle.krieg_outcome.specs.Parts.{Decides};
ghost use Rattle.krieg_outcome.specs.Make as spec;

use crate::ending::Ending;
use krieg_args::{MOST_SEED, MadeInput};
use krieg_make::{MakeKind, make};
use std::alloc::Global;

/// Which input the words ask for.
fn make_kind(what: MadeInput) -> MakeKind
    ensures { result ≡ spec.make_kind what }
{
    match what {
        MadeInput::Session => MakeKind::Session,
        MadeInput::Sheet => MakeKind::Sheet,
    }
}

/// What `make` answers: the text of the made input of this number.
pub(crate) fn answer(alloc: Global, what: MadeInput, number: u64) -> Result<Vec<u8>, Ending>
    requires { number ≤ MOST_SEED }
    ensures { Decides (λ answer. answer.items) result (spec.Makes what number) }
{
    Ok(make(alloc, number as u32, make_kind(what))?)
}
