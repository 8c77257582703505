ghost use Rattle.std.specs.Prelude.{◌≡◌, false, IfOk, IfErr};
ghost use Rattle.krieg_args.specs.Command.{takes_input};
ghost use Rattle.krieg_cli.specs.World.{stream};
ghost use Rattle.krieg_cli.specs.Input.{WasTaken, FailsToTake};

use krieg_args::Command;
use krieg_outcome::{Ending, MOST_INPUT};
use krieg_ports::{Source, read_all};
use std::alloc::Global;

/// The whole input, where the command takes one.
pub(crate) fn taken<S: Source>(
    alloc: Global,
    command: &Command,
    input: &mut S,
) -> Result<Vec<u8>, Ending>
    ensures text { let seen = stream S.left S.faults in
        IfOk result (λ text. WasTaken command.now (seen input.old) (seen input.new) text.items) }
    ensures fails { let seen = stream S.left S.faults in
        IfErr result (λ e. FailsToTake e command.now (seen input.old) (seen input.new)) }
    ensures unread { takes_input command.now ≡ false → input.new ≡ input.old }
{
    if !command.takes_input() {
        return Ok(Vec::new(alloc));
    }
    let text = read_all(alloc, input, MOST_INPUT)?;
    Ok(text)
}
