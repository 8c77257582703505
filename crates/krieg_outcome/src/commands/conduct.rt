ghost use Rattle.std.specs.Prelude.{◌≡◌, ◌≤◌};
ghost use Rattle.krieg_play.specs.Benches.{bench_sides};
ghost use Rattle.krieg_outcome.specs.Parts.{Decides, LeavesSeats, ending_of};
ghost use Rattle.krieg_outcome.specs.Lead.{ConductsText};
ghost use Rattle.krieg_args.specs.declared.command.Command.TheVariants.{Conduct};

use crate::commands::lead::answer_to;
use crate::ending::Ending;
use krieg_play::Bench;
use krieg_seats::Seat;
use krieg_strategyfile::read_strategy;
use std::alloc::Global;

/// What `conduct` answers to the text of a strategy, with so many tries at most and from the listed position with that
/// number.
pub(crate) fn answer(
    alloc: Global,
    asks: u64,
    number: u64,
    text: Vec<u8>,
    bench: &mut Bench,
) -> Result<Vec<u8>, Ending>
    requires { 1 ≤ number }
    ensures outcome { Decides (λ answer. answer.items) result
        (ConductsText (λ b. (⟦<dyn Seat as Seat>⟧ b.vtable).account b.value)
        (bench_sides bench.old) (bench_sides bench.new)
        asks number text.items) }
    ensures bench { LeavesSeats (λ b. (⟦<dyn Seat as Seat>⟧ b.vtable).account b.value)
        (Conduct asks number) (ending_of result) text.items
        (bench_sides bench.old) (bench_sides bench.new) }
{
    let strategy = match read_strategy(alloc, &text) {
        Ok(strategy) => strategy,
        Err(fault) => return Err(Ending::from(fault)),
    };
    drop(text);
    answer_to(alloc, asks, number, strategy, bench)
}
