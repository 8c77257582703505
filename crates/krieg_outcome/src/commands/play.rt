ghost use Rattle.std.specs.Prelude.{◌≡◌};
ghost use Rattle.krieg_play.specs.Benches.{bench_sides};
ghost use Rattle.krieg_outcome.specs.Parts.{Decides, LeavesSeats, ending_of};
ghost use Rattle.krieg_outcome.specs.Play as spec;
ghost use Rattle.krieg_args.specs.declared.command.Command.TheVariants.{Play};

use crate::commands::recorded::recorded;
use crate::ending::Ending;
use crate::refusal::Refusal;
use krieg_board::NoMemory;
use krieg_play::{Bench, PlayFault, play};
use krieg_seats::Seat;
use krieg_umpire::read_start;
use krieg_words::Dialect;
use std::alloc::Global;

impl From<PlayFault> for Ending {
    ghost use Rattle.krieg_outcome.specs.Parts.{of_play};

    ghost from_gives = { λ fault e. e ≡ of_play fault };

    fn from(fault: PlayFault) -> Ending {
        match fault {
            PlayFault::Vacant(who) => Ending::Refused(Refusal::NoSeat(who)),
            PlayFault::Seat(who) => Ending::Refused(Refusal::SeatFault(who)),
            PlayFault::NoMemory => Ending::NoMemory,
        }
    }
}

/// What `play` answers to the text of a start, with so many asks.
pub(crate) fn answer(
    alloc: Global,
    asks: u64,
    text: Vec<u8>,
    bench: &mut Bench,
) -> Result<Vec<u8>, Ending>
    ensures outcome { Decides (λ answer. answer.items) result
        (spec.Plays (λ b. (⟦<dyn Seat as Seat>⟧ b.vtable).account b.value)
        (bench_sides bench.old) (bench_sides bench.new)
        asks text.items) }
    ensures bench { LeavesSeats (λ b. (⟦<dyn Seat as Seat>⟧ b.vtable).account b.value)
        (Play asks) (ending_of result) text.items
        (bench_sides bench.old) (bench_sides bench.new) }
{
    let start = match read_start(&text) {
        Ok(start) => start,
        Err(fault) => return Err(Ending::from(fault)),
    };
    let start = &start;
    drop(text);
    let played = match play(alloc, *start, bench, asks as usize) {
        Ok(played) => played,
        Err(fault) => return Err(Ending::from(fault)),
    };
    match recorded(alloc, Dialect::Wild16, start, &played.game, played.stop) {
        Ok(answer) => Ok(answer),
        Err(NoMemory) => Err(Ending::NoMemory),
    }
}
