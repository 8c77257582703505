ghost use Rattle.std.specs.Prelude.{◌≡◌, ◌<◌, ◌≤◌, Err, IfOk, IfErr, length, vec_len};
ghost use Rattle.krieg_plan.specs.OneTurn.{IsOneTurn};
ghost use Rattle.krieg_play.specs.Calls.{FirstChanges};
ghost use Rattle.krieg_robot.specs.Laws.{Mates};
ghost use Rattle.krieg_robot.specs.Leading.{LedFrom, BrokenFrom, IsWon};
ghost use Rattle.krieg_play.specs.Benches.{bench_sides};
ghost use Rattle.krieg_outcome.specs.Parts.{Decides, LeavesSeats, ending_of};
ghost use Rattle.krieg_outcome.specs.Parts as parts;
ghost use Rattle.krieg_outcome.specs.Lead as spec;
ghost use Rattle.krieg_args.specs.declared.command.Command.TheVariants.{Lead};

use crate::commands::recorded::recorded;
use crate::ending::Ending;
use crate::refusal::Refusal;
use krieg_board::{NoMemory, Side};
use krieg_planfile::read_plan;
use krieg_play::Bench;
use krieg_robot::{Guide, LeadFault, Led, lead};
use krieg_seats::Seat;
use std::alloc::Global;

/// The ending of a run whose game was given up, against the player of that side.
fn ending_by(who: Side, fault: LeadFault) -> Ending
    ensures { result ≡ parts.of_lead who fault }
{
    match fault {
        LeadFault::Seat => Ending::Refused(Refusal::SeatFault(who)),
        LeadFault::NoMemory => Ending::NoMemory,
    }
}

/// Lets the guide lead a game against the first of these seats.
fn lead_first<G: Guide>(
    alloc: Global,
    guide: G,
    number: usize,
    asks: usize,
    seats: &mut Vec<Box<dyn Seat>>,
) -> Result<Led, LeadFault>
    requires turn { IsOneTurn (G.guidance guide).list }
    requires some { 1 ≤ number }
    requires listed { number ≤ length (G.guidance guide).list }
    requires seated { 0 < vec_len seats.old }
    ensures led { IfOk result (λ led. FirstChanges
        (λ x y. LedFrom (G.guidance guide) number asks (account x) (account y) led)
        seats.old.items seats.new.items) }
    ensures won { IfOk result (λ led. Mates (G.guidance guide)
        → IsWon (G.guidance guide) led.game led.stop) }
    ensures broken { IfErr result (λ fault. FirstChanges
        (λ x y. BrokenFrom (G.guidance guide) number asks (account x) (account y) fault)
        seats.old.items seats.new.items) }
{
    lead(alloc, guide, number, &mut seats[0], asks)
}

/// What is answered to a guide: the session of the game that it leads.
pub(crate) fn answer_to<G: Guide>(
    alloc: Global,
    asks: u64,
    number: u64,
    guide: G,
    bench: &mut Bench,
) -> Result<Vec<u8>, Ending>
    requires turn { IsOneTurn (G.guidance guide).list }
    requires some { 1 ≤ number }
    ensures outcome { Decides (λ answer. answer.items) result
        (spec.LeadsFrom (λ b. (⟦<dyn Seat as Seat>⟧ b.vtable).account b.value) asks number
        (bench_sides bench.old) (bench_sides bench.new) (G.guidance guide)) }
    ensures memory { result ≡ Err Ending.NoMemory
        → spec.HasLed (λ b. (⟦<dyn Seat as Seat>⟧ b.vtable).account b.value)
        asks number
        (bench_sides bench.old) (bench_sides bench.new) (G.guidance guide) }
{
    let number = number as usize;
    if guide.list().len() < number {
        return Err(Ending::Refused(Refusal::NoSuchPosition));
    }
    let opponent = guide.side().other();
    if bench.white.is_empty() {
        return Err(Ending::Refused(Refusal::NoSeat(opponent)));
    }
    let dialect = guide.dialect();
    let start = guide.list()[number - 1];
    let led = match lead_first(alloc, guide, number, asks as usize, &mut bench.white) {
        Ok(led) => led,
        Err(fault) => return Err(ending_by(opponent, fault)),
    };
    match recorded(alloc, dialect, &start, &led.game, led.stop) {
        Ok(answer) => Ok(answer),
        Err(NoMemory) => Err(Ending::NoMemory),
    }
}

/// What `lead` answers to the text of a plan file, with so many tries at most and from the listed position with that
/// number.
pub(crate) fn answer(
    alloc: Global,
    asks: u64,
    number: u64,
    text: Vec<u8>,
    bench: &mut Bench,
) -> Result<Vec<u8>, Ending>
    requires { 1 ≤ number }
    ensures outcome { Decides (λ answer. answer.items) result
        (spec.LeadsText (λ b. (⟦<dyn Seat as Seat>⟧ b.vtable).account b.value)
        (bench_sides bench.old) (bench_sides bench.new)
        asks number text.items) }
    ensures bench { LeavesSeats (λ b. (⟦<dyn Seat as Seat>⟧ b.vtable).account b.value)
        (Lead asks number) (ending_of result) text.items
        (bench_sides bench.old) (bench_sides bench.new) }
{
    let file = match read_plan(alloc, &text) {
        Ok(file) => file,
        Err(fault) => return Err(Ending::from(fault)),
    };
    drop(text);
    answer_to(alloc, asks, number, file, bench)
}
