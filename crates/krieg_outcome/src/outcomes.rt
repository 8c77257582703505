ghost use Rattle.std.specs.Prelude.{◌≡◌, false};
ghost use Rattle.krieg_args.specs.Command.{IsInRange};
ghost use Rattle.krieg_play.specs.Benches.{bench_sides};
ghost use Rattle.krieg_outcome.specs.Parts.{Decides, LeavesSeats, ending_of, bytes_of, is_in_pieces};
ghost use Rattle.krieg_outcome.specs.Live.{LivesBy};
ghost use Rattle.krieg_outcome.specs.Outcome as spec;

use crate::answer::{CommandAnswer, in_pieces, whole};
use crate::commands::search::SearchKind;
use crate::commands::{
    advise, believe, check, conduct, deny, job, judge, lead, make, next, play, refute, san, search,
    umpire, unsan, why,
};
use crate::ending::Ending;
use krieg_args::Command;
use krieg_play::Bench;
use krieg_seats::Seat;
use std::alloc::Global;

/// What a command that answers with one text makes of its text, whose memory is given back once it is read.
fn whole_outcome(
    alloc: Global,
    command: &Command,
    text: Vec<u8>,
    bench: &mut Bench,
) -> Result<Vec<u8>, Ending>
    requires range { IsInRange command.now }
    requires one_text { is_in_pieces command.now ≡ false }
    ensures outcome { let live = LivesBy (λ b. (⟦<dyn Seat as Seat>⟧ b.vtable).account b.value)
        (bench_sides bench.old) (bench_sides bench.new) in
        Decides (λ answer. answer.items) result (spec.HasOutcome live command.now text.items) }
    ensures bench { LeavesSeats (λ b. (⟦<dyn Seat as Seat>⟧ b.vtable).account b.value) command.now
        (ending_of result) text.items (bench_sides bench.old) (bench_sides bench.new) }
{
    match command {
        Command::Solve {
            moves,
            budget,
            limit,
        } => search::answer(alloc, SearchKind::Solve, *moves, *budget, *limit, text),
        Command::Find {
            moves,
            budget,
            limit,
        } => search::answer(alloc, SearchKind::Find, *moves, *budget, *limit, text),
        Command::Keys {
            moves,
            budget,
            limit,
        } => search::answer(alloc, SearchKind::Keys, *moves, *budget, *limit, text),
        Command::Share {
            moves,
            budget,
            limit,
        } => search::answer(alloc, SearchKind::Share, *moves, *budget, *limit, text),
        Command::Check { budget } => check::answer(alloc, *budget, text),
        Command::Judge { budget } => judge::answer(alloc, *budget, text),
        Command::Refute { .. } => unreachable!(),
        Command::Deny { budget } => deny::answer(alloc, *budget, text),
        Command::Believe { limit } => believe::answer(alloc, *limit, text),
        Command::Why { limit } => why::answer(alloc, *limit, text),
        Command::Umpire { who } => umpire::answer(alloc, *who, text),
        Command::San => san::answer(alloc, text),
        Command::Unsan => unsan::answer(alloc, text),
        Command::Play { asks } => play::answer(alloc, *asks, text, bench),
        Command::Lead { asks, number } => lead::answer(alloc, *asks, *number, text, bench),
        Command::Next => next::answer(alloc, text),
        Command::Advise => advise::answer(alloc, text),
        Command::Conduct { asks, number } => conduct::answer(alloc, *asks, *number, text, bench),
        Command::Make { what, number } => make::answer(alloc, *what, *number),
        Command::Job { number } => job::answer(alloc, *number),
    }
}

/// What the command makes of its text.
pub fn outcome(
    alloc: Global,
    command: &Command,
    text: Vec<u8>,
    bench: &mut Bench,
) -> Result<CommandAnswer, Ending>
    requires { IsInRange command.now }
    ensures outcome { let live = LivesBy (λ b. (⟦<dyn Seat as Seat>⟧ b.vtable).account b.value)
        (bench_sides bench.old) (bench_sides bench.new) in
        Decides bytes_of result (spec.HasOutcome live command.now text.items) }
    ensures bench { LeavesSeats (λ b. (⟦<dyn Seat as Seat>⟧ b.vtable).account b.value) command.now
        (ending_of result) text.items (bench_sides bench.old) (bench_sides bench.new) }
{
    match command {
        Command::Refute {
            moves,
            budget,
            limit,
        } => { in_pieces(refute::answer(alloc, *moves, *budget, *limit, text)) }
        _ => whole(whole_outcome(alloc, command, text, bench)),
    }
}
