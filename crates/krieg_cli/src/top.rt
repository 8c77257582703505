ghost use Rattle.std.specs.Prelude.{◌≡◌, false, Some};
ghost use Rattle.krieg_args.specs.declared.command.Command.{Command as Asked};
ghost use Rattle.krieg_args.specs.Command.{takes_input, IsInRange};
ghost use Rattle.krieg_cli.specs.World.{stream, world};
ghost use Rattle.krieg_play.specs.Benches.{bench_sides};
ghost use Rattle.krieg_outcome.specs.Parts.{ending_of};
ghost use Rattle.krieg_outcome.specs.Live.{LivesBy};
ghost use Rattle.krieg_cli.specs.Top.{Ends, Runs, IsRun, LeavesBench, asked_by, asked_to_find, reads};
ghost use Rattle.krieg_cli.specs.WholeGames.{UmpiresGames, BelievesGames};
ghost use Rattle.krieg_cli.specs.WholePlans.{ChecksSolutions};
ghost use Rattle.krieg_cli.specs.WholeStrategies.{JudgesStrategies};
ghost use Rattle.krieg_cli.specs.WholeRefutations.{RefutesSheets, DeniesRefutations};
ghost use Rattle.krieg_cli.specs.LedGames.{LeadsToMate, ConductsToMate};
ghost use Rattle.krieg_cli.specs.WholeRecords.{ReturnsGames};
ghost use Rattle.krieg_cli.specs.Headline.{SolvesSheets, FindsSheets, ListsKeys, SharesPlans};
ghost use Rattle.krieg_cli.specs.Complete.{Completes};

use crate::answers::write_answer;
use crate::input::taken;
use crate::report::report;
use krieg_args::{Command, command_of, find_of};
use krieg_outcome::{Ending, outcome};
use krieg_play::Bench;
use krieg_ports::{Sink, Source};
use krieg_seats::Seat;
use std::alloc::Global;

/// Takes the input of the command, and writes its answer to `out`.
fn answer<S: Source, O: Sink>(
    alloc: Global,
    command: &Command,
    input: &mut S,
    out: &mut O,
    bench: &mut Bench,
) -> Result<(), Ending>
    requires { IsInRange command.now }
    ensures ends { let live = LivesBy (λ b. (⟦<dyn Seat as Seat>⟧ b.vtable).account b.value)
        (bench_sides bench.old)
        (bench_sides bench.new) in
        let seen = world S.left S.faults O.got O.faults in
        Ends live (ending_of result) command.now (seen input.old out.old) (seen input.new out.new) }
    ensures bench { let seen = stream S.left S.faults in
        LeavesBench (λ b. (⟦<dyn Seat as Seat>⟧ b.vtable).account b.value)
        (Some command.now) (ending_of result) (seen input.old)
        (seen input.new)
        (bench_sides bench.old) (bench_sides bench.new) }
    ensures unread { takes_input command.now ≡ false → input.new ≡ input.old }
{
    let text = taken(alloc, command, input)?;
    let answer = outcome(alloc, command, text, bench)?;
    write_answer(out, &answer)?;
    Ok(())
}

/// Does what was asked, if the words were a command.
fn obey<S: Source, O: Sink>(
    alloc: Global,
    asked: Option<Command>,
    input: &mut S,
    out: &mut O,
    bench: &mut Bench,
) -> Ending
    requires { (c : Asked) → asked ≡ Some c → IsInRange c }
    ensures runs { let live = LivesBy (λ b. (⟦<dyn Seat as Seat>⟧ b.vtable).account b.value)
        (bench_sides bench.old)
        (bench_sides bench.new) in
        let seen = world S.left S.faults O.got O.faults in
        Runs live result asked (seen input.old out.old) (seen input.new out.new) }
    ensures bench { let seen = stream S.left S.faults in
        LeavesBench (λ b. (⟦<dyn Seat as Seat>⟧ b.vtable).account b.value)
        asked result (seen input.old) (seen input.new)
        (bench_sides bench.old) (bench_sides bench.new) }
    ensures unread { reads asked ≡ false → input.new ≡ input.old }
{
    let Some(command) = asked else {
        return Ending::Usage;
    };
    match answer(alloc, &command, input, out, bench) {
        Ok(()) => Ending::Answered,
        Err(ending) => ending,
    }
}

/// Does all that the program does, over streams, and gives the status with which it ends.
///
/// The commands, by what they take:
///
/// - any session: `umpire w`, `umpire b` and `umpire all`, for which `out` gets the player's sheet or the lines of both, and
///   `san`, for which it gets the record of the moves that were made;
/// - any record: `unsan`, for which it gets the session of these moves;
/// - any sheet: `believe LIMIT`, for which it gets a sheet that lists every position that is still possible; `why LIMIT`, for which
///   it gets the text of the least hidden game that explains each of these; `solve MOVES BUDGET LIMIT`, for which it gets the plan
///   file of the canonical plan that mates from each of these within the fewest own moves, or the line `none MOVES` exactly where
///   no plan mates within that number; and `refute MOVES BUDGET LIMIT`, for which it gets the refutation file that no plan mates
///   from each of these within that number;
/// - any plan file: `check BUDGET`, for which it gets the plan's worst case, and `lead ASKS NUMBER ..`, for which the plan leads a
///   game from the listed position with that number against the first of White's seats, whatever his colour, and it gets their
///   session in the plan's dialect;
/// - any refutation file: `deny BUDGET`, for which it gets the line `refuted N`, where N is the number of moves of the file;
/// - a plan file and the lines that its player heard: `next`, for which it gets what he does next;
/// - a position: `play ASKS ..`, for which the seats of the bench play a game and it gets their session;
/// - no input: `make session NUMBER` and `make sheet NUMBER`, for which it gets the made text, and `job NUMBER`, for which it gets
///   the numbers that other commands come to on these.
///
/// The status tells how it ended:
///
/// | Status | Where |
/// | --- | --- |
/// | 0 | exactly with the answer; no call of `input` or of `out` failed then |
/// | 1 | exactly where the words are no command; nothing is read then |
/// | 2 | exactly where one byte more came than the [`MOST_INPUT`](crate::MOST_INPUT) that an input may have, before an end or a fault |
/// | 3, 4 | exactly where the input has a first bad line: 4 at a position that is not valid or not of the first one's hand |
/// | 7 | of a sheet, exactly where more positions are possible after some part of it than the limit allows |
/// | 5 | of `why`, `solve` and `refute`, exactly where no position is possible |
/// | 6 | of `solve` and `refute`, exactly where the game is over, and of `refute` also at the opponent's turn |
/// | 8 | of `solve` and `refute` only where the budget is less than a search may take; of `check` and `deny` exactly where it is less than the look at the file takes; of `job` only where 50,000,000 units are less than its search or its check may take |
/// | 13 | of `check`, exactly where the plan does not mate all that it lists within the number that it claims |
/// | 14 | of `solve` and `job`, exactly where the best plan is too large for a text; of `refute`, exactly where no plan mates and the claims are too many for a text; the budget is not spent then |
/// | 17 | of `refute`, exactly where some plan mates, and the budget is not spent |
/// | 18 | of `deny`, exactly where the refutation does not hold |
/// | 19 | of `why`, exactly where the text of the games has more bytes than an input may have |
/// | 20 | of `lead`, exactly where the plan file lists fewer positions than its number |
/// | 12 | of `play` exactly where a side has no seat, and only where a call of the last seat of a side failed; of `lead` the same for the opponent's side |
/// | 9 | where a read failed, with no more bytes read than an input may have |
/// | 10 | where a write to `out` failed, which has got a front part of the answer then |
/// | 11 | for want of memory |
///
/// At each status but 0 `err` gets one line, and at each but 0 and 10 `out` gets nothing.
///
/// The bench is as it was for every command but `play` and `lead`, and for these where no seat was called: so it is at
/// 1 to 4, 9 and 20, and at 12 for want of a seat. At 11 it is as it was, or the input was read whole and its seats
/// played from the start that it spells, or against the plan, until memory ran out or the game stopped. `lead` leaves
/// every seat but White's first as it was.
#[tactic(auto, using(krieg_args::proofs::Ranges::in_range))]
pub fn run<S: Source, O: Sink, E: Sink>(
    alloc: Global,
    words: &[String],
    input: &mut S,
    out: &mut O,
    err: &mut E,
    bench: &mut Bench,
) -> u8
    ensures ends { let seen = world S.left S.faults O.got O.faults in
        let heard = stream E.got E.faults in
        IsRun (λ b. (⟦<dyn Seat as Seat>⟧ b.vtable).account b.value)
        (bench_sides bench.old) (bench_sides bench.new) (asked_by words.now)
        result
        (seen input.old out.old) (seen input.new out.new) (heard err.old) (heard err.new) }

    // Where nothing is read for the words, the input stays as it is.
    ensures unread { reads (asked_by words.now) ≡ false → input.new ≡ input.old }

    // The headline: what `solve` has written is the best plan for the sheet, or that there is none.
    ensures solves { let seen = world S.left S.faults O.got O.faults in
        let heard = stream E.got E.faults in
        SolvesSheets (asked_by words.now) result
        (seen input.old out.old) (seen input.new out.new) (heard err.old) (heard err.new) }

    // Given a plan that `solve` wrote, `check` writes the number that it states.
    ensures checks { let seen = world S.left S.faults O.got O.faults in
        ChecksSolutions (asked_by words.now) result (seen input.old out.old)
        (seen input.new out.new) }

    // What `refute` has written is a refutation for the sheet: no plan mates within the number of moves.
    ensures refutes { let seen = world S.left S.faults O.got O.faults in
        RefutesSheets (asked_by words.now) result (seen input.old out.old)
        (seen input.new out.new) }

    // Given a refutation that `refute` wrote, `deny` writes its number of moves, and no plan mates within it.
    ensures denies { let seen = world S.left S.faults O.got O.faults in
        DeniesRefutations (asked_by words.now) result (seen input.old out.old)
        (seen input.new out.new) }

    // Given a plan that mates what it lists, `lead` writes a game that is won.
    ensures wins { let seen = world S.left S.faults O.got O.faults in
        LeadsToMate (asked_by words.now) result (seen input.old out.old) (seen input.new out.new) }

    // Where the input is good and nothing is refused for a cause, there is an answer, or memory ran out.
    ensures completes { let seen = world S.left S.faults O.got O.faults in
        Completes (λ b. (⟦<dyn Seat as Seat>⟧ b.vtable).account b.value)
        (bench_sides bench.old) (bench_sides bench.new)
        (asked_by words.now) result
        (seen input.old out.old) (seen input.new out.new) }

    // What `umpire` writes for a player is his sheet of the game, and it is the same without the other
    // player's tries that are not done.
    ensures umpires { let seen = world S.left S.faults O.got O.faults in
        UmpiresGames (asked_by words.now) result (seen input.old out.old) (seen input.new out.new) }

    // Given what `umpire` wrote, `believe` lists the position in which the game stands.
    ensures believes { let seen = world S.left S.faults O.got O.faults in
        BelievesGames (asked_by words.now) result (seen input.old out.old)
        (seen input.new out.new) }

    // Given what `san` wrote of a session, `unsan` writes the session of the tries that were done.
    ensures returns { let seen = world S.left S.faults O.got O.faults in
        ReturnsGames (asked_by words.now) result (seen input.old out.old) (seen input.new out.new) }
{
    let ending = obey(alloc, command_of(words), input, out, bench);
    report(&ending, err);
    ending.status()
}

/// Does all that the program `krieg_find` does, over streams, and gives the status with which it ends.
///
/// The commands, `find`, `keys` and `share` on any sheet and the others on any strategy, with numbers that go further than those of `solve`:
/// [`MOST_FIND_MOVES`](krieg_args::MOST_FIND_MOVES) and [`MOST_FIND_UNITS`](krieg_args::MOST_FIND_UNITS):
///
/// - `find MOVES BUDGET LIMIT`, or these numbers alone, for which `out` gets what `solve` writes: the plan file of the canonical
///   plan that mates from every position that is still possible within the fewest own moves, or the line `none MOVES` exactly where
///   no plan mates within that number. Only the units differ: mostly far fewer are taken, and there is no least number of them that
///   an answer takes;
/// - `keys MOVES BUDGET LIMIT`, for which it gets, for each thing that may be heard before the first own turn, the least number of own
///   moves and every try with which that many are enough; or the line `none MOVES` by the same rule;
/// - `share MOVES BUDGET LIMIT`, for which it gets the plan of `find` as a strategy, or the line `none MOVES` by the same rule;
/// - `judge BUDGET`, for which it gets the worst case of the plan that the strategy unfolds to;
/// - `advise`, on a strategy and the lines that its player heard, for which it gets what he does next who follows that plan;
/// - `conduct ASKS NUMBER ..`, for which that plan leads a game from the listed position with that number against the first of
///   White's seats, whatever his colour, and it gets their session in the strategy's dialect.
///
/// The status tells how it ended, and is that of [`run`] by the same causes:
///
/// | Status | Where |
/// | --- | --- |
/// | 0 | exactly with the answer; no call of `input` or of `out` failed then |
/// | 1 | exactly where the words are none of these commands; nothing is read then |
/// | 2 | exactly where one byte more came than the [`MOST_INPUT`](crate::MOST_INPUT) that an input may have, before an end or a fault |
/// | 3, 4 | exactly where the input has a first bad line: 4 at a position that is not valid or not of the first one's hand |
/// | 5 | of a sheet, exactly where no position is possible |
/// | 6 | of a sheet, exactly where the game is over |
/// | 7 | of a sheet, exactly where more positions are possible after some part of it than the limit allows |
/// | 8 | of `find`, `keys` and `share` only where the budget is less than a search may take; of `judge` exactly where it is less than the judgement takes |
/// | 13 | of `judge`, exactly where the plan does not mate all that is listed within the number that the strategy claims |
/// | 14 | of `find` and `share`, exactly where the best plan is too large for a text or for a strategy; the budget is not spent then |
/// | 20 | of `conduct`, exactly where the strategy lists fewer positions than its number |
/// | 12 | of `conduct`, exactly where the opponent has no seat, and only where a call of his seat failed |
/// | 9 | where a read failed, with no more bytes read than an input may have |
/// | 10 | where a write to `out` failed, which has got a front part of the answer then |
/// | 11 | for want of memory |
///
/// At each status but 0 `err` gets one line, and at each but 0 and 10 `out` gets nothing. The bench is as it was for every command
/// but `conduct`, and for that one as [`run`] leaves it for `lead`.
#[tactic(auto, using(krieg_args::proofs::Ranges::find_in_range))]
pub fn run_find<S: Source, O: Sink, E: Sink>(
    alloc: Global,
    words: &[String],
    input: &mut S,
    out: &mut O,
    err: &mut E,
    bench: &mut Bench,
) -> u8
    ensures ends { let seen = world S.left S.faults O.got O.faults in
        let heard = stream E.got E.faults in
        IsRun (λ b. (⟦<dyn Seat as Seat>⟧ b.vtable).account b.value)
        (bench_sides bench.old) (bench_sides bench.new) (asked_to_find words.now)
        result
        (seen input.old out.old) (seen input.new out.new) (heard err.old) (heard err.new) }

    // Where the words are no command, the input stays as it is.
    ensures unread { reads (asked_to_find words.now) ≡ false → input.new ≡ input.old }

    // The headline: what `find` has written is the best plan for the sheet, or that there is none.
    ensures finds { let seen = world S.left S.faults O.got O.faults in
        let heard = stream E.got E.faults in
        FindsSheets (asked_to_find words.now) result
        (seen input.old out.old) (seen input.new out.new) (heard err.old) (heard err.new) }

    // What `keys` has written are all first tries that are as fast as any, or that no plan mates.
    ensures keys { let seen = world S.left S.faults O.got O.faults in
        let heard = stream E.got E.faults in
        ListsKeys (asked_to_find words.now) result
        (seen input.old out.old) (seen input.new out.new) (heard err.old) (heard err.new) }

    // What `share` has written is the best plan for the sheet as a strategy, or that there is none.
    ensures shares { let seen = world S.left S.faults O.got O.faults in
        let heard = stream E.got E.faults in
        SharesPlans (asked_to_find words.now) result
        (seen input.old out.old) (seen input.new out.new) (heard err.old) (heard err.new) }

    // What `judge` has written is the worst case of the plan that the strategy unfolds to.
    ensures judges { let seen = world S.left S.faults O.got O.faults in
        let heard = stream E.got E.faults in
        JudgesStrategies (asked_to_find words.now) result
        (seen input.old out.old) (seen input.new out.new) (heard err.old) (heard err.new) }

    // Given a strategy whose plan mates what is listed, `conduct` writes a game that is won.
    ensures wins { let seen = world S.left S.faults O.got O.faults in
        ConductsToMate (asked_to_find words.now) result
        (seen input.old out.old) (seen input.new out.new) }

    // Where the input asks for an answer and the budget is as much as a search may take, there is one, or memory ran out.
    ensures completes { let seen = world S.left S.faults O.got O.faults in
        Completes (λ b. (⟦<dyn Seat as Seat>⟧ b.vtable).account b.value)
        (bench_sides bench.old) (bench_sides bench.new)
        (asked_to_find words.now) result
        (seen input.old out.old) (seen input.new out.new) }
{
    let ending = obey(alloc, find_of(words), input, out, bench);
    report(&ending, err);
    ending.status()
}
