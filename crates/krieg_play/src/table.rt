// Both sides at the table.
ghost use Rattle.std.specs.Prelude.{◌≡◌, ◌+◌, ◌-◌, ◌<◌, ◌≤◌, None, IfOk, IfSome, Ok, length, vec_len};
ghost use Rattle.krieg_play.specs.Benches.{bench_sides, roster_sides};
ghost use Rattle.krieg_play.specs.Played.{by_side};
ghost use Rattle.krieg_play.specs.Calls.{IsReady};
ghost use Rattle.krieg_play.specs.Passes.{Passes};

use crate::PlayFault;
use crate::bench::Bench;
use crate::team::Roster;
use crate::turns::take_turn;
use krieg_board::{Position, Side};
use krieg_seats::Seat;
use krieg_umpire::Game;
use krieg_words::Dialect;
use std::alloc::Global;
use std::mem::replace;

/// Both sides of the bench, which has no seats then.
pub(crate) fn rosters(alloc: Global, bench: &mut Bench) -> (Roster, Roster)
    ensures sides { roster_sides result.0 result.1 ≡ bench_sides bench.old }
    ensures white { IsReady bench.old.white bench.old.white_out → IsReady result.0.seats
        result.0.out }
    ensures black { IsReady bench.old.black bench.old.black_out → IsReady result.1.seats
        result.1.out }
{
    let white = Roster {
        seats: replace(&mut bench.white, Vec::new(alloc)),
        out: replace(&mut bench.white_out, Vec::new(alloc)),
    };
    let black = Roster {
        seats: replace(&mut bench.black, Vec::new(alloc)),
        out: replace(&mut bench.black_out, Vec::new(alloc)),
    };
    (white, black)
}

/// Seats both sides on the bench again.
pub(crate) fn seat(bench: &mut Bench, white: Roster, black: Roster)
    ensures { bench_sides bench.new ≡ roster_sides white black }
{
    bench.white = white.seats;
    bench.white_out = white.out;
    bench.black = black.seats;
    bench.black_out = black.out;
}

/// How many seats were relieved, where so many stood in both lists when the call began.
pub(crate) fn relieved_count(white: &Roster, black: &Roster, seats: usize) -> usize
    requires { vec_len white.now.seats + vec_len black.now.seats ≤ seats }
    ensures { result ≡ seats - (vec_len white.now.seats + vec_len black.now.seats) }
{
    seats - (white.seats.len() + black.seats.len())
}

/// Asks the side to move, and judges its try. It gives the side whose last seat left.
///
/// This is the one call in which seats are asked, and it is made only while the tries and the relieved seats
/// together are fewer than the asks.
pub(crate) fn pass(
    white: &mut Roster,
    black: &mut Roster,
    start: &Position,
    game: &mut Game,
    seats: usize,
) -> Result<Option<Side>, PlayFault>
    requires white { IsReady white.old.seats white.old.out }
    requires black { IsReady black.old.seats black.old.out }
    requires seats { vec_len white.old.seats + vec_len black.old.seats ≤ seats }
    requires asks { seats - (vec_len white.old.seats + vec_len black.old.seats) < game.old.spare }
    ensures passes { Passes (λ b. account b) result start.now seats
        (roster_sides white.old black.old) (roster_sides white.new black.new)
        game.old game.new }
    ensures no_more { vec_len white.new.seats + vec_len black.new.seats
        ≤ vec_len white.old.seats + vec_len black.old.seats }
    ensures nearer { result ≡ Ok None → game.new.spare
        + (vec_len white.new.seats + vec_len black.new.seats)
        < game.old.spare + (vec_len white.old.seats + vec_len black.old.seats) }
    ensures left { IfOk result (λ left. IfSome left
        (λ who. (game.new ≡ game.old) × (who ≡ game.old.position.side)
        × (vec_len white.new.seats + vec_len black.new.seats ≡ vec_len white.old.seats
        + vec_len black.old.seats)
        × (length (by_side white.new.seats.items black.new.seats.items who) ≡ 1))) }
    ensures white { IsReady white.new.seats white.new.out }
    ensures black { IsReady black.new.seats black.new.out }
{
    // The tries and the relieved seats together are fewer than the asks.
    prove!(relieved_count(white, black, seats) < game.spare());
    take_turn(white, black, start, game, Dialect::Wild16)
}
