// A whole game: the opening words, turn after turn, until it stops.
ghost use Rattle.std.specs.Prelude.{◌≡◌, ◌↔◌, ◌+◌, ◌<◌, ◌≤◌, [], Ok, Err, IfOk, IfErr, OnOk, vec_len};
ghost use Rattle.krieg_board.specs.Validity.{IsValid};
ghost use Rattle.krieg_play.specs.Played.{IsPlayed};
ghost use Rattle.krieg_play.specs.Broken.{Refuses};
ghost use Rattle.krieg_play.specs.Benches.{bench_sides, roster_sides};
ghost use Rattle.krieg_play.specs.Calls.{IsReady};
ghost use Rattle.krieg_play.specs.Passes.{PlaysOn, ComesTo};

use crate::PlayFault;
use crate::bench::Bench;
use crate::table::{pass, relieved_count, rosters, seat};
use crate::team::Roster;
use crate::turns::tell_both;
use krieg_board::{NoMemory, Position, Side};
use krieg_moves::has_move;
use krieg_seats::Seat;
use krieg_umpire::{Game, Stop};
use krieg_words::opening;
use krieg_wordtext::Line;
use std::alloc::Global;

/// A game that was played, and why it stopped.
#[derive(Drop)]
pub struct Played {
    /// The game, with the tries that were judged.
    pub game: Game,
    /// It has ended, or the last seat of the side to move left, or as many asks were used as were allowed.
    pub stop: Stop,
}

/// Plays on until the game stops. `seats` is how many seats stood in both lists when the call began.
fn play_on(
    white: &mut Roster,
    black: &mut Roster,
    start: &Position,
    game: &mut Game,
    seats: usize,
) -> Result<Stop, PlayFault>
    requires white { IsReady white.old.seats white.old.out }
    requires black { IsReady black.old.seats black.old.out }
    requires seats { vec_len white.old.seats + vec_len black.old.seats ≤ seats }
    ensures plays { PlaysOn (λ b. account b) result start.now seats
        (roster_sides white.old black.old) (roster_sides white.new black.new)
        game.old game.new }
{
    'turns: loop {
        if !has_move(game.position()) {
            return Ok(Stop::Ended);
        }
        if game.spare() <= relieved_count(white, black, seats) {
            return Ok(Stop::AsksUsed);
        }
        match pass(white, black, start, game, seats) {
            Ok(None) => {}
            Ok(Some(who)) => return Ok(Stop::Left(who)),
            Err(fault) => return Err(fault),
        }
    }
}

/// Tells both sides the opening words, and plays on.
fn play_game(
    white: &mut Roster,
    black: &mut Roster,
    start: &Position,
    game: &mut Game,
) -> Result<Stop, PlayFault>
    requires white { IsReady white.old.seats white.old.out }
    requires black { IsReady black.old.seats black.old.out }
    requires position { game.old.position ≡ start.now }
    requires log { game.old.log ≡ [] }
    ensures plays { ComesTo (λ b. account b) result start.now game.old.spare
        (roster_sides white.old black.old) (roster_sides white.new black.new)
        game.new }
{
    let seats = white.seats.len() + black.seats.len();
    let lines = (
        Some(Line::Opens(opening(start))),
        Some(Line::Opens(opening(start))),
    );
    match tell_both(white, black, lines, start, game.log()) {
        Ok(()) => play_on(white, black, start, game, seats),
        Err(fault) => Err(fault),
    }
}

/// Takes the places of all tries and of all reliefs.
fn reserve(bench: &mut Bench, game: &mut Game, asks: usize) -> Result<(), NoMemory>
    requires white { 0 < vec_len bench.old.white }
    requires black { 0 < vec_len bench.old.black }
    requires spare { game.old.spare ≡ 0 }
    ensures kept { (bench.new.white.items ≡ bench.old.white.items)
        × (bench.new.white_out.items ≡ bench.old.white_out.items)
        × (bench.new.black.items ≡ bench.old.black.items)
        × (bench.new.black_out.items ≡ bench.old.black_out.items) }
    ensures game { OnOk result (game.new ≡ record game.old { spare = asks }) }
    ensures white { OnOk result (IsReady bench.new.white bench.new.white_out) }
    ensures black { OnOk result (IsReady bench.new.black bench.new.black_out) }
{
    game.reserve(asks)?;
    bench.white_out.reserve(bench.white.len())?;
    bench.black_out.reserve(bench.black.len())?;
    Ok(())
}

/// Lets the seats of the bench play a game from this position, in which at most `asks` tries are judged.
///
/// Both sides are told the opening words, White first. Then the first seat of the side to move is asked; its try is
/// judged, and White and after him Black is told what he hears of it. The game stops where it has ended, where the
/// tries and the relieved seats together are as many as `asks`, or where the last seat of the side to move leaves.
///
/// A seat that fails or leaves is relieved where another stands behind it: it is moved to the end of its side's out
/// list, and nothing more is asked of it or told to it. The next seat is told all lines of its side so far, and is
/// itself relieved where it fails then. The game goes on with what follows.
///
/// So all seats together are asked at most `asks` times, and at most as often as tries are judged and seats
/// relieved, but for one ask by which a side leaves or the game is given up. Each seat is asked once for each of its
/// tries, and at most once more: exactly once more where it leaves, and not at all where it sits when the game stops.
/// Each ask comes while the tries and the relieved seats together are fewer than `asks`.
///
/// Room for all tries and reliefs is taken before the first call of a seat.
///
/// # Errors
///
/// `Vacant` comes exactly where a side has no seat, White's list being looked at first; nothing has changed then.
/// `Seat` comes only where a call of the last seat of that side failed: its count of faults rose, and the game is
/// given up at once: nothing is asked or told any more. So it is after `NoMemory`, a seat's own or that of the call.
/// Where White's seat failed when both sides were to be told, Black was told nothing. The seats have then said and
/// heard what they did so far, and those that were relieved stand in their out lists.
pub fn play(
    alloc: Global,
    start: Position,
    bench: &mut Bench,
    asks: usize,
) -> Result<Played, PlayFault>
    requires valid { IsValid start }
    ensures played { IfOk result (λ p. IsPlayed (λ b. account b) start asks
        (bench_sides bench.old) (bench_sides bench.new)
        p.game p.stop) }
    ensures refused { IfErr result (Refuses (λ b. account b) start asks
        (bench_sides bench.old) (bench_sides bench.new)) }

    // A side without a seat is the only cause of its fault, and always one.
    ensures no_white { (result ≡ Err (PlayFault.Vacant Side.White)) ↔ (bench.old.white.items ≡ []) }
    ensures no_black { (result ≡ Err (PlayFault.Vacant Side.Black))
        ↔ ((0 < vec_len bench.old.white) × (bench.old.black.items ≡ [])) }
{
    if bench.white.is_empty() {
        return Err(PlayFault::Vacant(Side::White));
    }
    if bench.black.is_empty() {
        return Err(PlayFault::Vacant(Side::Black));
    }
    let mut game = Game::start(alloc, start);
    match reserve(bench, &mut game, asks) {
        Ok(()) => {}
        Err(NoMemory) => return Err(PlayFault::NoMemory),
    }
    let (mut white, mut black) = rosters(alloc, bench);
    let answer = play_game(&mut white, &mut black, &start, &mut game);
    seat(bench, white, black);
    match answer {
        Ok(stop) => Ok(Played { game, stop }),
        Err(fault) => Err(fault),
    }
}
