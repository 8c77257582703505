// A game that a guide leads, from its opening words until it stops.
ghost use Rattle.std.specs.Prelude.{◌≡◌, ◌≤◌, [], IfOk, IfErr, length};
ghost use Rattle.krieg_seats.specs.Accounts.{new_account};
ghost use Rattle.krieg_plan.specs.OneTurn.{IsOneTurn};
ghost use Rattle.krieg_robot.specs.Leading.{LedFrom, BrokenFrom, IsWon};
ghost use Rattle.krieg_robot.specs.Laws.{Mates};
ghost use Rattle.krieg_robot.specs.Turns.{LeadsOn, ComesTo};

use crate::guide::Guide;
use crate::led::{LeadFault, Led};
use crate::seat::GuidedSeat;
use crate::turns::{take_turn, tell_both};
use krieg_board::{NoMemory, Position};
use krieg_moves::has_move;
use krieg_seats::Seat;
use krieg_umpire::{Game, Stop};
use krieg_words::opening;
use krieg_wordtext::{Line, told_line};
use std::alloc::Global;

/// Goes on until the game stops.
fn lead_on<G: Guide>(
    seat: &mut GuidedSeat<G>,
    other: &mut Box<dyn Seat>,
    start: &Position,
    game: &mut Game,
) -> Result<Stop, LeadFault>
    ensures { LeadsOn result (account other.old) (account other.new) seat.old game.old game.new }
{
    'turns: loop {
        if !has_move(game.position()) {
            return Ok(Stop::Ended);
        }
        if game.spare() == 0 {
            return Ok(Stop::AsksUsed);
        }
        match take_turn(seat, other, start, game) {
            Ok(None) => {}
            Ok(Some(who)) => return Ok(Stop::Left(who)),
            Err(fault) => return Err(fault),
        }
    }
}

/// Tells both the opening words, and goes on.
fn lead_game<G: Guide>(
    seat: &mut GuidedSeat<G>,
    other: &mut Box<dyn Seat>,
    start: &Position,
    game: &mut Game,
) -> Result<Stop, LeadFault>
    requires account { seat.old.account ≡ new_account }
    requires position { game.old.position ≡ start.now }
    requires log { game.old.log ≡ [] }
    ensures { ComesTo result seat.old.guide start.now game.old.spare (account other.old)
        (account other.new) game.new }
{
    let line = told_line(seat.guide().dialect(), Line::Opens(opening(start)));
    match tell_both(seat, other, &line, start, game.log()) {
        Ok(()) => lead_on(seat, other, start, game),
        Err(fault) => Err(fault),
    }
}

/// Plays a guide from its listed position with this number, counted from 1, against an opponent, until the game stops.
///
/// A `GuidedSeat` has the guide's side, and `other` the opposite one. Both are told the opening words, White first. Then
/// the side to move is asked; its try is judged, and White and after him Black is told what he hears of it, all in
/// the guide's dialect. The game stops where it has ended, where `asks` tries were judged, or where the side to move
/// leaves, which the side of the guide does exactly where its plan has no try.
///
/// Where the plan mates, its side never leaves and makes at most as many moves as the guide claims, and where the game
/// has ended the opponent is mated.
///
/// Room for all tries is taken before the first call of `other`.
///
/// # Errors
///
/// `Seat` comes only where a call of `other` failed: his count of faults rose, and the game is given up at once. So it
/// is after `NoMemory`. He has then said and heard what he did so far: all but a part of the opening words or of the
/// last turn, in which he was asked at most once.
pub fn lead<G: Guide>(
    alloc: Global,
    guide: G,
    number: usize,
    other: &mut Box<dyn Seat>,
    asks: usize,
) -> Result<Led, LeadFault>
    requires turn { IsOneTurn (G.guidance guide).list }
    requires some { 1 ≤ number }
    requires listed { number ≤ length (G.guidance guide).list }
    ensures led { IfOk result (LedFrom (G.guidance guide) number asks
        (account other.old) (account other.new)) }
    ensures won { IfOk result (λ l. Mates (G.guidance guide)
        → IsWon (G.guidance guide) l.game l.stop) }
    ensures broken { IfErr result (BrokenFrom (G.guidance guide) number asks
        (account other.old) (account other.new)) }
{
    let start = guide.list()[number - 1];
    let start = &start;
    let mut game = Game::start(alloc, *start);
    match game.reserve(asks) {
        Ok(()) => {}
        Err(NoMemory) => return Err(LeadFault::NoMemory),
    }
    let mut seat = GuidedSeat::new(alloc, guide);
    match lead_game(&mut seat, other, start, &mut game) {
        Ok(stop) => Ok(Led { game, stop }),
        Err(fault) => Err(fault),
    }
}
