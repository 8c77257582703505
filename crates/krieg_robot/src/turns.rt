// What one turn of a game makes of a seat that follows a guide, of its opponent and of their game.
ghost use Rattle.std.specs.Prelude.{◌≡◌, ◌<◌, ◌∷◌, [], Ok, None, IfOk, IfSome};
ghost use Rattle.krieg_robot.specs.Turns.{BothTold, Passes, lead};

use crate::guide::Guide;
use crate::led::LeadFault;
use crate::seat::GuidedSeat;
use krieg_board::{Position, Side};
use krieg_play as play;
use krieg_play::PlayFault;
use krieg_seats::Seat;
use krieg_umpire::{Game, Judged};
use krieg_wordtext::Line;

/// The answer of two players, as that of a game that is led.
fn led_answer<A>(answer: Result<A, PlayFault>) -> Result<A, LeadFault>
    ensures { result ≡ lead answer }
{
    match answer {
        Ok(answer) => Ok(answer),
        Err(fault) => Err(LeadFault::from(fault)),
    }
}

/// Tells both a line, White first. The seat has the side of its guide.
pub(crate) fn tell_both<G: Guide>(
    seat: &mut GuidedSeat<G>,
    other: &mut Box<dyn Seat>,
    line: &Line,
    start: &Position,
    log: &[Judged],
) -> Result<(), LeadFault>
    ensures { BothTold result seat.old.guide.side seat.old seat.new (line.now ∷ [])
        (account other.old) (account other.new) (line.now ∷ []) }
{
    let lines = (Some(*line), Some(*line));
    match seat.guide().side() {
        Side::White => led_answer(play::tell_both(seat, other, lines, start, log)),
        Side::Black => led_answer(play::tell_both(other, seat, lines, start, log)),
    }
}

/// Asks the side to move, and judges its try. It gives the side that left.
pub(crate) fn take_turn<G: Guide>(
    seat: &mut GuidedSeat<G>,
    other: &mut Box<dyn Seat>,
    start: &Position,
    game: &mut Game,
) -> Result<Option<Side>, LeadFault>
    requires { 0 < game.old.spare }
    ensures passes { Passes result (account other.old) (account other.new) seat.old seat.new
        game.old game.new }
    ensures nearer { result ≡ Ok None → game.new.spare < game.old.spare }
    ensures left { IfOk result (λ left. IfSome left (λ who. game.new ≡ game.old)) }
{
    let d = seat.guide().dialect();
    match seat.guide().side() {
        Side::White => led_answer(play::take_turn(seat, other, start, game, d)),
        Side::Black => led_answer(play::take_turn(other, seat, start, game, d)),
    }
}
