// A lone seat as a side of a game: nobody relieves it.
use crate::AskOutcome;
use crate::player::Player;
use crate::telling::{ask_seat, tell_due};
use krieg_board::{Position, Side};
use krieg_seats::{Say, Seat, SeatFault};
use krieg_umpire::Judged;
use krieg_wordtext::Line;

impl Player for Box<dyn Seat> {
    ghost use Rattle.krieg_play.specs.Calls.{AsksLone, ToldAll};

    ghost is_ready = { λ _. Unit {0} };

    ghost asks = { λ _ r x y. AsksLone r ((Seat-box x).account x.value)
        ((Seat-box y).account y.value) };

    ghost hears = { λ _ due r x y. ToldAll due r ((Seat-box x).account x.value)
        ((Seat-box y).account y.value) };

    fn ask(
        &mut self,
        _start: &Position,
        _who: Side,
        _log: &[Judged],
    ) -> Result<AskOutcome, SeatFault> {
        match ask_seat(self) {
            Ok(Say::Try(mv)) => Ok(AskOutcome::Tried(mv)),
            Ok(Say::Leave) => Ok(AskOutcome::Left),
            Err(fault) => Err(fault),
        }
    }

    fn tell(
        &mut self,
        line: Option<Line>,
        _start: &Position,
        _who: Side,
        _log: &[Judged],
    ) -> Result<(), SeatFault> {
        tell_due(self, line)
    }
}
