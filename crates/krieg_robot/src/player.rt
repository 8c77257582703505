// The seat of a guide as a side of a game: nobody relieves it, and it never fails.
use crate::guide::Guide;
use crate::seat::{GuidedSeat, ask_own, tell_own};
use krieg_board::{Position, Side};
use krieg_play::{AskOutcome, Player};
use krieg_seats::SeatFault;
use krieg_umpire::Judged;
use krieg_wordtext::Line;

impl<G: Guide> Player for GuidedSeat<G> {
    ghost use Rattle.krieg_robot.specs.Turns.{AsksOwn, HearsOwn};

    ghost is_ready = { λ _. Unit {0} };

    ghost asks = { λ _ r s t. AsksOwn r s t };

    ghost hears = { λ _ due r s t. HearsOwn due r s t };

    fn ask(
        &mut self,
        _start: &Position,
        _who: Side,
        _log: &[Judged],
    ) -> Result<AskOutcome, SeatFault> {
        ask_own(self)
    }

    fn tell(
        &mut self,
        line: Option<Line>,
        _start: &Position,
        _who: Side,
        _log: &[Judged],
    ) -> Result<(), SeatFault> {
        tell_own(self, line)
    }
}
