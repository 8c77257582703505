// One side of a game, as its turns need it.
ghost use Rattle.std.specs.Prelude.{option_to_list};
ghost use Rattle.krieg_play.specs.Calls.{lines_to};

use crate::AskOutcome;
use krieg_board::{Position, Side};
use krieg_seats::SeatFault;
use krieg_umpire::Judged;
use krieg_wordtext::Line;

/// A side of a game: one player, or some who relieve one another.
pub trait Player {
    ghost use Rattle.krieg_play.specs.Players.{Asking, Telling};

    // It may be asked and told.
    ghost is_ready: { Self → Type 0 };

    // What each of its calls makes of it.
    ghost asks: { Asking Self };

    ghost hears: { Telling Self };

    /// Asks for a try. Its lines so far are those of the log.
    fn ask(&mut self, start: &Position, who: Side, log: &[Judged]) -> Result<AskOutcome, SeatFault>
        requires { is_ready self.old }
        ensures asks { asks (lines_to start.now who log.now) result self.old self.new }
        ensures ready { is_ready self.new };

    /// Tells a line, where there is one, which is the last of its lines so far.
    fn tell(
        &mut self,
        line: Option<Line>,
        start: &Position,
        who: Side,
        log: &[Judged],
    ) -> Result<(), SeatFault>
        requires { is_ready self.old }
        ensures hears { hears (lines_to start.now who log.now) (option_to_list line) result self.old
            self.new }
        ensures ready { is_ready self.new };
}
