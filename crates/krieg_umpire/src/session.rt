ghost use Rattle.krieg_umpire.specs.Laws.{AreTries, IsGame};
ghost use Rattle.krieg_umpire.specs.Sessions.{state_of};

use crate::verdict::{Event, Stop};
use krieg_board::{Position, know_squares, know_valid};
use krieg_words::Dialect;

/// A game as it was tried: the umpire's dialect, the position in which it began, the tries of both
/// players in the order in which they came, and why it stopped, where that is told.
///
/// In contracts it is a `SessionState`.
#[derive(Drop)]
pub struct Session {
    pub dialect: Dialect,
    pub start: Position,
    pub events: Vec<Event>,
    pub stop: Option<Stop>,
}

fn know_tries(events: &[Event])
    ensures { AreTries events.now }
{
    for event in events {
        know_squares(&event.mv);
    }
}

/// Tells a proof that the start is valid, and that each try is a move between two squares of the board.
pub(crate) fn know_game(s: &Session)
    ensures { IsGame (state_of s.now) }
{
    know_valid(&s.start);
    know_tries(&s.events);
}
