// The text of a game that was played or led.
ghost use Rattle.std.specs.Prelude.{◌≡◌, IfOk};
ghost use Rattle.krieg_play.specs.Games.{events_of};
ghost use Rattle.krieg_umpire.specs.SessionText.{session_text};
ghost use Rattle.krieg_outcome.specs.Recorded as spec;

use krieg_board::{NoMemory, Position};
use krieg_umpire::{Event, Game, Judged, Session, Stop, write_session};
use krieg_words::Dialect;
use std::alloc::Global;

/// The tries of a log.
fn events(alloc: Global, log: &[Judged]) -> Result<Vec<Event>, NoMemory>
    ensures { IfOk result (λ events. events.items ≡ events_of log.now) }
{
    Ok(log.iter().map(|judged| judged.event).collect(alloc)?)
}

/// The text of the session of a game that began in that position and stopped so.
pub(crate) fn recorded(
    alloc: Global,
    dialect: Dialect,
    start: &Position,
    game: &Game,
    stop: Stop,
) -> Result<Vec<u8>, NoMemory>
    ensures { IfOk result (λ text. text.items
        ≡ session_text (spec.session_of dialect start.now game.now stop)) }
{
    let session = Session {
        dialect,
        start: *start,
        events: events(alloc, game.log())?,
        stop: Some(stop),
    };
    let mut text = Vec::new(alloc);
    write_session(&session, &mut text)?;
    Ok(text)
}
