ghost use Rattle.std.specs.Prelude.{◌≡◌, Ok};
ghost use Rattle.krieg_text.specs.Lines.{lines};
ghost use Rattle.krieg_text.specs.Reading.{whole};
ghost use Rattle.krieg_text.specs.Writing.{PutsPieces, PutsLines, Appends};
ghost use Rattle.krieg_umpire.specs.Laws.{IsGame};
ghost use Rattle.krieg_umpire.specs.SessionReading.{session_at};
ghost use Rattle.krieg_umpire.specs.SessionSpelling.{SpellsSession};
ghost use Rattle.krieg_umpire.specs.Sessions.{state_of};
ghost use Rattle.krieg_umpire.specs.SessionText as spec;

use crate::session::{Session, know_game};
use crate::verdict::{Event, Stop};
use krieg_board::{NoMemory, Side};
use krieg_fen::{put_move, put_position, side_mark};
use krieg_text::Text;
use krieg_wordtext::put_version_lines;

/// Adds the line of a try, without its line feed.
pub fn put_event(event: &Event, text: &mut Text) -> Result<(), NoMemory>
    ensures { PutsPieces result text.old text.new (spec.event_line event.now) }
{
    text.put(side_mark(event.who))?;
    put_move(event.mv, text)
}

fn last_line(stop: &Option<Stop>) -> &'static [u8]
    ensures { result.now ≡ spec.last_text stop.now }
{
    match stop {
        None => b"end",
        Some(Stop::Ended) => b"end over",
        Some(Stop::Left(Side::White)) => b"end left w",
        Some(Stop::Left(Side::Black)) => b"end left b",
        Some(Stop::AsksUsed) => b"end asks",
    }
}

/// Adds the lines of the session.
#[tactic(auto, using(krieg_text::proofs::Writings::writings))]
pub fn put_session(s: &Session, text: &mut Text) -> Result<(), NoMemory>
    ensures { PutsLines result text.old text.new (spec.session_lines (state_of s.now)) }
{
    put_version_lines(b"krieg session ", s.dialect, text)?;
    text.put(b"start ")?;
    put_position(&s.start, text)?;
    text.end_line()?;
    for event in &s.events {
        put_event(event, text)?;
        text.end_line()?;
    }
    text.line(last_line(&s.stop))
}

/// Tells a proof that the session is a game, and that its text spells it and is read as it again.
#[tactic(auto, using(crate::proofs::SessionFormat::writes))]
fn know_text(s: &Session)
    ensures spelled { SpellsSession (state_of s.now) (lines (spec.session_text (state_of s.now))) }
    ensures again { whole session_at (lines (spec.session_text (state_of s.now)))
        ≡ Ok (state_of s.now) }
    ensures game { IsGame (state_of s.now) }
{
    know_game(s);
}

/// Appends the text of the session in its one written form: version 1 where the dialect is wild16, and
/// otherwise version 2. Where memory runs out, nothing is appended.
#[tactic(auto, unfolding(crate::specs::SessionText::session_text))]
pub fn write_session(s: &Session, text: &mut Vec<u8>) -> Result<(), NoMemory>
    ensures value { Appends result text.old.items text.new.items
        (spec.session_text (state_of s.now)) }
    // The text spells the session, and is read as it again.
    ensures spelled { SpellsSession (state_of s.now) (lines (spec.session_text (state_of s.now))) }
    ensures again { whole session_at (lines (spec.session_text (state_of s.now)))
        ≡ Ok (state_of s.now) }
    ensures game { IsGame (state_of s.now) }
{
    know_text(s);
    let mut all = Text::after(text);
    let done = put_session(s, &mut all);
    all.end(done, text)
}
