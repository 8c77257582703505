ghost use Rattle.std.specs.Prelude.{◌≡◌, ◌≢◌, ◌+◌, IfOk, IfErr, OnOk, length};
ghost use Rattle.krieg_text.specs.Lines.{lines};
ghost use Rattle.krieg_fen.specs.MoveText.{move_of};
ghost use Rattle.krieg_text.specs.Formats.{Always, IsReading};
ghost use Rattle.krieg_text.specs.Reading.{taken, whole, Gives, GivesOn, Passed};
ghost use Rattle.krieg_text.specs.declared.fault.TextFault.TheVariants.{NoMemory as OutOfMemory};
ghost use Rattle.krieg_fen.specs.Forms as forms;
ghost use Rattle.krieg_umpire.specs.Laws.{IsGame};
ghost use Rattle.krieg_umpire.specs.Sessions.{state_of};
ghost use Rattle.krieg_umpire.specs.SessionSpelling.{SpellsSession, SessionGrammar, SpellsStart, StartGrammar};
ghost use Rattle.krieg_umpire.specs.SessionReading as spec;

use crate::session::Session;
use crate::verdict::{Event, Stop};
use krieg_board::{Position, Side};
use krieg_fen::{position_form, read_move, start_form};
use krieg_text::{Cursor, LineSource, TextFault, TextKind, behind, is_name};
use krieg_words::Dialect;
use krieg_wordtext::read_version_lines;
use std::alloc::Global;

/// A line after the start.
enum SessionLine {
    /// One try.
    Try(Event),
    /// The last line, and why the game stopped.
    Last(Option<Stop>),
}

/// The dialect, by the lines of the version.
#[tactic(auto, unfolding(crate::specs::SessionReading::session_version_at))]
fn read_session_version(from: &mut Cursor<'_>) -> Result<Dialect, TextFault>
    ensures value { GivesOn (λ d. d) result from.new (spec.session_version_at from.old) }
    ensures rest { Passed from.old from.new }
{
    read_version_lines(from, b"krieg session ")
}

fn read_start_line(from: &mut Cursor<'_>) -> Result<Position, TextFault>
    ensures value { GivesOn (λ p. p) result from.new (taken forms.start_form from.old) }
    ensures rest { Passed from.old from.new }
{
    from.next(|line| start_form(line))
}

fn tried(who: Side, text: &[u8]) -> Result<Event, TextKind>
    ensures { result ≡ spec.tried who (move_of text.now) }
{
    match read_move(text) {
        Ok(mv) => Ok(Event { who, mv }),
        Err(_) => Err(TextKind::Syntax),
    }
}

/// The try that the line spells.
#[tactic(auto, unfolding(crate::specs::SessionReading::try_form))]
fn try_form(text: &[u8]) -> Result<Event, TextKind>
    ensures { result ≡ spec.try_form text.now }
{
    match behind(b"w ", text) {
        Some(mv) => tried(Side::White, mv),
        None => match behind(b"b ", text) {
            Some(mv) => tried(Side::Black, mv),
            None => Err(TextKind::Syntax),
        },
    }
}

/// Why the game stopped, where the line is the last one.
#[tactic(auto, unfolding(crate::specs::SessionReading::last_form))]
fn last_form(text: &[u8]) -> Option<Option<Stop>>
    ensures { result ≡ spec.last_form text.now }
{
    if is_name(b"end", text) {
        Some(None)
    } else if is_name(b"end over", text) {
        Some(Some(Stop::Ended))
    } else if is_name(b"end left w", text) {
        Some(Some(Stop::Left(Side::White)))
    } else if is_name(b"end left b", text) {
        Some(Some(Stop::Left(Side::Black)))
    } else if is_name(b"end asks", text) {
        Some(Some(Stop::AsksUsed))
    } else {
        None
    }
}

/// The last line, or a try.
#[tactic(auto, unfolding(crate::specs::SessionReading::line_form))]
fn line_form(text: &[u8]) -> Result<SessionLine, TextKind>
    ensures { result ≡ spec.line_form text.now }
{
    match last_form(text) {
        Some(stop) => Ok(SessionLine::Last(stop)),
        None => match try_form(text) {
            Ok(event) => Ok(SessionLine::Try(event)),
            Err(kind) => Err(kind),
        },
    }
}

/// The next line, as the last line or a try.
fn read_session_line(from: &mut Cursor<'_>) -> Result<SessionLine, TextFault>
    ensures value { GivesOn (λ l. l) result from.new (taken spec.line_form from.old) }
    ensures fewer { OnOk result (length from.new.left + 1 ≡ length from.old.left) }
{
    from.next(line_form)
}

/// Reads the tries up to the last line, and why the game stopped. Memory for more tries is given back.
#[tactic(auto, using(crate::proofs::SessionFormat::events_bad))]
fn read_events(
    alloc: Global,
    from: &mut Cursor<'_>,
) -> Result<(Vec<Event>, Option<Stop>), TextFault>
    ensures { GivesOn (λ x. (x.0.items, x.1)) result from.new (spec.events_at from.old) }
{
    let mut events: Vec<Event> = Vec::new(alloc);
    'events: loop {
        match read_session_line(from) {
            Err(fault) => return Err(fault),
            Ok(SessionLine::Last(stop)) => {
                events.shrink_to_fit();
                return Ok((events, stop));
            }
            Ok(SessionLine::Try(event)) => events.push(event)?,
        }
    }
}

#[tactic(auto, unfolding(crate::specs::SessionReading::session_at))]
fn read_lines(alloc: Global, text: &[u8]) -> Result<Session, TextFault>
    ensures { Gives (λ s. state_of s) result (whole spec.session_at (lines text.now)) }
{
    let mut from = Cursor::new(text);
    let dialect = read_session_version(&mut from)?;
    let start = read_start_line(&mut from)?;
    let (events, stop) = read_events(alloc, &mut from)?;
    from.end()?;
    Ok(Session {
        dialect,
        start,
        events,
        stop,
    })
}

/// The session that the text spells, in version 1 or 2.
///
/// The fault is the first line that is not accepted, or, where all lines are and the text is not
/// complete, the number of lines plus 1 with `Syntax`. Its kinds are `Version`, `Syntax` and `Position`.
#[tactic(auto, using(crate::proofs::SessionFormat::sessions))]
pub fn read_session(alloc: Global, text: &[u8]) -> Result<Session, TextFault>
    ensures reading { IsReading (λ s. state_of s) spec.session_at Always SpellsSession
        SessionGrammar (lines text.now) result }
    // It begins in a valid position, and each try is a move between two squares of the board.
    ensures game { IfOk result (λ s. IsGame (state_of s)) }
{
    read_lines(alloc, text)
}

fn read_position_line(from: &mut Cursor<'_>) -> Result<Position, TextFault>
    ensures value { GivesOn (λ p. p) result from.new (spec.start_at from.old) }
    ensures memory { IfErr result (λ e. e ≢ OutOfMemory) }
{
    from.next(|line| position_form(line))
}

fn read_one_line(text: &[u8]) -> Result<Position, TextFault>
    ensures value { Gives (λ p. p) result (whole spec.start_at (lines text.now)) }
    ensures memory { IfErr result (λ e. e ≢ OutOfMemory) }
{
    let mut from = Cursor::new(text);
    let start = read_position_line(&mut from)?;
    from.end()?;
    Ok(start)
}

/// The position of a text that is one line. It takes no memory.
///
/// The fault is of the kind `Position` or `Syntax` at line 1, also where there is no line, or `Syntax` at
/// line 2, where there is a second one.
#[tactic(auto, using(crate::proofs::SessionFormat::starts))]
pub fn read_start(text: &[u8]) -> Result<Position, TextFault>
    ensures reading { IsReading (λ p. p) spec.start_at Always SpellsStart StartGrammar
        (lines text.now) result }
    ensures memory { IfErr result (λ e. e ≢ OutOfMemory) }
{
    read_one_line(text)
}
