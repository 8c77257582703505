//! The umpire: each try is judged, in the order in which the tries come, and each player hears what the rules tell him; a game of
//! both players' tries as a text, a session; and its record.
//!
//! The rules are the definitions of `specs/`. How one try is judged (`Verdicts`), a whole game (`Games`), and what a player hears
//! (`Hearing`). A session as contracts see it (`Sessions`), the lines that spell one (`SessionSpelling`), the session that a text
//! spells (`SessionReading`) and its one written form (`SessionText`), and what a player and both of them are told of a session
//! (`Telling`). Which moves of a session its record has, and what a record is as a session (`Scores`). What holds of every game,
//! session and record (`Laws`).
//!
//! A game is judged try by try (`Game`), or all of it at once (`judge`). Only `Game::reserve` takes memory, and `judge` by it: a
//! game that has its room is judged to the end whatever comes. `read_start` takes no memory.
//!
//! ```
//! let mut game = Game::start(alloc, read_position(b"1k6/8/1K6/8/8/8/8/7R w - -")?);
//! game.reserve(2)?;
//! let (b8a8, h1h8) = (read_move(b"b8a8")?, read_move(b"h1h8")?);
//! let first = game.step(Event { who: Side::Black, mv: b8a8 }); // Verdict::Early
//! let second = game.step(Event { who: Side::White, mv: h1h8 });
//! // Verdict::Done with the words of "check rank, mate"
//! let heard = line_for(Side::White, &game.log()[0]); // None: only Black hears that he was early
//!
//! let text = b"krieg session 1\nstart 4k3/8/8/8/4N3/8/8/4R1K1 w - -\nb e8d8\nw e4f6\nend\n";
//! let session = read_session(alloc, text)?;
//! let mut sheet = Vec::new(alloc);
//! umpire(alloc, &session, Some(Side::Black), &mut sheet)?;
//! // "krieg sheet 1", "side b", "list 1", "4k3/8/8/8/4N3/8/8/4R1K1 w - -", "opens silent", "try e8d8 early",
//! // "heard check file+knight", "end", a line each
//! let record = record_of(alloc, &session)?; // Black's try was early, so one move
//! let mut text = Vec::new(alloc);
//! write_record(&record, &mut text)?;
//! // "krieg record 1", "start 4k3/8/8/8/4N3/8/8/4R1K1 w - -", "w Nf6+", "end", a line each
//! ```
#![tactic(auto)]

mod game;
mod hearing;
mod laws;
mod reading;
mod scores;
mod session;
mod telling;
mod verdict;
mod writing;

pub use game::{Game, judge};
pub use hearing::{hearing_law, line_for};
pub use laws::{lines_law, reading_law, score_law, sheet_law};
pub use reading::{read_session, read_start};
pub use scores::{record_of, session_of};
pub use session::Session;
pub use telling::umpire;
pub use verdict::{Event, Judged, Stop, Verdict};
pub use writing::{put_event, write_session};
