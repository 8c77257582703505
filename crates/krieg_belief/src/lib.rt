//! The positions that a player must reckon with, and for each of them one hidden game that explains it.
//!
//! `beliefs` lists every position that is consistent with a sheet, and those in which its games may begin, and tells
//! where they become too many. `steps` takes such a set one line further, and tells where a game `stays` by a line.
//!
//! `why_possible` answers for each possible position the least game that explains it, `shown` is such a game as the player may be
//! shown it, `games` holds these games and makes each where it is asked for, and `writing` writes them. `laws` says that there is
//! no other answer. Of the work, `links` finds the least games line by line.
//!
//! The rules are the definitions of `specs/`: what is possible, and what a sheet was before (`Possible`), where there is more than a
//! limit allows (`Limits`), by which lines a game stays (`Staying`), and how a line changes a set (`Steps`); which games explain a
//! position, which of them is the least (`Explained`), and the written form (`GamesText`). Which positions are consistent with a
//! sheet is said by krieg_sheet, one hidden game at a time.
//!
//! ```
//! // `text` is White's sheet of a game in which 1.e4 was played and `heard tries 1` was told.
//! let sheet = read_sheet(alloc, text)?;
//! let belief = believe(alloc, &sheet, 20)?;
//! let possible = belief.len(); // 2: Black played f7f5 or d7d5
//! let stop = believe(alloc, &sheet, 1); // Err(BeliefStop::TooMany { line: 7 })
//!
//! // `text` is White's sheet: a black king on a8 or c8, `try h1d1 ok silent`, `heard silent`.
//! let sheet = read_sheet(alloc, text)?;
//! let games = least_games(alloc, &sheet, 10)?; // one: the king came from c8, since a8 comes later in the order
//! let mut answer = Vec::new(alloc);
//! write_games_of(alloc, sheet.dialect(), &games, &mut answer)?;
//! // "krieg games 1", "dialect wild16", "games 1", "game 1k6/8/1K6/8/8/8/8/3R4 w - -",
//! // "start 2k5/8/1K6/8/8/8/8/7R w - -", "w h1d1", "b c8b8", "end", a line each
//! ```
#![tactic(auto)]

mod beliefs;
mod games;
mod laws;
mod links;
mod shown;
mod steps;
mod why_possible;
mod writing;

pub use beliefs::{BeliefStop, believe, line_before_entries, starts_of};
pub use games::Games;
pub use laws::shown_law;
pub use shown::Shown;
pub use steps::stays;
pub use why_possible::least_games;
pub use writing::write_games_of;
