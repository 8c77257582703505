//! Live play between players: what the umpire asks them, what each side is told, and who relieves whom.
//!
//! A side has a list of seats, of which the first one sits. A seat that fails or leaves is relieved where
//! another stands behind it: it goes to the side's out list, and the next one is told all lines of that side so
//! far before anything else.
//!
//! The definitions of `specs/` know no boxes: they speak of any seats by what these mean. They say what a side
//! did since it was in some state (`Teams`), which games are played by turns (`Games`), what a game is that is whole,
//! when a seat was asked last, and what a game came to that was played (`Played`) or given up (`Broken`). `Players`
//! says what a turn makes of two players of any kind. `Calls` and `Passes` are parts of the work: what one call of a side makes
//! of it, and of both.
//!
//! - `bench`: `Bench`, the seats of both sides; `game`: `play`, a whole game of theirs; `outcome`: why there is none.
//! - `player`: `Player`, one side of a game as a turn needs it; `turns`: one turn of any two players, by which live games
//!   go and those that a plan leads; `lone`: a seat as such a side; `ask_outcome`: what came of asking one.
//! - `telling`: what one seat is asked and told; `team`: the turns and reliefs of one side; `table`: one pass over both
//!   sides. These are internal.
#![tactic(auto)]

mod ask_outcome;
mod bench;
mod game;
mod lone;
mod outcome;
mod player;
mod table;
mod team;
mod telling;
mod turns;

pub use ask_outcome::AskOutcome;
pub(crate) use ask_outcome::relieved_turn;
pub use bench::Bench;
pub use game::{Played, play};
pub use outcome::PlayFault;
pub(crate) use outcome::fault_of;
pub use player::Player;
pub use turns::{take_turn, tell_both};
