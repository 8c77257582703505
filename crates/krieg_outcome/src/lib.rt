//! What each command makes of the text that it takes: an answer, or a refusal.
//!
//! `outcome` does one command and gives what it answers, as one text or in pieces (`CommandAnswer`), or how the run ends without
//! one (`Ending`, `Refusal`). The commands are `umpire` and `san` on any session, `unsan` on any record, `believe`, `why`, `solve`,
//! `find`, `keys`, `share` and `refute` on any sheet, `check` and `lead` on any plan file, `judge` and `conduct` on any strategy,
//! `deny` on any refutation file, `next` on a plan file and what its player heard, `advise` on a strategy and the same, `play` from
//! any position, and `make` and `job` on no input. It knows of no stream.
//!
//! `specs/` has what each command makes of its text, in a file of its name, of which `Lead` has `conduct` and `Next` has `advise`;
//! `Asked` has what a search is asked of a sheet, `Guides` what plan files and strategies are to a player, `VerdictCounts` what
//! `job` counts, `Live` what seats make of a text, and `Outcome` has all. `commands` has a file for each command, and `outcome`
//! chooses among them.
#![tactic(auto)]

mod answer;
mod commands;
mod ending;
mod limits;
mod outcomes;
mod refusal;

pub use answer::CommandAnswer;
pub use ending::Ending;
pub use limits::{JOB_MOVES, MOST_INPUT};
pub use outcomes::outcome;
pub use refusal::Refusal;
