//! A player who follows a guide: a plan file, or a strategy by the plan that it unfolds to.
//!
//! - `guide`: `Guide`, what such a player may follow; `planned` has plan files as guides, and `shared` strategies.
//! - `seat`: `GuidedSeat`, a seat that tries what its plan says, by the lines that it is told; `next` is what such a
//!   player does next.
//! - `leading`: `lead`, a game between such a seat and any other; `led` has what it came to.
//! - `laws`: that a plan that mates wins each of these games.
//! - `place`: where a seat stands, by the way that leads from a root of its plan to a node. `player`: such a seat as a
//!   side of a game, as krieg_play takes its turns. `turns`: one turn of a game. These are internal.
//!
//! The rules are the definitions of `specs/`: what guides (`Guides`), where a player stands by what he heard (`Stands`),
//! what a call makes of a seat (`Followers`), what a game came to (`Leading`), and the theorem (`Laws`). `Places`, `Turns`
//! and `TreeCodes` are parts of the work.
//!
//! ```
//! // `file` lists 2k5/8/1K6/8/8/8/8/7R w - - first: White tries h1d1, then d1d8 whatever he hears. Black's script says
//! // c8d8, which is illegal, and then c8b8.
//! let led = lead(alloc, file, 1, &mut black, 10)?;
//! let stop = led.stop; // Stop::Ended: Black is mated
//! let tries = led.game.log().len(); // 4: h1d1, c8d8, c8b8, d1d8
//! ```
#![tactic(auto)]

mod guide;
mod laws;
mod leading;
mod led;
mod next;
mod place;
mod planned;
mod player;
mod seat;
mod shared;
mod turns;

pub use guide::{Guide, Step};
pub use laws::mating_plan_wins;
pub use leading::lead;
pub use led::{LeadFault, Led};
pub use next::Next;
pub use seat::GuidedSeat;
