//! A check of a plan, by its definition and not by any search.
//!
//! `check` walks the plan with the set of positions that reaches each node, from each root on, and says whether the
//! plan mates every listed position within the number that its file claims, and in how many moves at worst. What
//! it takes is counted in units, exactly: which pairs of a node and a position are reached (`Reach` in `specs/`),
//! and what each of them takes (`CheckCost`). `Verdict` says what the answers mean, by the theory of plans.
//! `laws` has what is proved of the pairs: that they are the least set that is closed, and that none is counted twice;
//! `toy` has small examples.
//!
//! `start` has what comes before the first own turn, and `node_try` what the try of a node makes of a set: what
//! `krieg_parting` gathers, and where no edge follows what it counts. `roots` and `walk` go through the plan. They are
//! internal.
//!
//! A set is let go once it is parted. A unit is taken for each position before it is stored, and repeats are dropped
//! after that. The walk is a loop over the nodes for illegal tries, and calls itself for the edges: what it takes of the
//! stack grows with the edges on a path.
//!
//! ```
//! let mut units = Units::new(16);
//! match check(alloc, &file, &mut units) {
//!     Ok(PlanVerdict::Mates(worst)) => .., // the plan mates all listed positions, within `worst` moves
//!     Ok(PlanVerdict::Fails) => .., // in some position it does not, within what the file claims
//!     Err(CheckStop::Spent) => .., // it takes more than 16 units
//!     Err(CheckStop::NoMemory) => ..,
//! }
//! ```
#![tactic(auto)]

pub mod laws;
mod node_try;
mod plan_check;
mod roots;
mod start;
pub mod toy;
mod walk;

pub use krieg_parting::PartStop as CheckStop;
pub use plan_check::{PlanVerdict, check, check_owned};
