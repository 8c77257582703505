//! A judge of strategies, by the plan that a strategy unfolds to and not by any search.
//!
//! `judge` says whether the plan mates every listed position within the number that the strategy claims, and in how many
//! moves at worst. The plan may have billions of nodes; the judge makes none of them. What it takes is counted in units,
//! exactly: which pairs of a node and a position are reached (`Reach` in `specs/`), and what each of them takes
//! (`JudgeCost`). `Judgement` says what the answers mean, by the theory of plans. `laws` has what is proved of the pairs:
//! that they are the least set that is closed, and that none is counted twice; `toy` has small examples.
//!
//! It goes once through what is reached, from the greatest pair down, and never back. What waits is kept in a map: for
//! each pair the most own moves after which it is reached (`findings`). The greatest pair is taken, and what comes next waits
//! in its place: at lower nodes, so nothing is taken twice. So what waits says within how many moves the rest must be won
//! (`Demands`), and this never changes: at first it is what the strategy claims, and at the end nothing waits. `start` has
//! what comes before the first own turn, and `meeting` a node in a position. They are internal.
//!
//! It calls itself nowhere, and takes no more memory than for the pairs that wait at once.
//!
//! ```
//! let mut units = Units::new(57_176);
//! match judge(alloc, &strategy, &mut units) {
//!     Ok(Judgement::Mates(worst)) => .., // the plan mates all listed positions, within `worst` moves
//!     Ok(Judgement::Fails) => .., // in some position it does not, within what the strategy claims
//!     Err(JudgeStop::Spent) => .., // it takes more than 57,176 units
//!     Err(JudgeStop::NoMemory) => ..,
//! }
//! ```
#![tactic(auto)]

mod findings;
mod judging;
pub mod laws;
mod meeting;
mod start;
pub mod toy;

pub use judging::{Judgement, judge};
pub use krieg_parting::PartStop as JudgeStop;
