//! The claims that no plan mates a set of positions within a number of moves, read from what a search leaves; or that some plan does.
//!
//! `refute` answers in the claims of krieg_refutation, which has a check of them that knows nothing of a search. What it answers and
//! takes stands in `RefuteAnswers` of `specs/`; which claims it writes says krieg_claims. `Drafts`, `Claiming` and `Blocking` are parts
//! of the work.
//!
//! It searches by krieg_search and reads its table, in which each lost set has what blocks its tries, and nothing is
//! searched twice. The search notes what blocks them where more than one move is left; what it has not noted is found by one
//! split more. `claiming` walks that table, each set behind those that it stands on. The sets of the claims that it gives are
//! moved out of the table by `claims`, and the rest of the table is let go.
//!
//! ```
//! let mut units = Units::new(81);
//! // `b` has White's king on b6, his rook on h1 and Black's king on c8; White is to move
//! match refute(alloc, Dialect::Wild16, &b, 1, &mut units) {
//!     Ok(Denied::Denial(claims)) => .., // one claim: each of the 20 tries is `Why::Lives`, and 81 units are gone
//!     Ok(Denied::Exists) => .., // with the king on b8, where h1h8 mates
//!     Err(RefuteStop::Large) => .., // too many claims, or positions or reasons in them
//!     Err(RefuteStop::Spent) => .., // the units are too few, and all are left
//!     Err(RefuteStop::NoMemory) => ..,
//! }
//! ```
#![tactic(auto)]

mod claiming;
mod claims;
mod refuting;

pub use krieg_search::SearchStop as RefuteStop;
pub use refuting::{Denied, refute};
