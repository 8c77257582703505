//! Refutations: claims, each shown by those before it, that no plan mates within a number of moves; and a check of them, by their
//! definition and not by any search.
//!
//! A claim says of a set that it cannot be won within a number of moves, for a reason at each try: with one move left the try does not
//! mate everywhere; it stalemates somewhere; or an earlier claim denies what is possible after something that may be heard, or denies
//! the members that refuse the try. `deny` looks whether a refutation holds, whoever wrote it.
//!
//! What makes a refutation hold stands in `Refutations` of `specs/`, in the terms of krieg_costs, and what one that holds excludes in
//! `Exclusion`. `TryResults` and `Reasons` are parts of the work.
//!
//! `deny` takes nothing for granted: it makes each try in each claim's set. Where one move is left nothing that is heard
//! matters: then it looks only at what lives, and at what refuses the try, and all tries of a set are counted at once.
//!
//! ```
//! let mut units = Units::new(81);
//! // `file` claims that White, with his king on b6 and his rook on h1, cannot mate a king on c8 in one move: each of his 20 tries is
//! // `Why::Lives`
//! match deny(alloc, &file, &mut units) {
//!     Ok(true) => .., // it holds, so no plan mates within one move, and 81 units are gone
//!     Ok(false) => .., // with the king on b8 it does not: there h1h8 mates
//!     Err(DenyStop::Spent) => .., // the units are too few
//!     Err(DenyStop::NoMemory) => ..,
//! }
//! ```
#![tactic(auto)]

mod denial;
mod reasons;
mod refutation;
mod try_result;

pub use denial::deny;
pub use krieg_parting::PartStop as DenyStop;
pub use krieg_split::PackedKey;
pub use refutation::{Claim, MOST_CLAIMED, MOST_CLAIMS, Reason, Refutation, Why};
