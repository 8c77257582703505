//! The best plan, `solve` and `find`, and all its keys, `find_keys`.
//!
//! It tells how a side mates every listed position, whichever of them is on the board, within a number of own moves;
//! or that no plan does. Both give the same answers, at other prices. What stands in their clauses is in the terms of
//! krieg_theory and krieg_costs: read `Solutions` in `specs/` (what each answer says, and what it takes), then `BuiltPlan` (the plan
//! that is built) and `Building` (a node of the plan). `Decision` of krieg_search is the other half: whether some plan mates, with the
//! account of what that took.
//!
//! `solve` and `find` call `decide` of krieg_search, which leaves a table of stored results. `find` may cut tries there, and `solve` cuts
//! none: so the floor of what a search takes holds for `solve`. Neither keeps notes of what blocks tries.
//!
//! `roots` and `build` make the plan of the stored results, by a `Builder`. Each node is taken from the number that is
//! allowed before anything below it is built. They split the sets once more, each by the one try that wins it, by units
//! that are made for that alone: `wins` (in `WonSets` of krieg_search) says that the search has paid for each of these splits.
//!
//! `find_keys` tells of each opening set not one try that wins with the fewest moves, but all (`keys`, `set_keys`): read `KeyTries` in
//! `specs/`. It first asks for the openings as `decide` does. Of a set that is won within its least number, the tries before the stored one
//! begin no win, so only those behind it are left to be split, and these with that number. So no try of a pair is split twice, and all
//! fits into what is fresh: `SetKeys` has what the later tries take. Two openings may have the same set, whose keys are looked for once.
//! `laws` has what keys are over trees.
//!
//! Building calls itself for each node below a node, some 2,490 levels at most, and a level takes less than 600 bytes of the stack. The
//! search goes as deep, and its levels take more.
//!
//! ```
//! let mut units = Units::new(5_000_000);
//! // `list` has White's king on b6, his rook on h1 and Black's king on a8 or c8; White is to move
//! match solve(alloc, Dialect::Wild16, Side::White, &list, 2, 100, &mut units) {
//!     Ok(Answer::Mates { worst, plan }) => .., // 2, and h1d1 and then d1d8, whichever it is
//!     Ok(Answer::None) => .., // no plan mates both within 2 moves
//!     Err(SearchStop::Large) => .., // the plan has more than 100 nodes
//!     Err(SearchStop::Spent) => .., // the units are too few, and all are left
//!     Err(SearchStop::NoMemory) => ..,
//! }
//! // `find` takes the same arguments and comes to the same
//! ```
#![tactic(auto)]

mod best_plan;
mod build;
mod keys;
pub mod laws;
mod roots;
mod set_keys;

pub use best_plan::{Answer, find, solve};
pub use keys::{KeyAnswer, KeyTry, Keys, KeysAt, find_keys};
