//! The search for whether some plan mates, `decide`, at two prices.
//!
//! It tells whether a side mates every listed position, whichever of them is on the board, within a number of own moves;
//! or that no plan does. The answer is the same at both prices. What stands in its clauses is in the terms of krieg_theory and
//! krieg_costs: read `Decision` in `specs/` (what each answer says, with the account of what it took), then `Stretches` (a stretch of
//! the search), `WonSets` (what the table says of sets that are won), and `Notes` and `Blocks` (what blocks a try). `laws` has the
//! theorems of krieg_theory and krieg_costs for chess.
//!
//! How a search works is a `Way`, which stays the same. What it has found out so far, with the units that are left to it, is
//! a `Search`, and `IsAtWork` (in `Stretches`) holds of it between any two steps.
//!
//! `openings` has what may be heard before the first own turn, with the set of what is possible then. `decide` asks
//! for one opening after the other whether its set can be won, by `search`: one number of moves after the other; for
//! each number the tries in their order (`try_list`), up to the first that begins to win; for a try first what makes it fail at
//! once (`remainder`), then what is possible after each thing that may be heard, and then the members that refuse it, up to
//! the first part that cannot be won. Each set has a number in a table (`number`), which holds what is found
//! for each number of moves, so that no set is searched twice for the same number of moves.
//!
//! A way may cut tries (`cut`): there a try also fails at once where some reply to it leaves a position that is no mate
//! in time even for a player who sees it. krieg_sight finds that out, and krieg_theory has the law. Such a try takes
//! nothing, and nothing is stored of what lies below it, so the floor of what a search takes holds only where none is cut. The table that
//! `decide` gives has a block of each try of a lost set only where none was cut.
//!
//! Of a try that was not cut such a search keeps which part could not be won, with what the split took (`blockers`). With more moves it
//! is not cut either, and that part is asked first: only where it is won meanwhile is the try split again. It takes what a split takes all
//! the same.
//!
//! Who goes on by what a search leaves, as krieg_solve and krieg_refute do, calls `decide`: it gives the table and the openings,
//! whatever the answer. `left_by` makes one split of it again, and `number_of` finds the number of a part. `decide` also
//! keeps `notes`, at most as many as its way says: of a set that cannot be won with two moves or more, what blocks each of its
//! tries, by the number of a part and the words that are heard there (`packed_key`).
//!
//! Who asks for more than `decide` does, as krieg_solve does for keys, takes its steps: `new_search`, `ask_openings`, and then of one try
//! after another whether it begins to win (`begins` of a `Search`).
//!
//! The search calls itself for each part of a set. Where one try after another is refused, it goes a level deeper for each, some
//! 2,490 levels at most. A level takes up to 1,200 bytes of the stack, or some 2,900 in a program that Rattle's own compiler builds.
//!
//! ```
//! let mut units = Units::new(5_000_000);
//! let way = Way { alloc, d: Dialect::Wild16, cut: false, noted: 0 };
//! // `list` has White's king on b6, his rook on h1 and Black's king on a8 or c8; White is to move
//! match decide(way, Side::White, &list, 2, &mut units) {
//!     Ok(Decision::Won(found)) => .., // `found.table` has how the set of each of `found.openings` is won
//!     Ok(Decision::Lost(found)) => .., // no plan mates both within 2 moves, as `found.table` says
//!     Ok(Decision::Over) => .., // some listed position is over
//!     Err(SearchStop::Spent) => .., // the units are too few
//!     Err(_) => .., // memory was not found
//! }
//! ```
#![tactic(auto)]

mod blockers;
pub mod decide;
pub mod laws;
mod lost_sets;
mod notes;
mod number;
mod openings;
mod remainder;
mod search;
mod stop;
mod try_list;
mod way;

pub use notes::{Block, Note, Notes, Question};
pub use number::number_of;
pub use openings::Opening;
pub use remainder::{Remainder, left_by};
pub use search::Search;
pub use stop::SearchStop;
pub use way::Way;
