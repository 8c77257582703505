//! The best plan as a strategy, `share`: each set of positions that is reached has one node.
//!
//! `find` of krieg_solve makes the canonical plan as a tree, which repeats itself: a whole ending may take billions of nodes. Here a
//! node is made once for each different set, so an ending takes some thousands. The strategy unfolds to the same plan, which is never
//! made.
//!
//! What a plan is as a strategy stands in `Sharing` in `specs/`, over any game: the tree of a set is gone through, and a set that has a
//! node is passed over; else nodes come for the members that refuse its try, then for what may be heard, in order, and then its own. So the
//! nodes are one function of the plan and the listed positions. `laws` has what this does to the canonical plan: it unfolds to
//! itself, and no set has two nodes. A node a set is enough since the canonical tree of a set depends on the set alone: wherever it is
//! reached it is played within its least number. `Answers` says what the call answers and takes, `Parts` and `Sharers` what its steps
//! do, and when there are too many nodes.
//!
//! `share` decides by `decide` of krieg_search whether some plan mates, and goes through the table that this leaves, once a set (`sharer`,
//! `roots`). The winning try of each set is split once more, by units that are made for that alone: the search has paid for them. The
//! table has a number for each set, and the place of that number among those of the sets that have nodes is the number of the node.
//!
//! The call goes a level deeper for each node that leads to the next, at most 5,000.
//!
//! ```
//! let mut units = Units::new(5_000_000);
//! let way = Way { alloc, d: Dialect::Wild16, cut: true, noted: 0 };
//! // `list` has White's king on b6, his rook on h1 and Black's king on a8 or c8; White is to move
//! match share(way, Side::White, &list, 2, &mut units) {
//!     Ok(Answer::Mates { worst, nodes, roots }) => .., // 2, and two nodes: d1d8, and h1d1 with an edge to it
//!     Ok(Answer::None) => .., // no plan mates both within 2 moves
//!     Err(SearchStop::Large) => .., // there are too many nodes, edges or roots
//!     Err(SearchStop::Spent) => .., // the units are too few, and all are left
//!     Err(SearchStop::NoMemory) => ..,
//! }
//! ```
#![tactic(auto)]

mod answer;
pub mod laws;
mod limits;
mod roots;
mod sharer;

pub use answer::{Answer, share};
