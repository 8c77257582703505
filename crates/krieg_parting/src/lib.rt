//! What a try makes of a set of positions, one of which is the true one.
//!
//! `gather` makes an `Attempt`, a move that is tried in each member: it keeps the members that refuse it, whether it stalemates in some, and what
//! comes of it in the others. `parts_of` makes the parts of that, among them the set for each pair of words that may be
//! heard next. `try_to_mate` only counts, for a move that must mate. `first_moves` makes the opponent's first moves, and
//! `with_openings` has the members with what is told of them at the start. What is made is counted in units, exactly:
//! they are taken before anything is stored, and before repeats are dropped.
//!
//! The rules are the definitions of `specs/`: what the parts are, by the theory of plans (`Parts`), and the same member
//! by member (`Gathering`); a try that must mate (`Mating`); first moves (`FirstMoves`) and turns (`Turns`); and
//! units (`Charges`).
//!
//! What comes of a try is gathered in a `Pool`, with a bucket for each thing that may be heard. Repeats are dropped whenever
//! it has grown to twice what was left of it, or to four times where hardly any came before.
//!
//! ```
//! let mut units = Units::new(1_000);
//! let attempt = Attempt { dialect: Dialect::Wild16, mv, always: true };
//! let parts = gather(alloc, &attempt, b.members(), &mut units)?;
//! let parted = parts_of(parts)?;
//! // the move is illegal in `parted.refused`; after it one of `parted.classes` is heard
//! ```
#![tactic(auto)]

mod firsts;
mod last_move;
mod opened;
mod parts;
mod stop;

pub use firsts::{FirstMoves, first_moves};
pub use last_move::{Mating, try_to_mate};
pub use opened::with_openings;
pub use parts::{Attempt, Parted, UnsortedParts, gather, parts_of};
pub use stop::{PartStop, take};
