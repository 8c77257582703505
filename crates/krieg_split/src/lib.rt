//! Sets of positions, one of which is the true one, parted by what a player hears.
//!
//! `split` tries a move on a set: it gives the members that refuse it, whether it stalemates in some, and the set for
//! each pair of words that may be heard next. `split_unless_stale` does it where the move may not stalemate, and
//! `split_to_mate` where it must mate. `tries` lists the moves that make sense in a set. `tally_tries` counts at once what
//! all of them do where they must mate, in a set that is not too large, `tally_all` in any set, and `tally_large` in a
//! large one, if a few of its members tell that it is worth it; `mate_by_tally` answers as `split_to_mate` does, by such a
//! count. `openings` parts a set by its opening words, and `first_replies` by these and by what is heard of the opponent's
//! first move. What is made is counted in units, exactly.
//!
//! What the answers mean is said by the theory of plans, for chess under an umpire: `Parts`, `LastMove`, `Tallies`,
//! `Firsts` and `Openings` in `specs/`, and `Units` for what they take. `laws` has theorems on the sizes of the parts.
//!
//! What a try makes of a set is `krieg_parting`'s: here an error takes no units, and the answers are those that a search
//! asks for.
//!
//! ```
//! let mut units = Units::new(1_000);
//! for mv in tries(alloc, &b)? {
//!     let parted = split(alloc, Dialect::Wild16, &b, mv, &mut units)?;
//!     // the move is illegal in `parted.refused`; after it one of `parted.classes` is heard
//! }
//! ```
#![tactic(auto)]

mod firsts;
mod large;
mod last_move;
pub mod laws;
mod member_moves;
mod opening_sets;
mod packed_key;
mod parts;
mod tallies;
mod try_list;
mod within;

pub use firsts::{First, Firsts, first_replies};
pub use krieg_parting::{PartStop as SplitStop, Parted};
pub use large::{tally_all, tally_large};
pub use last_move::{mate_by_tally, split_to_mate};
pub use opening_sets::{OpeningSet, openings};
pub use packed_key::PackedKey;
pub use parts::{split, split_unless_stale};
pub use tallies::{MOST_TALLIED, Tally, tally_tries};
pub use try_list::tries;
pub use within::is_within;
