//! Mate by a player who sees the position, as far as it is found out.
//!
//! `some_is_no_mate` tells that a set is lost: some member is no mate in time even for a player who sees it. `some_flees` tells
//! that a try fails in a set whatever is heard: in some member a reply leads to such a position. What is found of a position
//! is kept by a `Sight`, which takes no more looks than it was given. Where it does not find out, it tells nothing: only the answer
//! `true` is claimed.
//!
//! `Seen` in `specs/` says what such a mate is, and `laws` that it is that of `krieg_theory`, whatever the dialect.
//! `seeing` looks for it move by move, and `memo` has what is known: of a position the greatest number of moves within
//! which it was found to be no mate, and the least within which it may be one. `last_moves` has it of last moves with more men, as long as
//! they are met again and again. `flight` asks it of the replies to a try.
//!
//! Where a king is alone against a few officers, `krieg_nets` finds it for all of his squares at once: `netted` asks it, and a set whose
//! members have the same men is asked about by one set of squares.
//!
//! It calls itself for each move: that takes some 2,200 bytes of the stack in a program that LLVM builds.
//!
//! ```
//! let mut sight = Sight::new(alloc, 1_000_000);
//! // `b` has White's king on b6, his rook on h1 and Black's king on c8, and `h1h8` is the move of the rook
//! let fails = some_flees(&mut sight, &b, squares_of(&b), &h1h8, 1); // true: after Black's king goes to d7 no move mates
//! ```
#![tactic(auto)]

mod flight;
mod last_moves;
pub mod laws;
mod memo;
mod netted;
mod seeing;
mod told;

pub use flight::{some_flees, some_is_no_mate, squares_of};
pub use memo::Sight;
