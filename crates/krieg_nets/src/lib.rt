//! A king who is alone against officers: where he is not mated in time and where he gets away, for all squares on which he may stand at once.
//!
//! What officers can do hardly depends on where he stands: he is in the way of some of their moves, and that is all. So a set of squares has
//! the answer for up to 64 positions, and a move of theirs leads from one set to another. `Men` are the officers and their king, a `LoneKing`
//! is a position with these men and him, and `Nets` finds the sets. They are kept: a row for each way in which the men stand, and in
//! it what was found for each number of moves.
//!
//! ```
//! let mut nets = Nets::new(alloc, 1_000_000);
//! // `p` has White's king on b6, his rook on h1 and Black's king on c8, who is to move
//! let king = LoneKing::of(&p).ok_or("king")?;
//! let fled = nets.fled_within(&king.men, 1);
//! let flees = has(fled, king.square.number()); // true: after his king goes to d7 no move mates
//! ```
#![tactic(auto)]

mod asking;
mod kept;
mod lone_king;
mod men;
mod near;
mod nets;
mod others;
mod stale;

pub use lone_king::LoneKing;
pub use men::Men;
pub use nets::Nets;
pub use others::Others;
