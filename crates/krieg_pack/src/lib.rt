//! Positions in few bytes, and ordered sets of them.
//!
//! `packed` keeps one valid position as four sets of squares and three bytes, and has the order of
//! positions. `planes` has these sets: one for each bit of the codes of the squares, so a position is
//! packed and unpacked by a few operations on the sets of its men. `codes` has the numbers of marks,
//! rights and sides. `belief` has sets of positions, ascending and without repeats. `buffer` keeps a list
//! small in which such a set is gathered. `kept` has sets as a table keeps them: where all members differ in
//! the square of one man alone, as with a king of whom nothing was seen, by what they have in common and the
//! squares of that man (`one_man`), and else as a list.
//!
//! The rules are the definitions of `specs/`: the numbers of a position (`Codes`), the order of
//! positions (`Order`), the 35 bytes (`Bytes`) and sets of positions (`Members`), by what `krieg_theory`
//! calls a set. In contracts a `Packed` is the position that it stands for, and a `Belief` or a `KeptSet` the
//! list of its members. `Belief::from_positions` and `Belief::copy` take memory, and so do `made` and `open` of a
//! set that is not kept as a list. No other call does.
//!
//! ```
//! // White's king on b6 and rook on h1 stand against a king on a8 in `a` and on b8 in `b`.
//! let set = Belief::from_positions(alloc, &[b, a, b])?;
//! let number = set.len(); // 2: each member once
//! let held = set.holds(&a); // true
//! let bytes = pack(&b).bytes(); // 35 bytes: 4, a white rook, for h1 in bytes[3]
//! ```
#![tactic(auto)]

mod belief;
mod buffer;
mod codes;
mod kept;
mod one_man;
mod packed;
mod planes;

pub use belief::Belief;
pub use buffer::{TooMany, trim};
pub use kept::KeptSet;
pub use packed::{Packed, order, pack, unpack};
