//! Which squares men attack, which squares lie between two, and which men are pinned, by sets of squares.
//!
//! A set of squares is a number in which bit s is set where the square with number s belongs to it.
//! Where a call takes the number of a square, a1 is 0, b1 is 1 and h8 is 63. No call takes memory.
//!
//! ```
//! let empty = Bits::from_board(&[None; 64]);
//! let rook = Man { side: Side::White, kind: Kind::Rook };
//! let reach = attacked_from(&empty, rook, 0).count_ones(); // 14 squares from a1
//! let leaps = knight_attacks(1); // from b1 to d2, a3 and c3: only(11) | only(16) | only(18)
//! let inside = between_at(0, 24); // between a1 and a4 lie a2 and a3: only(8) | only(16)
//! ```
#![tactic(auto)]

mod attack;
mod leap_tables;
mod leaps;
mod line_tables;
mod lines;
mod pawn_tables;
mod pin;
mod segment;

pub use attack::{
    attacked_behind, attacked_by, attacked_by_without, attacked_from, attackers, attackers_at,
    attackers_without, is_attacked, is_attacked_without,
};
pub use krieg_board::Bits;
pub use leaps::{king_attacks, knight_attacks, pawn_attacks, pawn_steps};
pub use lines::{
    diagonal_from, falling_through, file_through, rank_through, rising_through, straight_from,
};
pub use pin::{KingLines, king_lines, may_pin_behind, pinned};
pub use segment::{between, between_at};
