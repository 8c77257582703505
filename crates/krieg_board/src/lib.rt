//! Squares, men, moves and valid positions of chess, and units of work.
//!
//! The rules of this crate are the definitions of `specs/`; each function here answers exactly what
//! the definition of its name says. No call takes memory.
//!
//! ```
//! let mut board: Board = [None; 64];
//! board[4] = Some(Man { side: Side::White, kind: Kind::King });
//! board[60] = Some(Man { side: Side::Black, kind: Kind::King });
//! let rights = Rights::new(0).ok_or("rights")?;
//! let kings = Position::make(board, Side::White, rights, None); // Ok: the kings on e1 and e8
//! board[52] = Some(Man { side: Side::White, kind: Kind::Rook });
//! let rook = Position::make(board, Side::White, rights, None);
//! // Err(BadPosition::IdleInCheck): the rook on e7 attacks Black's king, and White is to move
//! ```
#![tactic(auto)]

mod attack;
mod bits;
mod board;
mod fault;
mod hand;
mod limits;
mod men;
mod position;
mod set;
mod square;
mod threat;
mod units;

pub use attack::{apart, attacks, is_attacked};
pub use bits::{Bits, Sets, king_of};
pub use board::{Board, is_man, is_of};
pub use hand::same_hand;
pub use krieg_faults::{BadPosition, NoMemory};
pub use limits::{MOST_MOVES, MOST_UNITS};
pub use men::{Kind, Man, Move, NO_RIGHTS, Promo, Rights, Side, know_squares};
pub use position::{Position, know_valid};
pub use set::{has, lowest, only, only_if, without_lowest};
pub use square::{
    Square, crossed_rank, file_of, home_rank, landing_rank, last_rank, pawn_rank, rank_of,
    square_at,
};
pub use units::{NoUnits, Units};
