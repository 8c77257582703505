//! The legal moves of a position, the position after one, and the ends of a game.
//!
//! The rules of this crate are the definitions of `specs/`: which moves are legal (`Legal`), what a
//! move changes (`After`), where a king castles (`Wings`), and the list of the legal moves with mate
//! and stalemate (`Moves`). Each function here answers exactly what the definition of its name says.
//! `legal_moves` alone takes memory: `count_moves` counts the moves without it, and `count_replies` those behind a move.
//!
//! ```
//! // `start` is the position in which a game begins.
//! let moves = legal_moves(alloc, &start)?.as_slice().len(); // 20
//! let e2e4 = Move {
//!     from: Square::new(12).ok_or("e2")?,
//!     to: Square::new(28).ok_or("e4")?,
//!     promo: Promo::Plain,
//! };
//! let legal = is_legal(&start, e2e4); // true
//! ```
#![tactic(auto)]

mod candidate;
mod change;
mod count;
mod ends;
mod guard;
mod legality;
mod list;
mod replies;
mod target;
mod ways;
mod wing;

pub use change::{after, is_castling, is_en_passant, passed_square};
pub use count::{MOST_LEGAL_MOVES, count_moves};
pub use ends::{
    has_move, has_move_by, in_check, in_check_by, is_mate, is_stalemate, is_stalemate_by,
};
pub use guard::Guard;
pub use legality::{after_if_legal, is_legal};
pub use list::{legal_moves, legal_moves_by};
pub use replies::{count_replies, mates_by, replies_if_legal};
pub use target::{own_pawns, pawn_captures, targets};
pub use wing::{Wing, arrival};
