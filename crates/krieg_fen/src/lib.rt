//! Texts of chess: squares, moves and positions, the lines of sides and starts, and listed positions.
//!
//! Each reader answers exactly what the definition of its name in `specs/` says, takes no memory unless
//! its answer is a list, and looks at the text once. Each writer adds the one written form. `put_*` adds
//! it to a `Text`, and `write_*` appends it to a byte vector, whose content stays as it was where memory
//! runs out. Of many positions, one after another, `put_next` spells only the ranks that differ from those
//! of the position before, which `Ranks` keeps. Lines, numbers, faults and `Text` are those of `krieg_text`.
//!
//! ```
//! let p = read_position(b"1k6/8/1K6/8/8/8/8/7R w - - 0 1")?;
//! let mut text = Vec::new(alloc);
//! write_position(&p, &mut text)?; // "1k6/8/1K6/8/8/8/8/7R w - -"
//! let mut from = Cursor::new(b"side w\nlist 0\n");
//! let listing = read_listing(alloc, &mut from, Turn::Either);
//! // Err(TextFault::At { line: 2, kind: TextKind::Count })
//! ```
#![tactic(auto)]

mod board_text;
mod fen;
mod fen_text;
mod fields;
mod forms;
mod list;
mod list_text;
mod moves;
mod rank_text;
mod ranks;

pub use board_text::Ranks;
pub use fen::{FenFault, read_position};
pub use fen_text::{put_position, write_position};
pub use forms::{
    MOST_LISTED, Turn, listed_form, position_form, read_list_line, read_side, side_line, side_mark,
    start_form,
};
pub use list::{read_listed, read_listing};
pub use list_text::{
    put_list, put_list_head, put_list_line, put_listed, put_listing, put_next, put_side_line,
};
pub use moves::{MoveFault, put_move, put_square, read_move, read_square, square_of, write_move};
