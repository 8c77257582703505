//! Moves in Standard Algebraic Notation, and records of games in it.
//!
//! The rules of this crate are the definitions of `specs/`: the text of a move by its parts
//! (`NotationText`), what the text of a legal move says (`San`) with the least that tells it from its
//! rivals (`Disambiguation`), and which moves a text may mean (`Matching`); a record as contracts see it
//! (`Records`), the lines that spell one (`RecordSpelling`), the record that a text spells
//! (`RecordReading`) and its one written form (`RecordText`). The text of a move is read without memory.
//!
//! ```
//! let p = read_position(b"1k6/8/8/8/8/8/4K3/R6R w - -")?;
//! let a1d1 = read_san(&p, b"Ra1d1")?; // more may be told than is needed
//! let mut text = Vec::new(alloc);
//! write_san(&p, a1d1, &mut text)?; // "Rad1"
//! let several = read_san(&p, b"Rd1"); // Err(SanFault::Several): the rook on h1 may go there too
//! ```
#![tactic(auto)]

mod disambiguation;
mod laws;
mod matching;
mod move_traits;
mod notation;
mod notation_reading;
mod notation_text;
mod record;
mod record_reading;
mod record_text;
mod san;
mod san_reading;

pub use laws::moves_law;
pub use record::Record;
pub use record_reading::read_record;
pub use record_text::write_record;
pub use san::write_san;
pub use san_reading::{SanFault, read_san};
