//! One player's sheet: the positions in which the game may have begun, and what the player heard since.
//!
//! The rules of this crate are the definitions of `specs/`: what a sheet is (`Sheets`), which entries are
//! in place (`Turns`), what a list of positions must be (`Lists`), what holds of every sheet (`Places`), the
//! text of a sheet (`SheetText`), which lines spell one (`SheetSpelling`), how it is read line by line
//! (`SheetReading`), and the hidden games that a sheet leaves open (`Games`). `push`, the reader and the
//! writers take memory.
//!
//! ```
//! let text = b"krieg sheet 1\nside w\nlist 1\n1k6/8/1K6/8/8/8/8/7R w - -\nopens silent\nend\n";
//! let mut sheet = read_sheet(alloc, text)?;
//! let turn = sheet.my_turn(); // true
//! sheet.push(read_line(b"try a1a1 illegal")?)?;
//! let early = sheet.push(read_line(b"try a1a1 early")?);
//! // Err(SheetFault::OutOfPlace): it is still White's turn
//! ```
#![tactic(auto)]

mod list;
mod reading;
mod sheet;
mod turns;
mod writing;

pub use reading::read_sheet;
pub use sheet::{Sheet, SheetFault};
pub use writing::{list_line, put_end, put_entry, put_head, put_sheet, write_sheet};
