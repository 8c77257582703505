//! The toolkit of all texts: reading line by line, numbers and names, what is wrong with a line, and writing.
//!
//! It knows no chess. A text is cut into lines (`lines`), which a `LineSource` gives one by one, each read by a form: a
//! `Cursor` lends the text, and an `OwnedCursor` lets go of what is read. A form is a word, or a name and what stands
//! after it (`forms`). A reader answers a value or a `TextFault`: the first line that is not accepted, and what is wrong
//! with it. A writer named `put_*` adds to a `Text`, which leaves a byte vector as it was where memory runs out.
//!
//! The definitions of `specs/` say what the lines of a text are (`Lines`), how readers of lines are made of one another
//! (`Reading`), also where the text is let go piece by piece (`OwnedLines`), which texts a grammar has (`Languages`), which
//! line is the first bad one (`FirstBad`), what a reader of a format promises (`Formats`), and what is written (`Writing`).
//!
//! ```
//! let mut from = Cursor::new(b"krieg sheet 1\nlist 007\n");
//! let version = read_version(&mut from, b"krieg sheet ", 2)?; // 1
//! let count = read_count(&mut from, b"list ", 1, 200_000);
//! // Err(TextFault::At { line: 2, kind: TextKind::Syntax })
//! ```
#![tactic(auto)]

mod cursor;
mod fault;
mod forms;
mod lines;
mod names;
mod number;
mod owned_cursor;
mod pieces;
mod source;
mod writing;

pub use cursor::Cursor;
pub use fault::{TextFault, TextKind};
pub use forms::{count_form, read_count, read_version, read_word};
pub use lines::{Lines, lines_of};
pub use names::{behind, is_name};
pub use number::{
    NumberFault, has_digits_only, is_plain, put_number, read_number, read_number_between,
};
pub use owned_cursor::OwnedCursor;
pub use pieces::{cut, cut_last};
pub use source::LineSource;
pub use writing::Text;
