//! The texts of what the umpire says, in three dialects: words, a player's line, and the first lines of a text, which tell its dialect.
//!
//! The rules are the definitions of `specs/`: texts of parts (`Parts`), the text of words
//! (`WordsText`) and the words of a text (`WordsReading`), a player's line and its text (`Line`) and the line of a text (`LineReading`),
//! and the first lines (`Versions`). Only the writers take memory.
//!
//! ```
//! let p = read_position(b"1k6/8/1K6/8/8/8/8/7R w - -")?;
//! let h1h8 = read_move(b"h1h8")?;
//! if let Some(made) = make_if_legal(&p, h1h8) {
//!     write_words(made.words, &mut text)?; // "check rank, mate"
//!     let plain = told(Dialect::Plain, made.words);
//!     write_words_in(Dialect::Plain, plain, &mut other)?; // "check, mate"
//! }
//! ```
#![tactic(auto)]

mod line;
mod line_reading;
mod parts;
mod versions;
mod words_reading;
mod words_text;

pub use line::{Line, know_line, put_line, put_line_in, told_line, write_line, write_line_in};
pub use line_reading::{LineFault, read_line, read_line_in};
pub use versions::{
    put_dialect_line, put_second_version, put_version_lines, read_dialect_line, read_version_lines,
    version_line_count,
};
pub use words_reading::{WordsFault, read_words_in};
pub use words_text::{has_ended, put_words, put_words_in, write_words, write_words_in};
