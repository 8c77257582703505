//! The commands of the program, read from the words after its name.
//!
//! A command is a row of `specs/Rows`, where each program has its list: a name, what the words behind it are (`Kinds`), and the command
//! that is made of them. `Command` says which words are one, and which commands read an input, and `Files` which files words name.
//! `words` reads what stands behind a name, one word after the other: each reader hands on the words behind its own.
//! `rows` has a function for each row. The readers take no memory.
//!
//! ```
//! let mut words = Vec::new(alloc);
//! words.push(String::from_str(alloc, "check")?)?;
//! words.push(String::from_str(alloc, "200000")?)?;
//! let command = command_of(&words); // Some(Command::Check { budget: 200_000 })
//! words.push(String::from_str(alloc, "1")?)?;
//! let none = command_of(&words); // None: one word too many
//! ```
#![tactic(auto)]

mod command;
mod files;
mod rows;
mod words;

pub use command::{Command, MOST_ASKS, MOST_FIND_MOVES, MOST_FIND_UNITS, MOST_SEED, MadeInput};
pub use files::{SeatFiles, conduct_files, lead_files, seat_files};
pub use rows::{command_of, find_of};
