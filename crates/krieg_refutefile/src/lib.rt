//! The text of refutations, which krieg_refute writes and krieg_refutation checks: files that show that no plan mates.
//!
//! A file names the dialect and the player's side, says within how many own moves no plan mates, and lists the positions.
//! Then come claims, each with a number of moves, the positions of a set, and a reason for each try why it does not win all
//! of the set within that number. A reason may cite a claim before its own. Reading asks for the form alone, that positions
//! and moves ascend, and that what is cited stands before; whether the claims hold is for `deny` of krieg_refutation.
//!
//! The rules are the definitions of `specs/`: what a refutation is to contracts and when it refutes (`Refutations`), which
//! have a text (`Writable`), the forms of the lines of a claim and how they are written (`LineForms`), and the format,
//! described once in the terms of krieg_format: its lines (`RefutationLines`), their order, of which its reader, the lines
//! that spell a file and the grammar are read off (`RefutationFormat`), and the one written form, which is read off as well
//! (`RefutationText`). `Parts` and `InPieces` are parts of the work.
//!
//! A text is written into `Pieces` of 8 KiB: it is never copied, and takes the memory of the claims that are let go while it grows.
//! One that is read is cut into pieces as well (`OwnedCursor` of krieg_text), each of which is let go once its lines are read.
//!
//! ```
//! let text = b"krieg refutation 1\ndialect wild16\nside w\nmoves 1\nlist 1\n7k/8/8/8/8/8/8/K7 w - -\nclaims 1\n\
//!     claim 1 1\n7k/8/8/8/8/8/8/K7 w - -\ntries 3\na1b1 lives\na1a2 lives\na1b2 lives\nend\n";
//! let file = read_refutation(alloc, text.to_vec(alloc)?)?;
//! let held = deny(alloc, &file, &mut units)?; // true: a king alone does not mate
//! let set = Belief::from_packed(file.list.clone()?);
//! if let Denied::Denial(claims) = refute(alloc, file.dialect, &set, file.moves, &mut units)? {
//!     let denial = Denial { dialect: file.dialect, side: file.side, moves: file.moves, set, claims };
//!     let found = write_denial(alloc, denial)?; // a text of the claims that are found, in `found.pieces()`
//! }
//! let cut = read_refutation(alloc, b"krieg refutation 1\nside w\n".to_vec(alloc)?);
//! // Err(TextFault::At { line: 2, kind: TextKind::Syntax }): the dialect has a line
//! ```
#![tactic(auto)]

mod claims;
mod forms;
mod pieces;
mod reading;
mod writing;

pub use pieces::Pieces;
pub use reading::read_refutation;
pub use writing::{Denial, write_denial};
