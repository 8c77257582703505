//! What the umpire says after each legal move and at the start of a game, and what three dialects tell of it.
//!
//! What a dialect tells, and how it is written, is one record a dialect (`Dialects` in `specs/`, `dialects`
//! here): how men are told, how checks, what of pawn tries, and which version its texts have. All else asks
//! that record. The kinds of check are those by file, rank, long or short diagonal, or knight. The texts of words are
//! krieg_wordtext's.
//!
//! The rules of this crate are the definitions of `specs/`: which of the two diagonals through a square is the longer
//! (`Diagonals`), the kinds of check that the side to move is in (`Kinds`), what words are and their order (`Words`), pawn
//! tries (`PawnTries`), the words of a move and of a position (`WordsOfMoves`), the dialects (`Dialects`), what
//! they tell of words (`ToldWords`) and of a move (`ToldMoves`), and words as numbers (`WordNumbers`). Nothing here takes memory.
//!
//! ```
//! // White's king stands on b6, his rook on h1 and Black's king on b8; White is to move
//! if let Some(made) = make_if_legal(&p, h1h8) {
//!     let mates = matches!(made.words.end, End::Mate); // true
//!     let plain = told(Dialect::Plain, made.words); // a check, without its kind
//! }
//!
//! // White's king stands on e1 and is to move. Black has rooks on e8 and a1 and a knight on d3.
//! let kinds = kinds_of(&p);
//! let by_lines = (kinds.file, kinds.rank); // (true, true)
//! let by_diagonals = (kinds.long, kinds.short); // (false, false)
//! let bits = kinds.bits(); // 19: file 1, rank 2, knight 16
//! ```
#![tactic(auto)]

mod diagonals;
mod dialects;
mod kinds;
mod pawn_tries;
mod told_moves;
mod told_words;
mod word_numbers;
mod words;
mod words_of_moves;

pub use diagonals::long_diagonal;
pub use dialects::{
    ChecksTold, Dialect, DialectRules, MenTold, TextVersion, TriesTold, UNNAMED_DIALECT,
    dialect_name, dialect_rules, read_dialect,
};
pub use kinds::{Kinds, NO_KINDS, kinds_by, kinds_of};
pub use pawn_tries::tries;
pub use told_moves::{after_told, after_told_if_legal};
pub use told_words::{SOME_KIND, told};
pub use word_numbers::{WORDS_LIMIT, words_at, words_number};
pub use words::{End, MOST_TRIES, SILENT, Took, Words, compare, know_words};
pub use words_of_moves::{Made, make_if_legal, make_move, opening, words_of};
