//! The theory of plans under hidden information.
//!
//! A player who does not see the position tries moves until the umpire allows one, and hears a few words of it and
//! of the reply. This crate says what a plan for such a player is, when it mates from every position that is
//! possible, and by which recursion over sets of positions the best one is found. It knows no chess: the game is
//! any that meets a few laws. `specs/` has the definitions, in the order of its `Lib.antt`, and `laws` what is
//! proved of them.
//!
//! `Seen` asks what a player who sees the position can do, and `seen_laws` has what is proved of it. He mates wherever
//! one who does not see it can, and in no more moves; so a try begins no win where some reply escapes even from him.
//!
//! ```
//! impl HiddenGame for Toy {
//!     ghost game = { toy };
//!     ghost outset = { toy_start };
//!     ghost lawful = { lawful };
//!     ghost outset_lawful = { start_lawful };
//! }
//! least_is_least::<Toy>(); // of each set of that game the least number is the least over all trees
//! recursion(); // `least toy 3 (1 ∷ 2 ∷ [])` is 2, among others
//! ```
#![tactic(auto)]

mod game;
pub mod laws;
pub mod seen_laws;
pub mod seen_toy;
pub mod toy;

pub use game::HiddenGame;
