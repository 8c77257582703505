//! What a search for a plan takes: what it takes without storing anything, what it takes at most if it never looks
//! at a set with the same number twice, and what it must take. And how a list of claims shows that no plan mates.
//!
//! The units are those of splits: a try is made on a set of positions, which takes one unit for each member and one
//! for each reply. Everything stands over the abstract game of `krieg_theory`. `specs/` has the definitions, in the
//! order of its `Lib.antt`, and `laws` what is proved of them.
//!
//! ```
//! fresh_is_at_most_cost::<Toy>(); // for each list of positions of the small game
//! costs(); // `cost toy 1 (0 ∷ 1 ∷ [])` is 20, among others
//! reaching(); // `fresh toy toy_start 1 (0 ∷ 1 ∷ [])` is 17
//! ```
#![tactic(auto)]

pub mod laws;
pub mod toy;
