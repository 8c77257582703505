//! The claims that are written of a set that cannot be won, over the abstract game of `krieg_theory`.
//!
//! A claim says of a set that it cannot be won within a number of moves, for a reason at each try, and a reason may cite
//! claims that stand before it (`Refutation` of `krieg_costs`). This crate says which claims are written and in which
//! order: the set of each block behind all that it cites itself, no set twice with the same number, and the set that was
//! asked last. `InOrder` and `Written` in `specs/` have that, `Sizes` how large claims are, and `laws` what is proved of
//! them.
//!
//! `Standing`, `Walks` and `Losses` are for who writes claims of stored results: a walk that claims one set after another,
//! and what it may take for lost.
//!
//! ```
//! denial_refutes::<Toy>(); // for each list of positions of the small game
//! claiming(); // `claims toy 1 (2 ∷ [])` is one claim with two reasons, among others
//! ```
#![tactic(auto)]

pub mod laws;
pub mod toy;
