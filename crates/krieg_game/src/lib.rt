//! The umpire's game as a value of the theory of plans, and the grouping of what comes of a try by what is told.
//!
//! `heard` keeps what is told of a try and of the reply as one number, and `bucket` the positions that come about with
//! it. `kept_outcomes` keeps what comes of a try in such buckets, and makes their `classes`: for each key that occurs the
//! set of its positions. `pool` adds what comes of one member after another. A king who is alone comes to a square from
//! several of them, and `steps` tells what is there already. `laws` has theorems: each function there does nothing, and its
//! contract is one.
//!
//! The rules are the definitions of `specs/`: what a player hears between two own turns, and its order (`Keys`);
//! chess under an umpire, in each dialect, as a game of `krieg_theory` (`Chess`); how it comes to the player's first
//! turn from positions in which either side is to move (`Outset`); the classes of outcomes (`Classes`). `Laws`,
//! `OutsetLaws` and `ClassLaws` say what winning, plans and classes are in the words of chess.
#![tactic(auto)]

mod bucket;
mod classes;
mod heard;
mod kept_outcomes;
pub mod laws;
mod pool;
mod steps;

pub use classes::Class;
pub use pool::Pool;
