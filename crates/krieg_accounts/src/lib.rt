//! What a search that stores its results takes, over the abstract game of `krieg_theory`.
//!
//! A table has results of pairs: a set of positions with a number of own moves, and the try by which it can be won, or
//! that it cannot. It is sound where each result is right and stands on others that are stored: a loss on the pair of
//! the block of each try, and on the smaller numbers; a win on the parts of its own try, and on the blocks of the tries
//! before it. What a sound table took is at least the floor of `krieg_costs`, once it has the answer.
//!
//! A search may also cut tries: it looks into no part of a try that is known to fail, and takes nothing for it. A flag,
//! `cut`, says whether it may, and where it may, results do not stand on blocks. Then the floor does not hold, and all
//! else does.
//!
//! A stretch of a search goes from one table and number of units to others. Stretches join, and a result that is noted
//! at the end of one makes it a stretch that costs nothing apart from what is stored. So a whole search takes at most
//! what is fresh. `specs/` has the definitions, in the order of its `Lib.antt`, and `laws` what is proved of them.
//!
//! ```
//! floor_is_taken::<Toy>(); // for each search in the small game
//! charging(); // `charged toy of_two` is 9, among others
//! searching(); // a search of the set of 2 with two moves goes from 20 units to 11
//! ```
#![tactic(auto)]

pub mod laws;
pub mod toy;
