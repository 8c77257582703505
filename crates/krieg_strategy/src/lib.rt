//! Strategies: plans whose repeated parts are written once.
//!
//! A strategy has nodes by number. A node is a try, with the number of the node to go on with if the umpire calls it
//! illegal (`no`), and numbers to go on with by the words that are heard if it is legal (edges). Each leads to lower
//! numbers alone, so nothing goes in a circle. Roots lead to nodes by what may be heard before the first own turn. The
//! first node has the number 0; the text of a strategy writes one more.
//!
//! What is meant is the plan that a strategy unfolds to: `Unfolded` in `specs/`. It may have billions of nodes, and no code
//! makes it. Everything that is said of a strategy is said of that plan: within how many moves it mates, its worst case,
//! whether it is the canonical one.
//!
//! `nodes` has all nodes in an arena: the edges of all stand in one list, and each node has a range of it (`Arena`). In
//! contracts it is a list of nodes (`Nodes`). `edge` and `root` find the number under a key, `strategy` has the value, and
//! `limits` how much of it there may be. `WellFormed` says what nodes and roots must be, and `toy` has a small example.
//! `Nodes::push` takes memory, and no other call does.
//!
//! ```
//! let mut nodes = Nodes::new(alloc);
//! nodes.push(StrategyNode { mv: a1a8, no: None, edges: &[] })?; // the node 0
//! nodes.push(StrategyNode { mv: b1b8, no: Some(0), edges: &[] })?; // the node 1
//! let next = nodes.get(1).no; // Some(0)
//! ```
#![tactic(auto)]

mod edge;
mod limits;
mod node;
mod nodes;
mod root;
mod strategy;
pub mod toy;

pub use edge::{StrategyEdge, find_edge_to};
pub use limits::{MOST_EDGES, MOST_NODES, MOST_ROOTS, MOST_WORST};
pub use node::StrategyNode;
pub use nodes::Nodes;
pub use root::{StrategyRoot, find_root_to};
pub use strategy::Strategy;
