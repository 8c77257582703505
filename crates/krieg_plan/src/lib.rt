//! Plans: what a player has decided in advance, by what he may hear.
//!
//! A node is a try, with where to go on if the umpire calls it illegal (`no`), and where to go on by the
//! words that are heard if it is legal (edges). A plan has roots: a node for each thing that may be heard
//! before the first own turn. In contracts a node is a tree of `krieg_theory` (`tree_of`), and a plan the
//! list of its roots' keys with their trees (`plan_of`).
//!
//! `node` has nodes and edges, and how they are dropped; `plan` has roots, plans and plan files. `edges`
//! and `roots` find the node under a key. `size` says how many nodes there are, and `limits` how many there may be.
//! The rules are the definitions of `specs/`: what is found, and what plans mean (`Trees`, `Nodes`, `Roots`, `Plans`),
//! their size and depth over any game (`PlanMeasures`), and when keys ascend (`Order`). `Node::make` takes memory, and
//! no other call does. A drop takes no stack to speak of; `size_up_to` takes some for each edge on a path.
#![tactic(auto)]

mod edges;
mod limits;
mod node;
mod plan;
mod roots;
mod size;

pub use edges::{find_edge, find_edge_in_order};
pub use limits::{MOST_NODES, MOST_ON_PATH};
pub use node::{Edge, Node};
pub use plan::{Plan, PlanFile, Root};
pub use roots::{compare_heard, find_root, know_ordered};
pub use size::size_up_to;
