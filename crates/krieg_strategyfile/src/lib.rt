//! The text of a strategy: a plan whose repeated parts are written once.
//!
//! A file names the dialect and the player's side, and lists the positions. Then come the own moves within which the strategy
//! mates, as it claims, its nodes, and its roots. The line of a node has a try, the number of the node to go on with if it is
//! illegal, and how many edges follow; those of edges and roots are lines of a plan file with the number of a node. The text
//! counts nodes from 1, a `Strategy` from 0. Each node leads to those before it alone.
//!
//! The rules are the definitions of `specs/`: what a strategy is to contracts (`Strategies`) and which have a text (`Writable`),
//! the forms of the lines and how they are written (`LineForms`), and the format, described once in the terms of krieg_format:
//! its lines (`StrategyLines`), their order, of which the reader, the lines that spell a strategy and the grammar are read off
//! (`StrategyFormat`), and the one written form, which is read off as well (`StrategyText`). `HeardStrategies` says what a text is
//! that has a strategy and behind it what its player heard. `Parts` has the lines of its parts, and `ReadParts` their readers.
//!
//! A text is read once, and a fault is its first bad line: `reading` has the parts in their order, `nodes` and `roots` what
//! repeats, and `heard` what its player heard. The edges of each node are read into the same memory, and go from there into the arena of all. What is written
//! has fewer than 66,000,000 bytes, so it is never too long for an input.
//!
//! ```
//! // `strategy` has one node, which plays h1h8, and one root
//! let text = write_strategy(alloc, &strategy)?;
//! // b"krieg strategy 1\ndialect wild16\nside w\nlist 1\n1k6/8/1K6/8/8/8/8/7R w - -\nworst 1\nnodes 1\nplay h1h8 0\n\
//! //     roots 1\non silent 1\nend\n"
//! let again = read_strategy(alloc, &text)?; // the same strategy
//! ```
#![tactic(auto)]

mod forms;
mod heard;
mod nodes;
mod reading;
mod roots;
mod writing;

pub use heard::{HeardStrategy, read_heard_strategy};
pub use reading::read_strategy;
pub use writing::write_strategy;
