//! The text of a plan file.
//!
//! The rules of this crate are the definitions of `specs/`: what a plan file is and what holds of those that
//! have a text (`PlanFiles`), the forms of the lines of a node (`NodeForms`), how nodes are read line by line
//! (`NodeReading`) and how the whole file is (`PlanReading`), the one written form of nodes (`NodeText`) and
//! of the file (`PlanText`), and which lines spell a file, with the grammar that tells the first bad line
//! (`PlanSpelling`). `HeardReading` says what a text is that has a plan file, or another file,
//! and behind it what its player heard, and `HeardSpelling` which lines spell one, and which line of it is the first bad one.
//! All calls take memory.
//!
//! ```
//! let text = b"krieg plan 1\nside w\nlist 1\n1k6/8/1K6/8/8/8/8/7R w - -\nworst 1\nroots 1\non silent\nplay h1h8 0\nend\n";
//! let file = read_plan(alloc, text)?;
//! let mut written = Vec::new(alloc);
//! write_plan(&file, &mut written)?; // the same bytes
//! let cut = read_plan(alloc, b"krieg plan 1\nside w\n");
//! // Err(TextFault::At { line: 3, kind: TextKind::Syntax })
//! ```
#![tactic(auto)]

mod forms;
mod heard;
mod nodes;
mod plan_writing;
mod reading;
mod roots;
mod writing;

pub use forms::key_in;
pub use heard::{HeardPlan, read_heard, read_heard_plan};
pub use plan_writing::write_plan;
pub use reading::read_plan;
pub use writing::put_root_line;
