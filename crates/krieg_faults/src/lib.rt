//! Faults that texts and chess share: why a position is none, and that memory was not found.
//!
//! They stand below both, so that the toolkit of texts needs no board. `krieg_board` passes them on.
//!
//! ```
//! let list: Vec<u8> = Vec::with_capacity(alloc, 3).map_err(NoMemory::from)?; // Err(NoMemory) where none was found
//! ```
#![tactic(auto)]

mod memory;
mod position;

pub use memory::NoMemory;
pub use position::BadPosition;
