//! Where bytes come from and go to: sources and sinks that count their faults.
//!
//! - `ports`: the traits `Source` and `Sink`, and their one failure.
//! - `memory`: a source and a sink in memory, which fail at the calls that they are told.
//! - `adapters`: a source over any reader of std, and a sink over any writer.
//! - `transfer`: reading a source to its end, and writing a whole text to a sink.
//!
//! ```
//! let bytes = b"krieg plan 1\n".as_slice().to_vec(alloc)?;
//! let mut src = MemSource::new(bytes, 5, Vec::new(alloc));
//! let text = read_all(alloc, &mut src, 100)?; // the 13 bytes, 5 a call
//! let space = vec![in alloc; 0u8; 3]?;
//! let mut sink = MemSink::new(space, 100, Vec::new(alloc));
//! let done = write_all(&mut sink, &text); // Err(WriteFault): there are three places
//! let front = sink.bytes(); // "kri"
//! ```
#![tactic(auto)]

mod adapters;
mod memory;
mod ports;
mod transfer;

pub use adapters::{Adapter, AdapterOut};
pub use memory::{MemSink, MemSource};
pub use ports::{Failed, Sink, Source};
pub use transfer::{ReadEnd, WriteFault, read_all, write_all};
