//! Players as boxed objects: what the umpire may ask of a player and tell him, and two kinds of player.
//!
//! - `seat`: the trait `Seat`, what a player says, and its faults. In contracts every seat is an `Account`:
//!   what it has said and heard, and three counts: of its asks, of the calls that failed, and of the times that it left.
//! - `script`: a player who says given moves in order, and fails at the calls that he is told.
//! - `stream`: a player behind two streams of the system: he writes his tries, and reads what he is told.
//! - `saying`: what a player says by the bytes that he sends, over any source. It is internal.
//!
//! The definitions of `specs/` say what a call makes of a seat (`Accounts`), how a script is followed
//! (`Scripts`), what a line of bytes says (`Saying`), and what clauses read of a seat over streams
//! (`Streams`); `LineReading` has parts of the work.
//!
//! ```
//! let mut heard = Vec::new(alloc);
//! let lines = b"h1h8\nh1\n".as_slice();
//! let mut seat = StreamSeat::new(alloc, Some(lines), Some(&mut heard));
//! let told = seat.tell(Line::Opens(opening(&p))); // Ok(()), and `heard` has "opens silent\n"
//! let first = seat.ask(); // Ok(Say::Try(..)), the move h1h8
//! let second = seat.ask(); // Err(SeatFault::Failed): "h1" is no move
//! let third = seat.ask(); // Ok(Say::Leave): there is no more
//! ```
#![tactic(auto)]

mod saying;
mod script;
mod seat;
mod stream;

pub use script::ScriptSeat;
pub use seat::{Say, Seat, SeatFault};
pub use stream::StreamSeat;
