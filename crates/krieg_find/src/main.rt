//! The program `krieg_find`, for what lies beyond the limits of `krieg`: a start of these commands over the standard streams. `./krieg` runs
//! it for their words.
//!
//! - `find` writes of a sheet what `krieg solve` writes with the same numbers, mostly for far fewer units, and takes more moves and units.
//! - `keys` writes every first try that is as fast as any.
//! - `share` writes the plan of `find` as a strategy, in which what repeats itself is written once.
//! - `judge` says of a strategy that it mates, and in how many moves.
//! - `advise` says what a strategy tries next, by the lines that its player heard.
//! - `conduct` lets a strategy play a game against a player at two files.
//!
//! ```
//! ./krieg find 1 64 1 < examples/rook.sheet   # a plan that plays h1h8, and status 0
//! ./krieg keys 1 64 1 < examples/rook.sheet   # that h1h8 alone mates at once
//! ./krieg share 1 64 1 < examples/rook.sheet  # a strategy of one node, which plays h1h8
//! ./krieg find 0 64 1                         # `krieg: usage` on standard error, and status 1
//! ```
#![tactic(auto)]

use krieg_cli::start_find;
use krieg_ports::{Adapter, AdapterOut};
use std::process::ExitCode;

fn main(rt: HostRuntime) -> ExitCode {
    let mut input = Adapter::new(rt.stdin());
    let mut out = AdapterOut::new(rt.stdout());
    let mut err = AdapterOut::new(rt.stderr());
    ExitCode::from(start_find(&rt, &mut input, &mut out, &mut err))
}
