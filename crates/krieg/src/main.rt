//! The program `krieg`: a start over the standard streams.
//!
//! ```
//! ./krieg solve 1 64 1 < examples/rook.sheet   # a plan that plays h1h8, and status 0
//! ./krieg umpire w < examples/game.session     # White's sheet of the game, and status 0
//! ./krieg solve 0 64 1                         # `krieg: usage` on standard error, and status 1
//! ```
#![tactic(auto)]

use krieg_cli::start;
use krieg_ports::{Adapter, AdapterOut};
use std::process::ExitCode;

fn main(rt: HostRuntime) -> ExitCode {
    let mut input = Adapter::new(rt.stdin());
    let mut out = AdapterOut::new(rt.stdout());
    let mut err = AdapterOut::new(rt.stderr());
    ExitCode::from(start(&rt, &mut input, &mut out, &mut err))
}
