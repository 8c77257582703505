//! The whole program as one call over streams: `run`, and the program `krieg_find` as another: `run_find`. At their edge `start` and
//! `start_find` make a run of the words that the system gives.
//!
//! Words that are a command take their input whole, `krieg_outcome` makes an answer or a refusal of it, and the answer is written
//! whole, or `err` gets the reason. `specs/` says what is seen of a run before it and after it (`World`), what comes of its input
//! (`Input`), and by what causes a run ends so (`Top`).
//!
//! `WholeStrategies` is the promise of `judge`, and `Headline` that of `solve`, of `find`, of `keys` and of `share` on one page.
//! `WholePlans` says that `check` finds what `solve` states, `WholeRefutations` that `refute` writes a refutation and
//! that `deny` finds that such a one holds, `WholeGames` that `believe` lists where a game stands, given what `umpire`
//! writes of it, `WholeRecords` what comes back of a session by `san` and `unsan`, and `LedGames` that a plan that mates
//! leads to a mate, by a plan file or by a strategy. `Complete` says when there must be an answer, and `Limits` what each limit is in numbers.
//!
//! ```
//! // The words are `umpire` and `all`, and the third line of the text is `w e2`.
//! let mut input = MemSource::new(text, 1000, Vec::new(alloc));
//! let mut out = MemSink::new(vec![in alloc; 0u8; 1000]?, 1000, Vec::new(alloc));
//! let mut err = MemSink::new(vec![in alloc; 0u8; 1000]?, 1000, Vec::new(alloc));
//! let status = run(alloc, &words, &mut input, &mut out, &mut err, &mut Bench::new(alloc)); // 3
//! let line = err.bytes(); // "krieg: line 3: syntax\n", and nothing is on `out`
//! ```
//!
//! `Start` says what holds of every start, whatever the words are: no clause of the system's says which they are.
//!
//! ```
//! let mut input = Adapter::new(rt.stdin());
//! let mut out = AdapterOut::new(rt.stdout());
//! let mut err = AdapterOut::new(rt.stderr());
//! let status = start(&rt, &mut input, &mut out, &mut err);
//! // 1, with `krieg: usage` on standard error, where the program has no words
//! ```
#![tactic(auto)]

mod answers;
mod input;
mod laws;
mod report;
mod shell;
mod top;

pub use krieg_args::{SeatFiles, conduct_files, lead_files, seat_files};
pub use krieg_outcome::MOST_INPUT;
pub use krieg_play::{Bench, PlayFault, Played, play};
pub use laws::limits_law;
pub use shell::{start, start_find};
pub use top::{run, run_find};
