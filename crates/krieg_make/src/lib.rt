//! Made inputs: for each number a sheet and a session, the same ones at every call, to try a program with.
//!
//! The rules of this crate are the definitions of `specs/`: the squares that they name (`Named`), where a game
//! begins (`Start`), the positions of which White does not know which one it is, and in each of which he mates at
//! once (`MadePositions`), the sheet that lists some of them (`MadeSheets`), the session of early, illegal and silent
//! tries (`MadeSessions`), their texts (`MadeTexts`), and what holds of them (`Laws`). Each call takes memory.
//!
//! ```
//! let text = make(alloc, 0, MakeKind::Sheet)?;
//! // "krieg sheet 1", "side w", "list 1", "k7/7R/8/8/8/pp6/8/2K3R1 w - -", "end", a line each
//! let sheet = made_sheet(alloc, 1379)?; // the same as a value; this one lists all 1,380 positions
//! let session = made_session(alloc, 0)?; // 3,000 tries
//! ```
#![tactic(auto)]

mod laws;
mod named;
mod position;
mod session;
mod sheet;
mod start;
mod text;

pub use laws::{lists_law, positions_law, rounds_law};
pub use session::made_session;
pub use sheet::made_sheet;
pub use text::{MakeKind, make};
