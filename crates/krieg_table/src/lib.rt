//! Sets of positions by number, and what a search knows of each.
//!
//! A search meets the same sets again and again. `Table` gives each a number, in the order in which they first come, and
//! keeps beside it with how many own moves it cannot be won, and with how many it can, and by which try first. A set is hashed once a call of `intern`, and looked at by its number from then on.
//! It is kept in few words where its members differ in the square of one man alone (krieg_pack's `KeptSet`): `open` makes a list of it,
//! for as long as it is looked at. A set that is kept as a list is lent as it is.
//!
//! In contracts a `Table` is the list of its rows (`SetRows` in `specs/`), and every call says what they become.
//! `Entries` has the results by sets, as `krieg_accounts` speaks of them, and `Table` what a call does to these. `results`
//! has what is known of one set, and `open_set` a set while it is looked at; the first is internal.
//!
//! ```
//! let mut table = Table::new(alloc);
//! let id = table.intern(set)?; // 0: the first set
//! let opened = table.open(alloc, id)?;
//! let members = opened.of(&table, id).len(); // those of the set
//! let unknown = table.result(id, 2); // None
//! table.note(id, 1, SetResult::Loses);
//! table.note(id, 2, SetResult::Wins(mv));
//! let again = table.intern(copy)?; // 0 once more
//! let found = table.result(again, 2); // Some(SetResult::Wins(mv)), and still None with 3 moves
//! let sets = table.into_sets(alloc)?; // the set, moved out, and what was known of it is let go
//! ```
#![tactic(auto)]

mod open_set;
mod results;
mod set_result;
mod table;

pub use open_set::OpenSet;
pub use set_result::{SetResult, Win};
pub use table::{MOST_SETS, Table};
