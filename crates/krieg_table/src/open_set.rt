ghost use Rattle.std.specs.Prelude.{◌≡◌, ◌<◌, length};
ghost use Rattle.krieg_table.specs.Opened.{IsOpened};
ghost use Rattle.krieg_table.specs.SetRows.{set_at};

use crate::table::Table;
use krieg_pack::Belief;

/// A set of a table that can be looked at while its number is known: nothing but a copy of its members, where the table does not
/// keep them as a list.
#[derive(Drop)]
pub struct OpenSet {
    pub(crate) made: Option<Belief>,
}

impl OpenSet {
    /// The set, which was opened by its number. It takes no memory.
    pub fn of<'a>(&'a self, table: &'a Table, id: u32) -> &'a Belief
        requires within { id < length table.now }
        requires opened { IsOpened self.now (set_at table.now id) }
        ensures { result.now ≡ set_at table.now id }
    {
        match &self.made {
            Some(b) => b,
            None => match table.listed(id) {
                Some(b) => b,
                None => unreachable!(),
            },
        }
    }
}
