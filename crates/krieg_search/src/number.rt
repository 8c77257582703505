ghost use Rattle.std.specs.Prelude.{IfOk};
ghost use Rattle.krieg_search.specs.Stretches.{AreCounted, IsNumbered};

use krieg_board::NoMemory;
use krieg_pack::Belief;
use krieg_table::{MOST_SETS, Table};

/// The number of the set, which is put into the table if it is new there. A table that is full is want of memory.
#[inline(never)]
pub fn number_of(table: &mut Table, b: Belief) -> Result<u32, NoMemory>
    requires { AreCounted table.old }
    ensures { IfOk result (IsNumbered table.old table.new b) }
{
    let _members = b.len();
    if table.len() >= MOST_SETS {
        return Err(NoMemory);
    }
    table.intern(b)
}
