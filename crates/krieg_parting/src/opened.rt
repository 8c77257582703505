ghost use Rattle.std.specs.Prelude.{map, IfOk};
ghost use Rattle.krieg_game.specs.Buckets.{Holds};
ghost use Rattle.krieg_game.specs.ClassLaws.{opened};
ghost use Rattle.krieg_words.specs.ToldWords.{silent};

use krieg_board::NoMemory;
use krieg_game::Pool;
use krieg_pack::{Packed, unpack};
use krieg_words::Dialect;
use std::alloc::Global;

/// All members with what is told of them at the start.
pub fn with_openings(alloc: Global, d: Dialect, members: &[Packed]) -> Result<Pool, NoMemory>
    ensures { IfOk result (λ pool. Holds pool (map (opened d silent) members.now)) }
{
    let mut pool = Pool::with_room(alloc, members.len());
    for member in members {
        pool.add_opening(d, &unpack(member))?;
    }
    Ok(pool)
}
