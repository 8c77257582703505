ghost use Rattle.std.specs.Prelude.{IfOk};
ghost use Rattle.krieg_costs.specs.Cost.{made};
ghost use Rattle.krieg_game.specs.Chess.{chess};
ghost use Rattle.krieg_split.specs.Parts.{IsParted, IsUnlessStale};
ghost use Rattle.krieg_split.specs.Units.{IsPaid};

use krieg_board::{Move, Units};
use krieg_pack::Belief;
use krieg_parting::{Attempt, PartStop, Parted, gather, parts_of};
use krieg_words::Dialect;
use std::alloc::Global;

/// Parts the set by the try.
///
/// It takes one unit for each member, and where the try is legal one for each reply: no more is made than there are
/// units for. `Spent` comes only where fewer are left. An error takes none.
#[inline(never)]
pub fn split(
    alloc: Global,
    d: Dialect,
    b: &Belief,
    mv: Move,
    units: &mut Units,
) -> Result<Parted, PartStop>
    ensures parts { IfOk result (IsParted d b.now mv) }
    ensures units { IsPaid result (made (chess d) b.now mv) units.old units.new }
{
    let mut left = Units::new(units.left());
    let attempt = Attempt {
        dialect: d,
        mv,
        always: true,
    };
    let parts = gather(alloc, &attempt, b.members(), &mut left)?;
    let parted = parts_of(parts)?;
    *units = left;
    Ok(parted)
}

/// Parts the set by the try, as `split` does, where it stalemates in no member. `None`, where it does in some.
///
/// It takes as many units as `split` does, in both cases. `Spent` comes only where fewer are left. An error takes
/// none. Once a member is stalemated nothing more is kept, and replies are only counted.
#[inline(never)]
pub fn split_unless_stale(
    alloc: Global,
    d: Dialect,
    b: &Belief,
    mv: Move,
    units: &mut Units,
) -> Result<Option<Parted>, PartStop>
    ensures parts { IfOk result (IsUnlessStale d b.now mv) }
    ensures units { IsPaid result (made (chess d) b.now mv) units.old units.new }
{
    let mut left = Units::new(units.left());
    let unless_stale = Attempt {
        dialect: d,
        mv,
        always: false,
    };
    let parts = gather(alloc, &unless_stale, b.members(), &mut left)?;
    if parts.stale {
        *units = left;
        return Ok(None);
    }
    let parted = parts_of(parts)?;
    *units = left;
    Ok(Some(parted))
}
