ghost use Rattle.std.specs.Prelude.{◌≡◌, ◌+◌, false, None, Some, IfOk, filter, ⊤, if◌then◌else◌};
ghost use Rattle.krieg_pack.specs.Members.{set_of};
ghost use Rattle.krieg_costs.specs.Cost.{made};
ghost use Rattle.krieg_game.specs.Chess.{chess};
ghost use Rattle.krieg_parting.specs.Mating.{AreTried, refuses};
ghost use Rattle.krieg_split.specs.Units.{Charges, IsPaid};
ghost use Rattle.krieg_split.specs.LastMove.{IsLastMove};
ghost use Rattle.krieg_split.specs.Tallies.{tally_of};

use crate::tallies::Tally;
use krieg_board::{Move, NoMemory, Units};
use krieg_moves::is_legal;
use krieg_pack::{Belief, Packed, unpack};
use krieg_parting::{Mating, PartStop, take, try_to_mate};
use krieg_words::Dialect;
use std::alloc::Global;

/// The members that refuse the try, where it mates in all others.
fn left_by(found: Mating) -> Option<Belief>
    ensures { result ≡ (if found.lives then None else Some (set_of found.refused.items)) }
{
    if found.lives {
        return None;
    }
    Some(Belief::from_packed(found.refused))
}

/// Tries a move where it must mate: it gives the members in which it is illegal, and `None` where in some member it
/// is legal and does not mate.
///
/// It takes as many units as `split` does. `Spent` comes only where fewer are left. An error takes none. Nothing that
/// is heard matters for it, so it makes no words; and once one member lives it only counts.
#[inline(never)]
pub fn split_to_mate(
    alloc: Global,
    d: Dialect,
    b: &Belief,
    mv: Move,
    units: &mut Units,
) -> Result<Option<Belief>, PartStop>
    ensures parts { IfOk result (IsLastMove d b.now mv) }
    ensures units { IsPaid result (made (chess d) b.now mv) units.old units.new }
{
    let mut left = Units::new(units.left());
    let found = try_to_mate(alloc, b.members(), &mv, false, &mut left)?;
    *units = left;
    Ok(left_by(found))
}

/// The members in which the move is illegal.
fn refusing(alloc: Global, members: &[Packed], mv: &Move) -> Result<Vec<Packed>, NoMemory>
    ensures { IfOk result (λ v. v.items ≡ filter (refuses mv.now) members.now) }
{
    let mut refused = Vec::new(alloc);
    for member in members {
        if !is_legal(&unpack(member), *mv) {
            refused.push(*member)?;
        }
    }
    Ok(refused)
}

/// What the try makes of all members, by its tally. They are looked at only where it mates wherever it is legal.
fn mating_by(alloc: Global, members: &[Packed], tally: &Tally) -> Result<Mating, NoMemory>
    requires { tally.now ≡ tally_of members.now tally.now.mv }
    ensures { IfOk result (AreTried false members.now tally.now.mv) }
{
    let refused = if tally.lives {
        Vec::new(alloc)
    } else {
        refusing(alloc, members, &tally.mv)?
    };
    Ok(Mating {
        lives: tally.lives,
        refused,
    })
}

/// Takes one unit for each member and one for each reply.
fn pay(members: usize, replies: u64, units: &mut Units) -> Result<(), PartStop>
    ensures { Charges result (λ _. ⊤) (members + replies) units.old units.new }
{
    take(units, members as u64)?;
    take(units, replies)
}

/// The same as `split_to_mate`, for as many units, by the tally of the move in the set: its replies are counted already. The
/// members are looked at once more only where it mates wherever it is legal.
#[inline(never)]
pub fn mate_by_tally(
    alloc: Global,
    d: Dialect,
    b: &Belief,
    tally: &Tally,
    units: &mut Units,
) -> Result<Option<Belief>, PartStop>
    requires { tally.now ≡ tally_of b.now tally.now.mv }
    ensures parts { IfOk result (IsLastMove d b.now tally.now.mv) }
    ensures units { IsPaid result (made (chess d) b.now tally.now.mv) units.old units.new }
{
    let mut left = Units::new(units.left());
    pay(b.len(), tally.replies, &mut left)?;
    let found = mating_by(alloc, b.members(), tally)?;
    *units = left;
    Ok(left_by(found))
}
