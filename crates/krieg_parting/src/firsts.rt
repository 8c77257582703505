ghost use Rattle.std.specs.Prelude.{◌≡◌, length};
ghost use Rattle.krieg_moves.specs.Moves as list;
ghost use Rattle.krieg_costs.specs.Sums.{total};
ghost use Rattle.krieg_parting.specs.Charges.{Charges};
ghost use Rattle.krieg_parting.specs.FirstMoves.{IsAdvanced, AreFirstMoves};

use crate::stop::{PartStop, take};
use krieg_board::Units;
use krieg_game::Pool;
use krieg_moves::legal_moves;
use krieg_pack::{Packed, unpack};
use krieg_words::{Dialect, opening};
use std::alloc::Global;

/// The first moves in the positions of a set, by whoever is to move.
#[derive(Drop)]
pub struct FirstMoves {
    /// Whether in some position there is none.
    pub ended: bool,
    /// What comes of them: the opening words, and what is told of the move.
    pub pool: Pool,
}

/// Adds the first moves in one member, for one unit each.
#[tactic(auto, unfolding(krieg_moves::specs::Moves::is_ended))]
fn add_first_moves(
    alloc: Global,
    d: Dialect,
    member: &Packed,
    found: &mut FirstMoves,
    units: &mut Units,
) -> Result<(), PartStop>
    ensures { Charges result (λ _. IsAdvanced d found.old found.new member.now)
        (length (list.moves member.now)) units.old units.new }
{
    let p = unpack(member);
    let moves = legal_moves(alloc, &p)?;
    take(units, moves.len() as u64)?;
    found.ended = found.ended || moves.is_empty();
    found.pool.add(d, &opening(&p), &p, moves.as_slice())?;
    Ok(())
}

/// The first moves in all members, for one unit each: no more are made than there are units for.
pub fn first_moves(
    alloc: Global,
    d: Dialect,
    members: &[Packed],
    units: &mut Units,
) -> Result<FirstMoves, PartStop>
    ensures { Charges result (AreFirstMoves d members.now)
        (total (λ p. length (list.moves p)) members.now) units.old units.new }
{
    let mut found = FirstMoves {
        ended: false,
        pool: Pool::new(alloc),
    };
    for member in members {
        add_first_moves(alloc, d, member, &mut found, units)?;
    }
    Ok(found)
}
