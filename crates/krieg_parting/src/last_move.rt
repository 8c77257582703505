ghost use Rattle.std.specs.Prelude.{◌≡◌, ◌≤◌, true, suc, length};
ghost use Rattle.krieg_moves.specs.After as change;
ghost use Rattle.krieg_moves.specs.Legal as rule;
ghost use Rattle.krieg_moves.specs.Moves as list;
ghost use Rattle.krieg_moves.specs.declared.count.TheConstants.{MOST_LEGAL_MOVES};
ghost use Rattle.krieg_words.specs.declared.dialects.Dialect.{Dialect};
ghost use Rattle.krieg_costs.specs.Cost.{made};
ghost use Rattle.krieg_game.specs.Chess.{chess};
ghost use Rattle.krieg_parting.specs.Charges.{Charges};
ghost use Rattle.krieg_parting.specs.Mating as spec;
ghost use Rattle.krieg_parting.specs.Mating.{IsTried, AreTried, IsMating, looked_at};

use crate::stop::{PartStop, take};
use krieg_board::{Move, Position, Units};
use krieg_moves::{mates_by, replies_if_legal};
use krieg_pack::{Packed, unpack};
use std::alloc::Global;

/// What a try makes of a set where it must mate.
#[derive(Drop)]
pub struct Mating {
    /// Whether in some member it is legal and does not mate.
    pub lives: bool,
    /// The members in which it is illegal, as long as they are wanted.
    pub refused: Vec<Packed>,
}

/// Tries the legal move in one member, with so many replies.
fn try_legal(
    p: &Position,
    mv: &Move,
    replies: usize,
    found: &mut Mating,
    units: &mut Units,
) -> Result<(), PartStop>
    requires legal { rule.is_legal p.now mv.now ≡ true }
    requires replies { replies ≡ length (list.moves (change.after p.now mv.now)) }
    requires few { replies ≤ MOST_LEGAL_MOVES }
    ensures { Charges result (λ _. IsTried true found.old found.new p.now mv.now)
        (suc (spec.replies mv.now p.now)) units.old units.new }
{
    take(units, 1 + replies as u64)?;
    found.lives = found.lives || !mates_by(p, *mv, replies);
    Ok(())
}

/// Tries the move in one member, for one unit and one for each reply.
fn try_in(
    member: &Packed,
    mv: &Move,
    always: bool,
    found: &mut Mating,
    units: &mut Units,
) -> Result<(), PartStop>
    ensures { Charges result (λ _. IsTried always found.old found.new member.now mv.now)
        (suc (spec.replies mv.now member.now)) units.old units.new }
{
    let p = unpack(member);
    if let Some(replies) = replies_if_legal(&p, *mv) {
        return try_legal(&p, mv, replies, found, units);
    }
    take(units, 1)?;
    if always || !found.lives {
        found.refused.push(*member)?;
    }
    Ok(())
}

/// Tries the move in all members.
fn try_in_all(
    alloc: Global,
    members: &[Packed],
    mv: &Move,
    always: bool,
    units: &mut Units,
) -> Result<Mating, PartStop>
    ensures { Charges result (AreTried always members.now mv.now)
        (looked_at members.now mv.now) units.old units.new }
{
    let mut found = Mating {
        lives: false,
        refused: Vec::new(alloc),
    };
    for member in members {
        try_in(member, mv, always, &mut found, units)?;
    }
    Ok(found)
}

/// Tries a move in all members where it must mate. With `always` the members in which it is illegal are given in any
/// case, and otherwise only where none lives: once one does, no more are stored.
///
/// It takes as many units as `gather` does, in every dialect. Nothing that is heard matters for it, so it makes no
/// words, and replies are only counted.
pub fn try_to_mate(
    alloc: Global,
    members: &[Packed],
    mv: &Move,
    always: bool,
    units: &mut Units,
) -> Result<Mating, PartStop>
    ensures { (d : Dialect) → Charges result (IsMating d always members.now mv.now)
        (made (chess d) members.now mv.now) units.old units.new }
{
    try_in_all(alloc, members, mv, always, units)
}
