ghost use Rattle.std.specs.Prelude.{◌≡◌, map, IfOk};
ghost use Rattle.krieg_board.specs.declared.men.Side.{Side};
ghost use Rattle.krieg_costs.specs.Cost.{first_made};
ghost use Rattle.krieg_game.specs.Chess.{chess};
ghost use Rattle.krieg_game.specs.Outset.{outset};
ghost use Rattle.krieg_game.specs.Classes.{class_pair};
ghost use Rattle.krieg_parting.specs.Charges.{Charges};
ghost use Rattle.krieg_parting.specs.FirstMoves.{AreFirstMoves};
ghost use Rattle.krieg_split.specs.Units.{IsPaid};
ghost use Rattle.krieg_parting.specs.Turns.{IsOthersTurn};
ghost use Rattle.krieg_split.specs.Firsts.{AreFirsts, AreOpeningSets, first_pair, first_cost};

use krieg_board::{NoMemory, Units};
use krieg_game::Class;
use krieg_pack::{Belief, Packed};
use krieg_parting::{FirstMoves, PartStop, first_moves, take};
use krieg_words::{Dialect, Words};
use std::alloc::Global;

/// What is possible once the opening words and those of the opponent's first move were heard.
#[derive(Drop)]
pub struct First {
    pub opens: Words,
    pub reply: Words,
    pub belief: Belief,
}

/// What comes of the opponent's first moves in a set.
#[derive(Drop)]
pub struct Firsts {
    /// Whether in some member he has none.
    pub ended: bool,
    /// A class for all that may be heard, ascending.
    pub classes: Vec<First>,
}

/// The first moves in all members, for one unit each and one for each member.
fn moves_of_all(
    alloc: Global,
    d: Dialect,
    members: &[Packed],
    units: &mut Units,
) -> Result<FirstMoves, PartStop>
    ensures { Charges result (AreFirstMoves d members.now)
        (first_cost members.now) units.old units.new }
{
    take(units, members.len() as u64)?;
    first_moves(alloc, d, members, units)
}

/// The classes under their names.
fn firsts_of(alloc: Global, classes: Vec<Class>) -> Result<Vec<First>, NoMemory>
    ensures { IfOk result (λ v. map first_pair v.items ≡ map class_pair classes.items) }
{
    let mut firsts = Vec::with_capacity(alloc, classes.len())?;
    for class in classes {
        firsts.push(First {
            opens: class.own,
            reply: class.reply,
            belief: class.belief,
        })?;
    }
    Ok(firsts)
}

/// The opponent's first moves in a set: the classes by the opening words and by what is heard of the move.
///
/// It takes one unit for each member and one for each of the moves: no more is made than there are units for. `Spent`
/// comes only where fewer are left. An error takes none.
///
/// The set is one in which the opponent is to move, and `who` in the contract is the player. In any other it tells the
/// same of the moves of whoever is to move.
#[tactic(auto, using(crate::proofs::FirstMoves::cost_is))]
#[inline(never)]
pub fn first_replies(
    alloc: Global,
    d: Dialect,
    b: &Belief,
    units: &mut Units,
) -> Result<Firsts, PartStop>
    ensures parts { IfOk result (AreFirsts d b.now) }
    ensures units { IsPaid result (first_cost b.now) units.old units.new }
    ensures sets { IfOk result (λ r. (who : Side) → IsOthersTurn who b.now
        → AreOpeningSets d who b.now r) }
    ensures cost { (who : Side) → IsOthersTurn who b.now
        → first_made (chess d) (outset d who) b.now ≡ first_cost b.now }
{
    let mut left = Units::new(units.left());
    let FirstMoves { ended, pool } = moves_of_all(alloc, d, b.members(), &mut left)?;
    let classes = firsts_of(alloc, pool.into_classes()?)?;
    *units = left;
    Ok(Firsts { ended, classes })
}
