ghost use Rattle.std.specs.Prelude.{◌≡◌, map, IfOk};
ghost use Rattle.krieg_board.specs.declared.men.Side.{Side};
ghost use Rattle.krieg_game.specs.Classes.{class_pair, classes_in};
ghost use Rattle.krieg_game.specs.ClassLaws.{opened, opening_sets};
ghost use Rattle.krieg_parting.specs.Turns.{IsOwnTurn};
ghost use Rattle.krieg_split.specs.Openings.{opened_pair, opened_set, heard_first};
ghost use Rattle.krieg_words.specs.ToldWords.{silent};

use krieg_board::NoMemory;
use krieg_game::Class;
use krieg_pack::Belief;
use krieg_parting::with_openings;
use krieg_words::{Dialect, Words};
use std::alloc::Global;

/// The members of a set with the same opening words.
#[derive(Drop)]
pub struct OpeningSet {
    pub opens: Words,
    pub belief: Belief,
}

/// The classes by their opening words alone.
fn opened_of(alloc: Global, classes: Vec<Class>) -> Result<Vec<OpeningSet>, NoMemory>
    ensures { IfOk result (λ v. map opened_pair v.items
        ≡ map heard_first (map class_pair classes.items)) }
{
    let mut openings = Vec::with_capacity(alloc, classes.len())?;
    for class in classes {
        openings.push(OpeningSet {
            opens: class.own,
            belief: class.belief,
        })?;
    }
    Ok(openings)
}

/// The members of a set by what is told of them at the start, ascending.
///
/// Where the player `who` is to move in all of them, these are the opening sets of his plans.
#[inline(never)]
pub fn openings(alloc: Global, d: Dialect, b: &Belief) -> Result<Vec<OpeningSet>, NoMemory>
    ensures value { IfOk result (λ v. map opened_pair v.items
        ≡ map heard_first (classes_in (map (opened d silent) b.now))) }
    ensures sets { IfOk result (λ v. (who : Side) → IsOwnTurn who b.now
        → map opened_set v.items ≡ opening_sets d who b.now) }
{
    let pool = with_openings(alloc, d, b.members())?;
    opened_of(alloc, pool.into_classes()?)
}
