ghost use Rattle.std.specs.Prelude.{◌≡◌, ◌⊎◌, IfOk, OnOk, map};
ghost use Rattle.krieg_board.specs.Men.{is_same_side};
ghost use Rattle.krieg_board.specs.Pos.{Pos};
ghost use Rattle.krieg_theory.specs.Sets.{In};
ghost use Rattle.krieg_costs.specs.Cost.{first_made};
ghost use Rattle.krieg_game.specs.Chess.{chess};
ghost use Rattle.krieg_game.specs.Outset.{outset};
ghost use Rattle.krieg_parting.specs.Turns.{IsOwnTurn, IsOthersTurn};
ghost use Rattle.krieg_split.specs.Units.{Charges};
ghost use Rattle.krieg_split.specs.Openings.{opened_set};
ghost use Rattle.krieg_split.specs.Firsts.{first_set};
ghost use Rattle.krieg_search.specs.Stretches.{AreCounted};
ghost use Rattle.krieg_search.specs.Openings.{AreNumbered, IsAdded, AreAdded, IsOpened};

use crate::number::number_of;
use krieg_board::{NoMemory, Side, Units};
use krieg_pack::Belief;
use krieg_parting::PartStop;
use krieg_split::{First, Firsts, OpeningSet, first_replies, openings};
use krieg_table::Table;
use krieg_words::{Dialect, Words};
use std::alloc::Global;

/// What may be heard before the first own turn, and the number of the set of what is possible then.
#[derive(Drop)]
pub struct Opening {
    /// The opening words.
    pub opens: Words,
    /// The words of the opponent's first move, where he is to move first.
    pub heard: Option<Words>,
    pub set: u32,
}

/// Whether the side is to move in the positions of the set.
fn is_own_turn(b: &Belief, who: Side) -> bool
    requires { IsOwnTurn who b.now ⊎ IsOthersTurn who b.now }
    ensures { (p : Pos) → In p b.now → is_same_side p.side who ≡ result }
{
    b.is_empty() || b.get(0).side() == who
}

/// Adds an opening, whose set is let go into the table.
fn add(
    table: &mut Table,
    openings: &mut Vec<Opening>,
    opens: Words,
    heard: Option<Words>,
    belief: Belief,
) -> Result<(), NoMemory>
    requires counted { AreCounted table.old }
    requires numbered { AreNumbered table.old openings.old.items }
    ensures { OnOk result (IsAdded table.old table.new openings.old.items openings.new.items
        ((opens, heard), belief)) }
{
    let set = number_of(table, belief)?;
    openings.push(Opening { opens, heard, set })?;
    Ok(())
}

/// The openings at the player's turn.
fn own_openings(
    alloc: Global,
    table: &mut Table,
    opened: Vec<OpeningSet>,
) -> Result<Vec<Opening>, NoMemory>
    requires { AreCounted table.old }
    ensures { IfOk result (λ os. AreAdded table.old table.new os.items
        (map opened_set opened.items)) }
{
    let mut found = Vec::new(alloc);
    for o in opened {
        add(table, &mut found, o.opens, None, o.belief)?;
    }
    Ok(found)
}

/// The openings at the opponent's turn, by what is heard of his first move.
fn first_openings(
    alloc: Global,
    table: &mut Table,
    classes: Vec<First>,
) -> Result<Vec<Opening>, NoMemory>
    requires { AreCounted table.old }
    ensures { IfOk result (λ os. AreAdded table.old table.new os.items
        (map first_set classes.items)) }
{
    let mut found = Vec::new(alloc);
    for class in classes {
        add(
            table,
            &mut found,
            class.opens,
            Some(class.reply),
            class.belief,
        )?;
    }
    Ok(found)
}

/// What may be heard before the first own turn, ascending, for the units of the opponent's first moves; nothing where
/// in some position he is to move and has no move.
pub(crate) fn find_openings(
    alloc: Global,
    d: Dialect,
    who: Side,
    b: &Belief,
    table: &mut Table,
    units: &mut Units,
) -> Result<Option<Vec<Opening>>, PartStop>
    requires turn { IsOwnTurn who b.now ⊎ IsOthersTurn who b.now }
    requires counted { AreCounted table.old }
    ensures { Charges result (IsOpened d who b.now table.old table.new)
        (first_made (chess d) (outset d who) b.now) units.old units.new }
{
    if is_own_turn(b, who) {
        let opened = openings(alloc, d, b)?;
        return Ok(Some(own_openings(alloc, table, opened)?));
    }
    let Firsts { ended, classes } = first_replies(alloc, d, b, units)?;
    if ended {
        return Ok(None);
    }
    Ok(Some(first_openings(alloc, table, classes)?))
}
