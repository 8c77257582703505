ghost use Rattle.std.specs.Prelude.{◌≡◌, length};
ghost use Rattle.krieg_board.specs.Men.{is_same_side};
ghost use Rattle.krieg_board.specs.Pos.{Pos};
ghost use Rattle.krieg_board.specs.declared.men.Side.{Side};
ghost use Rattle.krieg_moves.specs.Moves as list;
ghost use Rattle.krieg_theory.specs.Sets.{In};
ghost use Rattle.krieg_costs.specs.Sums.{total};
ghost use Rattle.krieg_game.specs.Chess.{chess};
ghost use Rattle.krieg_game.specs.Outset.{outset};
ghost use Rattle.krieg_parting.specs.Charges.{Charges};
ghost use Rattle.krieg_parting.specs.Turns.{IsOwnTurn, IsOthersTurn};
ghost use Rattle.krieg_checker.specs.CheckCost.{first_cost};
ghost use Rattle.krieg_plan.specs.OneTurn.{IsOneTurn};
ghost use Rattle.krieg_checker.specs.Starting.{IsFirstTurn};

use krieg_board::{Side, Units};
use krieg_game::Class;
use krieg_pack::Belief;
use krieg_parting::{FirstMoves, PartStop, first_moves, with_openings};
use krieg_words::Dialect;
use std::alloc::Global;

/// What is possible at the first own turn.
#[derive(Drop)]
pub(crate) struct FirstTurn {
    /// Whether the player is to move first.
    pub own: bool,
    /// Whether in some position nothing can start.
    pub over: bool,
    /// The positions after each thing that may be heard: the opening words, and after them the words of a first move,
    /// where there is one.
    pub classes: Vec<Class>,
}

/// Whether the side is to move in the positions of the set.
fn is_own_turn(b: &Belief, who: Side) -> bool
    requires { IsOneTurn b.now }
    ensures { (p : Pos) → In p b.now → is_same_side p.side who ≡ result }
{
    b.is_empty() || b.get(0).side() == who
}

/// What comes first where the player is to move: nothing but the opening words.
fn at_own_turn(alloc: Global, d: Dialect, b: Belief) -> Result<FirstTurn, PartStop>
    ensures { Charges result (λ r. (who : Side) → IsOwnTurn who b → IsFirstTurn d who b r) 0 0 0 }
{
    let pool = with_openings(alloc, d, b.members())?;
    drop(b);
    let classes = pool.into_classes()?;
    Ok(FirstTurn {
        own: true,
        over: false,
        classes,
    })
}

/// What comes first where the opponent is: his first moves, for a unit each.
fn at_others_turn(
    alloc: Global,
    d: Dialect,
    b: Belief,
    units: &mut Units,
) -> Result<FirstTurn, PartStop>
    ensures { Charges result (λ r. (who : Side) → IsOthersTurn who b → IsFirstTurn d who b r)
        (total (λ p. length (list.moves p)) b) units.old units.new }
{
    let FirstMoves { ended, pool } = first_moves(alloc, d, b.members(), units)?;
    drop(b);
    let classes = pool.into_classes()?;
    Ok(FirstTurn {
        own: false,
        over: ended,
        classes,
    })
}

/// What is possible at the first own turn, for a unit for each first move of the opponent. The set is let go before
/// what comes of it is sorted.
pub(crate) fn start(
    alloc: Global,
    d: Dialect,
    who: Side,
    b: Belief,
    units: &mut Units,
) -> Result<FirstTurn, PartStop>
    requires { IsOneTurn b }
    ensures { Charges result (IsFirstTurn d who b)
        (first_cost (chess d) (outset d who) b) units.old units.new }
{
    let _members = b.len();
    if is_own_turn(&b, who) {
        return at_own_turn(alloc, d, b);
    }
    at_others_turn(alloc, d, b, units)
}
