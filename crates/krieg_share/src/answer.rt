ghost use Rattle.std.specs.Prelude.{IfOk, ◌≡◌, ◌⊎◌, ◌<◌, ◌≤◌, ◌^◌, List, length, map, true};
ghost use Rattle.krieg_board.specs.Pos.{Pos};
ghost use Rattle.krieg_theory.specs.Sets.{In};
ghost use Rattle.krieg_parting.specs.Turns.{IsOwnTurn, IsOthersTurn};
ghost use Rattle.krieg_search.specs.Openings.{AreNumbered, opening_in};
ghost use Rattle.krieg_search.specs.Decision.{sets_in};
ghost use Rattle.krieg_search.specs.WonSets.{WonBy, IsPaidFor};
ghost use Rattle.krieg_share.specs.Answers.{IsStrategyAnswer, MakesStrategy, TakesAsPlan, IsShared};

use crate::roots::{share_openings, worst_of};
use crate::sharer::Sharer;
use krieg_board::{Side, Units};
use krieg_pack::Belief;
use krieg_search::decide::{Decision, Findings, decide};
use krieg_search::{SearchStop, Way};
use krieg_strategy::{MOST_ROOTS, Nodes, StrategyRoot};

/// What a search for a strategy finds.
#[derive(Drop)]
pub enum Answer {
    /// The strategy mates every listed position, and this is its worst case.
    Mates {
        worst: u8,
        nodes: Nodes,
        roots: Vec<StrategyRoot>,
    },
    /// No plan mates every listed position within the number of moves that was asked.
    None,
}

/// The nodes and roots of the best plan, where the set of every opening can be won. `Large` comes exactly where there are too many.
fn share_won(way: Way, won: Findings, moves: u8) -> Result<Answer, SearchStop>
    requires paid { IsPaidFor way.d true won.table }
    requires numbered { AreNumbered won.table won.openings.items }
    requires won { (C : List Pos) → In C (sets_in won.table won.openings.items)
        → WonBy won.table C moves }
    ensures { IsShared way.d moves (map (opening_in won.table) won.openings.items) result }
{
    let Findings {
        table,
        openings,
        ..
    } = won;
    if openings.len() > MOST_ROOTS {
        return Err(SearchStop::Large);
    }
    let worst = worst_of(&table, &openings, moves);
    let mut sharer = Sharer::new(way.alloc, table);
    let roots = share_openings(&mut sharer, way, openings, moves)?;
    Ok(Answer::Mates {
        worst,
        nodes: sharer.nodes,
        roots,
    })
}

/// The best plan of the side `who` for the listed positions as a strategy, or that no plan mates all of them within `moves`: what `find`
/// finds, with each set of positions that is reached written once.
///
/// `Mates` has the nodes and the roots of a strategy that unfolds to the canonical plan, with its worst case. Nodes are numbered once all
/// that they lead to have numbers, depth first, that for the illegal case before those of what may be heard. So they are determined by the
/// list and `moves` alone. `None` comes only where no plan mates within `moves`. `Large` comes only where the canonical plan
/// does, and has more than 100,000 different sets, 250,000 edges of their nodes, or 50,000 roots. However large the plan is that the
/// strategy unfolds to, it is never made.
///
/// The units are those of the search for the plan: each set's winning try is split once more, for none. `Spent` and `NoMemory` take none.
/// `NoMemory` comes for want of memory, for more than 100,000,000 different sets, and where more than 5,000 nodes lead one to the next.
///
/// No other moves, positions and sides may be asked for than by `find`.
pub fn share(
    way: Way,
    who: Side,
    b: &Belief,
    moves: u8,
    units: &mut Units,
) -> Result<Answer, SearchStop>
    requires turn { IsOwnTurn who b.now ⊎ IsOthersTurn who b.now }
    ensures answer { IsStrategyAnswer way.d who b.now moves result }
    ensures well_formed { IfOk result MakesStrategy }
    ensures units { TakesAsPlan way.d who b.now moves way.cut result units.old units.new }
{
    let mut left = Units::new(units.left());
    let won = match decide(way, who, b, moves, &mut left)? {
        Decision::Over => {
            *units = left;
            return Ok(Answer::None);
        }
        Decision::Lost(_found) => {
            *units = left;
            return Ok(Answer::None);
        }
        Decision::Won(won) => won,
    };
    match share_won(way, won, moves) {
        Ok(answer) => {
            *units = left;
            Ok(answer)
        }
        Err(SearchStop::Large) => {
            *units = left;
            Err(SearchStop::Large)
        }
        Err(stop) => Err(stop),
    }
}
