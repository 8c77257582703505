ghost use Rattle.std.specs.Prelude.{◌≡◌, ◌<◌, ◌⊎◌, ◌↔◌, true, List, map, Err};
ghost use Rattle.krieg_board.specs.Pos.{Pos};
ghost use Rattle.krieg_theory.specs.Sets.{In};
ghost use Rattle.krieg_costs.specs.Cost.{cost_of};
ghost use Rattle.krieg_game.specs.Chess.{chess};
ghost use Rattle.krieg_game.specs.Outset.{outset};
ghost use Rattle.krieg_plan.specs.Order.{is_ordered_plan};
ghost use Rattle.krieg_parting.specs.Turns.{IsOwnTurn, IsOthersTurn};
ghost use Rattle.krieg_search.specs.declared.stop.SearchStop.TheVariants.{Spent, NoMemory};
ghost use Rattle.krieg_search.specs.Openings.{AreNumbered, opening_in};
ghost use Rattle.krieg_search.specs.Decision.{sets_in};
ghost use Rattle.krieg_search.specs.WonSets.{WonBy, IsPaidFor};
ghost use Rattle.krieg_solve.specs.Building.{roots_for};
ghost use Rattle.krieg_solve.specs.BuiltPlan.{IsPlanned};
ghost use Rattle.krieg_solve.specs.Solutions.{IsAnswer, IsCharged, HasAccount, IsChargedAtMost, Takes};

use crate::build::Builder;
use crate::roots::{Roots, build_roots};
use krieg_board::{Side, Units};
use krieg_pack::Belief;
use krieg_plan::Plan;
use krieg_search::decide::{Decision, Findings, decide};
use krieg_search::{SearchStop, Way};
use krieg_words::Dialect;
use std::alloc::Global;

/// What a search finds.
#[derive(Drop)]
pub enum Answer {
    /// The plan mates every listed position, and this is its worst case.
    Mates { worst: u8, plan: Plan },
    /// No plan mates every listed position within the number of moves that was asked.
    None,
}

/// The canonical plan, where the set of every opening can be won. `Large` comes exactly where it has more than `nodes`
/// nodes, or more than 2,500 on a path.
fn build_plan(
    alloc: Global,
    d: Dialect,
    won: Findings,
    moves: u8,
    nodes: usize,
) -> Result<Answer, SearchStop>
    requires paid { IsPaidFor d true won.table }
    requires numbered { AreNumbered won.table won.openings.items }
    requires won { (C : List Pos) → In C (sets_in won.table won.openings.items)
        → WonBy won.table C moves }
    requires ordered { is_ordered_plan (roots_for d moves
        (map (opening_in won.table) won.openings.items)) ≡ true }
    ensures { IsPlanned d moves (map (opening_in won.table) won.openings.items) nodes result }
{
    let Findings {
        table,
        openings,
        notes,
    } = won;
    drop(notes);
    let mut builder = Builder { table, left: nodes };
    let built = build_roots(alloc, d, &mut builder, &openings, moves);
    drop(builder.table);
    let Roots { worst, roots } = built?;
    Ok(Answer::Mates {
        worst,
        plan: Plan::make(roots),
    })
}

/// Whether memory was not found.
fn wants_memory(found: &Result<Answer, SearchStop>) -> bool
    ensures { (result ≡ true) ↔ (found.now ≡ Err NoMemory) }
{
    matches!(found, Err(SearchStop::NoMemory))
}

/// The answer of a search, which may cut tries or not.
fn answer_for(
    way: Way,
    who: Side,
    b: &Belief,
    moves: u8,
    nodes: usize,
    units: &mut Units,
) -> Result<Answer, SearchStop>
    requires turn { IsOwnTurn who b.now ⊎ IsOthersTurn who b.now }
    ensures answer { IsAnswer way.d who b.now moves nodes result }
    ensures units { Takes way.d who b.now moves way.cut result units.old units.new }
{
    let mut left = Units::new(units.left());
    let found = match decide(way, who, b, moves, &mut left)? {
        Decision::Won(won) => build_plan(way.alloc, way.d, won, moves, nodes),
        Decision::Over => Ok(Answer::None),
        Decision::Lost(lost) => {
            drop(lost);
            Ok(Answer::None)
        }
    };
    if !wants_memory(&found) {
        *units = Units::new(left.left());
    }
    found
}

/// The best plan of the side `who` for the listed positions, as the umpire tells games in the dialect, or that none
/// mates all of them within `moves`.
///
/// `Mates` has the canonical plan with its worst case, below which no plan mates. `None` comes only where no plan
/// mates within `moves`, and `Large` only where the canonical plan does and has more than `nodes` nodes, or more than
/// 2,500 on a path: since these exclude each other, each comes exactly then, if neither units nor memory are wanting.
///
/// The units are those of krieg_costs. An answer, and `Large`, take exactly what their `account` says: what the first
/// replies take, and for each set that was searched with some number of moves, for each of its tries up to the first that
/// wins, one unit for each position and one for each reply. The account has no set twice with the same number, and only what
/// is reached. So it is at least the floor and at most what is fresh. `Spent` comes only where fewer units are left than are
/// fresh, and so fewer than the cost. It takes none, and neither does `NoMemory`.
///
/// Within 0 moves no plan mates a list that has a position. The same side is to move in all listed positions. `NoMemory` comes
/// for want of memory, and for more than 100,000,000 different sets, which are all that a table keeps: each but the sets of
/// openings takes a unit at least.
pub fn solve(
    alloc: Global,
    d: Dialect,
    who: Side,
    b: &Belief,
    moves: u8,
    nodes: usize,
    units: &mut Units,
) -> Result<Answer, SearchStop>
    requires turn { IsOwnTurn who b.now ⊎ IsOthersTurn who b.now }
    ensures answer { IsAnswer d who b.now moves nodes result }
    ensures units { IsCharged d who b.now moves result units.old units.new }
    ensures account { HasAccount d who b.now moves result units.old units.new }
    ensures cost { result ≡ Err Spent → units.old < cost_of (chess d) (outset d who) moves b.now }
{
    let way = Way {
        alloc,
        d,
        cut: false,
        noted: 0,
    };
    answer_for(way, who, b, moves, nodes, units)
}

/// The same answer as `solve`, mostly for far fewer units: a try fails at once where some reply is found to leave a
/// position that is no mate in time even for a player who sees it.
///
/// The units are those of `solve`, but there is no floor: an answer, and `Large`, take at most what the account says, and
/// so at most what is fresh. A try that fails at once for such a reply takes nothing. `Spent` comes only where fewer units
/// are left than are fresh. It takes none, and neither does `NoMemory`.
///
/// To find such replies at most as many looks are taken as there are units at the call, each at a position or at all squares of a
/// king who is alone, and these take none. Where they are used up, or memory for what is found of them is wanting, the search goes on without: so with just the units that
/// an answer took it may come to `Spent`.
///
/// No other moves, positions and sides may be asked for than by `solve`.
pub fn find(
    alloc: Global,
    d: Dialect,
    who: Side,
    b: &Belief,
    moves: u8,
    nodes: usize,
    units: &mut Units,
) -> Result<Answer, SearchStop>
    requires turn { IsOwnTurn who b.now ⊎ IsOthersTurn who b.now }
    ensures answer { IsAnswer d who b.now moves nodes result }
    ensures units { IsChargedAtMost d who b.now moves result units.old units.new }
    ensures account { Takes d who b.now moves true result units.old units.new }
{
    let way = Way {
        alloc,
        d,
        cut: true,
        noted: 0,
    };
    answer_for(way, who, b, moves, nodes, units)
}
