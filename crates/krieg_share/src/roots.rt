ghost use Rattle.std.specs.Prelude.{◌≡◌, ◌<◌, List, length, map, max, true};
ghost use Rattle.krieg_board.specs.Pos.{Pos};
ghost use Rattle.krieg_words.specs.declared.dialects.Dialect.{Dialect};
ghost use Rattle.krieg_theory.specs.Sets.{In};
ghost use Rattle.krieg_theory.specs.Can.{least};
ghost use Rattle.krieg_theory.specs.Plans.{greatest};
ghost use Rattle.krieg_game.specs.Keys.{RootKey};
ghost use Rattle.krieg_game.specs.Chess.{chess};
ghost use Rattle.krieg_strategy.specs.Roots.{root_of};
ghost use Rattle.krieg_search.specs.Stretches.{IsReady};
ghost use Rattle.krieg_search.specs.Openings.{AreNumbered, opening_in};
ghost use Rattle.krieg_search.specs.Decision.{sets_in};
ghost use Rattle.krieg_search.specs.WonSets.{WonBy};
ghost use Rattle.krieg_share.specs.Parts.{share_sets, numbered};
ghost use Rattle.krieg_share.specs.Sharers.{sets_with_nodes, shared_by, IsSharing, Shares};

use crate::limits::MOST_LEVELS;
use crate::sharer::{Sharer, win_of};
use krieg_search::{Opening, SearchStop, Way};
use krieg_strategy::StrategyRoot;
use krieg_table::Table;

fn greater(a: u8, b: u8) -> u8
    ensures { result ≡ max a b }
{
    if a < b { b } else { a }
}

/// The greatest of the least numbers of the sets of openings, all of which are stored as won within `moves`.
pub(crate) fn worst_of(table: &Table, openings: &[Opening], moves: u8) -> u8
    requires numbered { AreNumbered table.now openings.now }
    requires won { (C : List Pos) → In C (sets_in table.now openings.now)
        → WonBy table.now C moves }
    ensures { (d : Dialect) → IsReady d true table.now
        → result ≡ greatest (λ (c : RootKey × List Pos). least (chess d) moves c.1)
        (map (opening_in table.now) openings.now) }
{
    let mut worst = 0;
    for o in openings {
        let win = win_of(table, o.set, moves);
        worst = greater(worst, win.moves);
    }
    worst
}

/// A root for each opening, whose set is stored as won within `moves`, with the number of the set's node.
pub(crate) fn share_openings(
    sharer: &mut Sharer,
    way: Way,
    openings: Vec<Opening>,
    moves: u8,
) -> Result<Vec<StrategyRoot>, SearchStop>
    requires sharing { IsSharing way.d sharer.old }
    requires numbered { AreNumbered sharer.old.table openings.items }
    requires won { (C : List Pos) → In C (sets_in sharer.old.table openings.items)
        → WonBy sharer.old.table C moves }
    ensures { Shares way.d result (λ v. map root_of v.items ≡ numbered (chess way.d)
        (sets_with_nodes sharer.new) (map (opening_in sharer.old.table) openings.items))
        sharer.old sharer.new (share_sets (chess way.d) moves
        (map (opening_in sharer.old.table) openings.items) (shared_by way.d sharer.old)) }
{
    let mut roots = Vec::new(way.alloc);
    for o in openings {
        let to = sharer.share(way, o.set, moves, MOST_LEVELS)?;
        roots.push(StrategyRoot {
            opens: o.opens,
            heard: o.heard,
            to,
        })?;
    }
    Ok(roots)
}
