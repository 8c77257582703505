ghost use Rattle.std.specs.Prelude.{List, map, true};
ghost use Rattle.krieg_board.specs.Pos.{Pos};
ghost use Rattle.krieg_theory.specs.Sets.{In};
ghost use Rattle.krieg_plan.specs.Trees.{plan_size, plan_depth};
ghost use Rattle.krieg_search.specs.Openings.{AreNumbered, opening_in};
ghost use Rattle.krieg_search.specs.Decision.{sets_in};
ghost use Rattle.krieg_search.specs.WonSets.{WonBy, IsPaidFor};
ghost use Rattle.krieg_solve.specs.Building.{Builds, roots_for};
ghost use Rattle.krieg_solve.specs.BuiltRoots.{AreRoots};

use crate::build::{Builder, win_of};
use krieg_plan::{MOST_ON_PATH, Root};
use krieg_search::{Opening, SearchStop};
use krieg_words::Dialect;
use std::alloc::Global;

/// The roots of a plan, and its worst case.
#[derive(Drop)]
pub(crate) struct Roots {
    pub worst: u8,
    pub roots: Vec<Root>,
}

/// A root with the canonical node of the set of each opening, all of which are stored as won within `moves`, and the
/// greatest of their least numbers. `Large` comes exactly where they have more nodes than are left, or more than
/// [`MOST_ON_PATH`] on a path.
pub(crate) fn build_roots(
    alloc: Global,
    d: Dialect,
    builder: &mut Builder,
    openings: &[Opening],
    moves: u8,
) -> Result<Roots, SearchStop>
    requires paid { IsPaidFor d true builder.old.table }
    requires numbered { AreNumbered builder.old.table openings.now }
    requires won { (C : List Pos) → In C (sets_in builder.old.table openings.now)
        → WonBy builder.old.table C moves }
    ensures { Builds result
        (AreRoots d moves (map (opening_in builder.old.table) openings.now))
        (plan_size (roots_for d moves (map (opening_in builder.old.table) openings.now)))
        (plan_depth (roots_for d moves (map (opening_in builder.old.table) openings.now)))
        builder.old.table builder.new.table builder.old.left builder.new.left MOST_ON_PATH }
{
    let mut worst = 0;
    let mut roots = Vec::new(alloc);
    for o in openings {
        let win = win_of(&builder.table, o.set, moves);
        worst = worst.max(win.moves);
        let node = builder.build(alloc, d, o.set, moves, MOST_ON_PATH)?;
        roots.push(Root {
            opens: o.opens,
            heard: o.heard,
            node,
        })?;
    }
    Ok(Roots { worst, roots })
}
