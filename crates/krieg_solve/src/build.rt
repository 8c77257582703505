ghost use Rattle.std.specs.Prelude.{◌≡◌, ◌<◌, ◌≤◌, ◌^◌, IfOk, Some, false, length, List, map, option_map, true};
ghost use Rattle.krieg_board.specs.Pos.{Pos};
ghost use Rattle.krieg_pack.specs.Order.{position_lt};
ghost use Rattle.krieg_theory.specs.Sets.{In, is_nil};
ghost use Rattle.krieg_theory.specs.Tree.{Just, size_edges, size_other, depth_edges, depth_other};
ghost use Rattle.krieg_theory.specs.Computed.{canon};
ghost use Rattle.krieg_costs.specs.Cost.{made};
ghost use Rattle.krieg_accounts.specs.Stored.{stored};
ghost use Rattle.krieg_accounts.specs.Laws.{refused_canon};
ghost use Rattle.krieg_game.specs.Chess.{chess};
ghost use Rattle.krieg_game.specs.Classes.{class_pair};
ghost use Rattle.krieg_split.specs.Parts.{IsParted};
ghost use Rattle.krieg_table.specs.SetRows.{set_at};
ghost use Rattle.krieg_table.specs.Entries.{entries};
ghost use Rattle.krieg_plan.specs.Nodes.{tree_of, edge_of, as_other, as_edges};
ghost use Rattle.krieg_search.specs.Stretches.{sets_of};
ghost use Rattle.krieg_search.specs.WonSets.{WonBy, IsPaidFor};
ghost use Rattle.krieg_solve.specs.Building.{edges_for, Builds};

use krieg_board::{Move, NoMemory, Units};
use krieg_game::Class;
use krieg_pack::Belief;
use krieg_parting::PartStop;
use krieg_plan::{Edge, Node};
use krieg_search::{SearchStop, number_of};
use krieg_split::{Parted, split};
use krieg_table::{Table, Win};
use krieg_words::Dialect;
use std::alloc::Global;

/// How the set is won, which is stored as won within `moves`.
pub(crate) fn win_of(table: &Table, set: u32, moves: u8) -> Win
    requires within { set < length table.now }
    requires won { WonBy table.now (set_at table.now set) moves }
    ensures some { 0 < result.moves }
    ensures at_most { result.moves ≤ moves }
    ensures stored { stored position_lt (entries table.now) (set_at table.now set, result.moves)
        ≡ Some (Some result.mv) }
{
    match table.win(set) {
        Some(win) => win,
        None => unreachable!(),
    }
}

/// Parts the set once more by a try whose split the search has paid for, by units that are made for it alone.
#[inline(never)]
fn split_again(
    alloc: Global,
    d: Dialect,
    table: &Table,
    set: u32,
    mv: Move,
) -> Result<Parted, NoMemory>
    requires within { set < length table.now }
    requires paid { made (chess d) (set_at table.now set) mv < 2 ^ 64 }
    ensures { IfOk result (IsParted d (set_at table.now set) mv) }
{
    let opened = table.open(alloc, set)?;
    let mut units = Units::new(u64::MAX);
    match split(alloc, d, opened.of(table, set), mv, &mut units) {
        Ok(parts) => Ok(parts),
        Err(PartStop::Spent) => unreachable!(),
        Err(PartStop::NoMemory) => Err(NoMemory),
    }
}

/// A plan that is being built: the results that it is built of, and how many nodes it may still have.
#[derive(Drop)]
pub(crate) struct Builder {
    pub table: Table,
    pub left: usize,
}

impl Builder {
    /// The canonical node of the set, which is stored as won within `moves`. `Large` comes exactly where it has more nodes
    /// than are left, or more than `deep` on a path: each node is taken from those that are left before anything below it
    /// is built.
    #[cycle(build)]
    pub(crate) fn build(
        &mut self,
        alloc: Global,
        d: Dialect,
        set: u32,
        moves: u8,
        deep: usize,
    ) -> Result<Box<Node>, SearchStop>
        requires within { set < length self.old.table }
        requires paid { IsPaidFor d true self.old.table }
        requires won { WonBy self.old.table (set_at self.old.table set) moves }
        ensures { Builds result
            (λ n. canon (chess d) moves (set_at self.old.table set) ≡ Just (tree_of n.value))
            (size_other (canon (chess d) moves (set_at self.old.table set)))
            (depth_other (canon (chess d) moves (set_at self.old.table set)))
            self.old.table self.new.table self.old.left self.new.left deep }
    {
        if self.left == 0 {
            return Err(SearchStop::Large);
        }
        if deep == 0 {
            return Err(SearchStop::Large);
        }
        self.left -= 1;
        let win = win_of(&self.table, set, moves);
        let Parted {
            refused,
            classes,
            ..
        } = split_again(alloc, d, &self.table, set, win.mv)?;
        let edges = self.build_edges(alloc, d, classes, win.moves - 1, deep - 1)?;
        let no = self.build_other(alloc, d, refused, win.moves, deep - 1)?;
        Ok(Node::make(alloc, win.mv, no, edges)?)
    }

    /// An edge to the canonical node of each class, all of which are stored as won within `moves`.
    #[cycle(build)]
    fn build_edges(
        &mut self,
        alloc: Global,
        d: Dialect,
        classes: Vec<Class>,
        moves: u8,
        deep: usize,
    ) -> Result<Vec<Edge>, SearchStop>
        requires paid { IsPaidFor d true self.old.table }
        requires won { (C : List Pos) → In C (sets_of classes.items)
            → WonBy self.old.table C moves }
        ensures { Builds result (λ es. as_edges (map edge_of es.items)
            ≡ edges_for d moves (map class_pair classes.items))
            (size_edges (edges_for d moves (map class_pair classes.items)))
            (depth_edges (edges_for d moves (map class_pair classes.items)))
            self.old.table self.new.table self.old.left self.new.left deep }
    {
        let mut edges = Vec::new(alloc);
        for class in classes {
            let set = number_of(&mut self.table, class.belief)?;
            let node = self.build(alloc, d, set, moves, deep)?;
            edges.push(Edge {
                own: class.own,
                reply: class.reply,
                node,
            })?;
        }
        Ok(edges)
    }

    /// The canonical node of the members that refuse a try, if there are any, which are stored as won within `moves`.
    #[cycle(build)]
    fn build_other(
        &mut self,
        alloc: Global,
        d: Dialect,
        refused: Belief,
        moves: u8,
        deep: usize,
    ) -> Result<Option<Box<Node>>, SearchStop>
        requires paid { IsPaidFor d true self.old.table }
        requires won { is_nil refused ≡ false → WonBy self.old.table refused moves }
        ensures { Builds result (λ o. as_other (option_map (λ b. tree_of b.value) o)
            ≡ refused_canon (chess d) moves refused)
            (size_other (refused_canon (chess d) moves refused))
            (depth_other (refused_canon (chess d) moves refused))
            self.old.table self.new.table self.old.left self.new.left deep }
    {
        if refused.is_empty() {
            return Ok(None);
        }
        let set = number_of(&mut self.table, refused)?;
        Ok(Some(self.build(alloc, d, set, moves, deep)?))
    }
}
