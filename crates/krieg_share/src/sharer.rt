ghost use Rattle.std.specs.Prelude.{◌≡◌, ◌<◌, ◌≤◌, ◌+◌, ◌^◌, ◌++◌, ◌∷◌, ◌⊎◌, [], IfOk, OnOk, Some, Err, suc, false, length, List, map};
ghost use Rattle.krieg_board.specs.Pos.{Pos};
ghost use Rattle.krieg_words.specs.declared.dialects.Dialect.{Dialect};
ghost use Rattle.krieg_pack.specs.Order.{position_lt};
ghost use Rattle.krieg_theory.specs.Sets.{In, is_nil};
ghost use Rattle.krieg_theory.specs.Computed.{canon};
ghost use Rattle.krieg_costs.specs.Sums.{total};
ghost use Rattle.krieg_costs.specs.Cost.{made};
ghost use Rattle.krieg_accounts.specs.Stored.{stored};
ghost use Rattle.krieg_accounts.specs.Laws.{refused_canon};
ghost use Rattle.krieg_game.specs.Chess.{chess};
ghost use Rattle.krieg_game.specs.Classes.{class_pair};
ghost use Rattle.krieg_split.specs.Parts.{IsParted};
ghost use Rattle.krieg_table.specs.SetRows.{set_at};
ghost use Rattle.krieg_table.specs.Entries.{entries};
ghost use Rattle.krieg_strategy.specs.WellFormed.{IsBelow, HasOrder};
ghost use Rattle.krieg_strategy.specs.Edges.{edge_of};
ghost use Rattle.krieg_strategy.specs.declared.limits.TheConstants.{MOST_NODES, MOST_EDGES};
ghost use Rattle.krieg_search.specs.declared.stop.SearchStop.TheVariants.{Spent, Large};
ghost use Rattle.krieg_search.specs.Stretches.{sets_of};
ghost use Rattle.krieg_search.specs.WonSets.{WonBy};
ghost use Rattle.krieg_share.specs.Sharing.{node_number, refused_number, share_other};
ghost use Rattle.krieg_share.specs.Parts.{share_sets, numbered};
ghost use Rattle.krieg_share.specs.Sharers.{node_by, sets_with_nodes, AreInTable, shared_by, IsSharing, HasNumber, Shares};

use indexmap::IndexSet;
use krieg_board::{Move, NoMemory, Units};
use krieg_game::Class;
use krieg_pack::Belief;
use krieg_parting::PartStop;
use krieg_search::{SearchStop, Way, number_of};
use krieg_split::{Parted, split};
use krieg_strategy::{MOST_EDGES, MOST_NODES, Nodes, StrategyEdge, StrategyNode};
use krieg_table::{Table, Win};
use std::alloc::Global;

/// How the set is won, which is stored as won within `moves`.
pub(crate) fn win_of(table: &Table, set: u32, moves: u8) -> Win
    requires within { set < length table.now }
    requires won { WonBy table.now (set_at table.now set) moves }
    ensures some { 0 < result.moves }
    ensures at_most { result.moves ≤ moves }
    ensures stored { stored position_lt (entries table.now) (set_at table.now set, result.moves)
        ≡ Some (Some result.mv) }
{
    match table.win(set) {
        Some(win) => win,
        None => unreachable!(),
    }
}

/// Parts the set once more by a try whose split the search has paid for, by units that are made for it alone.
#[inline(never)]
fn split_again(way: Way, b: &Belief, mv: Move) -> Result<Parted, NoMemory>
    requires { made (chess way.d) b.now mv < 2 ^ 64 }
    ensures { IfOk result (IsParted way.d b.now mv) }
{
    let mut units = Units::new(u64::MAX);
    match split(way.alloc, way.d, b, mv, &mut units) {
        Ok(parts) => Ok(parts),
        Err(PartStop::Spent) => unreachable!(),
        Err(PartStop::NoMemory) => Err(NoMemory),
    }
}

/// Nodes that are made of the results of a search, one for each set.
#[derive(Drop)]
pub(crate) struct Sharer {
    /// The results that they are made of.
    pub table: Table,
    /// The set of each node, by its number in the table.
    pub placed: IndexSet<u32>,
    pub nodes: Nodes,
    /// How many edges the nodes have.
    pub edges: usize,
}

impl Sharer {
    /// No set has a node.
    pub(crate) fn new(alloc: Global, table: Table) -> Sharer
        ensures table { result.table ≡ table }
        ensures placed { result.placed.keys ≡ [] }
        ensures nodes { result.nodes ≡ [] }
        ensures edges { result.edges ≡ 0 }
    {
        Sharer {
            table,
            placed: IndexSet::new(alloc),
            nodes: Nodes::new(alloc),
            edges: 0,
        }
    }

    /// The number of the set's node, where it has one.
    fn number_at(&self, set: u32) -> Option<u32>
        requires within { set < length self.now.table }
        requires in_table { AreInTable self.now }
        requires few { length self.now.placed.keys ≤ MOST_NODES }
        ensures { (d : Dialect) → result
            ≡ node_number (chess d) (set_at self.now.table set) (sets_with_nodes self.now) }
    {
        self.table.know_once();
        match self.placed.get_index_of(&set) {
            Some(number) => Some(number as u32),
            None => None,
        }
    }

    /// What the try makes of the set, whose split the search has paid for. The set is open no longer than that.
    fn parts_at(&self, way: Way, set: u32, mv: Move) -> Result<Parted, NoMemory>
        requires within { set < length self.now.table }
        requires paid { made (chess way.d) (set_at self.now.table set) mv < 2 ^ 64 }
        ensures { IfOk result (IsParted way.d (set_at self.now.table set) mv) }
    {
        let opened = self.table.open(way.alloc, set)?;
        split_again(way, opened.of(&self.table, set), mv)
    }

    /// Gives the set its node, which gets the next number.
    fn place(
        &mut self,
        set: u32,
        mv: Move,
        no: Option<u32>,
        edges: &[StrategyEdge],
    ) -> Result<u32, SearchStop>
        requires new { In set self.old.placed.keys → ⊥ }
        requires counted { self.old.edges ≡ total (λ n. length n.edges) self.old.nodes }
        requires few_edges { self.old.edges ≤ MOST_EDGES }
        requires below { IsBelow (length self.old.nodes) (node_by mv no edges.now) }
        requires order { HasOrder (node_by mv no edges.now) }
        ensures number { IfOk result (λ number. number ≡ length self.old.nodes) }
        ensures table { self.new.table ≡ self.old.table }
        ensures placed { OnOk result (self.new.placed.keys ≡ self.old.placed.keys ++ set ∷ []) }
        ensures nodes { OnOk result (self.new.nodes
            ≡ self.old.nodes ++ node_by mv no edges.now ∷ []) }
        ensures edges { OnOk result (self.new.edges ≡ self.old.edges + length edges.now) }
        ensures few_nodes { OnOk result (length self.old.nodes < MOST_NODES) }
        ensures few_edges { OnOk result (self.new.edges ≤ MOST_EDGES) }
        ensures large { result ≡ Err Large → (MOST_NODES < suc (length self.old.nodes))
            ⊎ (MOST_EDGES < self.old.edges + length edges.now) }
        ensures not_spent { result ≡ Err Spent → ⊥ }
    {
        if self.nodes.len() >= MOST_NODES {
            return Err(SearchStop::Large);
        }
        if edges.len() > MOST_EDGES - self.edges {
            return Err(SearchStop::Large);
        }
        let number = self.nodes.len() as u32;
        self.placed.insert(set)?;
        self.nodes.push(StrategyNode { mv, no, edges })?;
        self.edges += edges.len();
        Ok(number)
    }

    /// The number of the node of the set, which is stored as won within `moves`. Where it has none, its parts get theirs first, and then
    /// the set its own. `Large` comes exactly where there would be too many nodes or edges.
    #[cycle(share)]
    pub(crate) fn share(
        &mut self,
        way: Way,
        set: u32,
        moves: u8,
        deep: u16,
    ) -> Result<u32, SearchStop>
        requires within { set < length self.old.table }
        requires sharing { IsSharing way.d self.old }
        requires won { WonBy self.old.table (set_at self.old.table set) moves }
        ensures { Shares way.d result (HasNumber way.d self.new (set_at self.old.table set))
            self.old self.new (share_other (chess way.d)
            (canon (chess way.d) moves (set_at self.old.table set))
            (set_at self.old.table set) (shared_by way.d self.old)) }
    {
        if let Some(number) = self.number_at(set) {
            return Ok(number);
        }
        let Some(deeper) = deep.checked_sub(1) else {
            return Err(SearchStop::NoMemory);
        };
        let win = win_of(&self.table, set, moves);
        let Parted {
            refused,
            classes,
            ..
        } = self.parts_at(way, set, win.mv)?;
        let no = self.share_refused(way, refused, win.moves, deeper)?;
        let edges = self.share_classes(way, classes, win.moves - 1, deeper)?;
        self.table.know_once();
        self.place(set, win.mv, no, &edges)
    }

    /// An edge to the node of each class, all of which are stored as won within `moves`.
    #[cycle(share)]
    fn share_classes(
        &mut self,
        way: Way,
        classes: Vec<Class>,
        moves: u8,
        deep: u16,
    ) -> Result<Vec<StrategyEdge>, SearchStop>
        requires sharing { IsSharing way.d self.old }
        requires won { (C : List Pos) → In C (sets_of classes.items)
            → WonBy self.old.table C moves }
        ensures { Shares way.d result (λ es. map edge_of es.items ≡ numbered (chess way.d)
            (sets_with_nodes self.new) (map class_pair classes.items))
            self.old self.new (share_sets (chess way.d) moves (map class_pair classes.items)
            (shared_by way.d self.old)) }
    {
        let mut edges = Vec::new(way.alloc);
        for class in classes {
            let set = number_of(&mut self.table, class.belief)?;
            let to = self.share(way, set, moves, deep)?;
            edges.push(StrategyEdge {
                own: class.own,
                reply: class.reply,
                to,
            })?;
        }
        Ok(edges)
    }

    /// The number of the node of the members that refuse a try, if there are any, which are stored as won within `moves`.
    #[cycle(share)]
    fn share_refused(
        &mut self,
        way: Way,
        refused: Belief,
        moves: u8,
        deep: u16,
    ) -> Result<Option<u32>, SearchStop>
        requires sharing { IsSharing way.d self.old }
        requires won { is_nil refused ≡ false → WonBy self.old.table refused moves }
        ensures { Shares way.d result (λ o. o
            ≡ refused_number (chess way.d) refused (sets_with_nodes self.new))
            self.old self.new (share_other (chess way.d)
            (refused_canon (chess way.d) moves refused) refused (shared_by way.d self.old)) }
    {
        if refused.is_empty() {
            return Ok(None);
        }
        let set = number_of(&mut self.table, refused)?;
        Ok(Some(self.share(way, set, moves, deep)?))
    }
}
