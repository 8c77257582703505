ghost use Rattle.std.specs.Prelude.{◌≡◌, ◌<◌, ◌≤◌, ◌+◌, ◌∷◌, ◌++◌, [], Some, IfOk, OnOk, length, map, slice_get, slice_range};
ghost use Rattle.krieg_costs.specs.Sums.{total};
ghost use Rattle.krieg_strategy.specs.WellFormed.{IsBelow, HasOrder};
ghost use Rattle.krieg_strategy.specs.Edges.{edge_of};
ghost use Rattle.krieg_strategy.specs.Arena.{IsArena, nodes_in};
ghost use Rattle.krieg_strategy.specs.Nodes.{Node};
ghost use Rattle.krieg_strategy.specs.Seen.{node_of};
ghost use Rattle.krieg_strategy.specs.declared.limits.TheConstants.{MOST_NODES, MOST_EDGES};

use crate::edge::{Slot, StrategyEdge};
use crate::limits::{MOST_EDGES, MOST_NODES};
use crate::node::StrategyNode;
use krieg_board::{Move, NoMemory};
use std::alloc::Global;
use std::marker::Model;

/// The nodes of a strategy, in an arena. Each leads to nodes before it alone, and the keys of its edges ascend.
///
/// In contracts it is the list of the nodes, each with its edges.
#[derive(Drop)]
pub struct Nodes {
    slots: Vec<Slot>,
    edges: Vec<StrategyEdge>,
}

impl Model for Nodes {
    ghost use Rattle.std.specs.Prelude.{List};
    ghost use Rattle.krieg_board.specs.declared.men.Move.{Move};
    ghost use Rattle.krieg_game.specs.Keys.{Key};
    ghost use Rattle.krieg_strategy.specs.Nodes.{Node};
    ghost use Rattle.krieg_strategy.specs.Arena.{IsArena, nodes_in};

    ghost Value = { List (Node Move Key) };

    ghost view = { λ n. nodes_in n.edges.items n.slots.items };

    ghost invariant = { λ n. IsArena n.edges.items n.slots.items };
}

/// The edges of a slot.
fn edges_of<'a>(edges: &'a [StrategyEdge], slot: &Slot) -> &'a [StrategyEdge]
    requires ordered { slot.now.from ≤ slot.now.to }
    requires within { slot.now.to ≤ length edges.now }
    ensures { result.now ≡ slice_range edges.now slot.now.from slot.now.to }
{
    &edges[slot.from as usize..slot.to as usize]
}

impl Nodes {
    /// No nodes.
    pub fn new(alloc: Global) -> Nodes
        ensures { result ≡ [] }
    {
        Nodes {
            slots: Vec::new(alloc),
            edges: Vec::new(alloc),
        }
    }

    /// How many nodes there are.
    pub fn len(&self) -> usize
        ensures value { result ≡ length self.now }
        ensures few { result ≤ MOST_NODES }
    {
        self.slots.len()
    }

    /// The node with that number.
    pub fn get(&self, number: u32) -> StrategyNode<'_>
        requires { number < length self.now }
        ensures value { slice_get self.now number ≡ Some (node_of result) }
        ensures below { IsBelow number (node_of result) }
        ensures order { HasOrder (node_of result) }
    {
        let slot = self.slots[number as usize];
        StrategyNode {
            mv: slot.mv,
            no: slot.no,
            edges: edges_of(&self.edges, &slot),
        }
    }

    /// Adds a node, which gets the next number. With an error nothing is added.
    pub fn push(&mut self, node: StrategyNode<'_>) -> Result<(), NoMemory>
        requires room { length self.old < MOST_NODES }
        requires few { total (λ n. length n.edges) self.old + length node.edges.now ≤ MOST_EDGES }
        requires below { IsBelow (length self.old) (node_of node) }
        requires order { HasOrder (node_of node) }
        ensures { OnOk result (self.new ≡ self.old ++ node_of node.entry ∷ []) }
    {
        let from = self.edges.len() as u32;
        self.slots.reserve(1)?;
        self.edges.extend_from_slice(node.edges)?;
        let to = self.edges.len() as u32;
        self.slots.push(Slot {
            mv: node.mv,
            no: node.no,
            from,
            to,
        })?;
        Ok(())
    }
}
