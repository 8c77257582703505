ghost use Rattle.std.specs.Prelude.{◌≡◌, Some, map};
ghost use Rattle.krieg_game.specs.Keys.{key_cmp, key_lt};
ghost use Rattle.krieg_theory.specs.Sets.{same};
ghost use Rattle.krieg_strategy.specs.Nodes.{first_to};
ghost use Rattle.krieg_strategy.specs.Edges.{edge_of};

use krieg_board::Move;
use krieg_words::{Words, compare};
use std::cmp::Ordering;

/// An edge of a node: the words of the own move and of the reply, and the number of the node to go on with.
#[derive(Clone, Copy)]
pub struct StrategyEdge {
    pub own: Words,
    pub reply: Words,
    pub to: u32,
}

/// A node without its edges: these are those from one place on, up to another, among the edges of all nodes.
#[derive(Clone, Copy)]
pub(crate) struct Slot {
    pub mv: Move,
    pub no: Option<u32>,
    pub from: u32,
    pub to: u32,
}

/// The order of keys: by the own move's words, then by the reply's.
fn compare_key(e: &StrategyEdge, own: &Words, reply: &Words) -> Ordering
    ensures { result ≡ key_cmp (edge_of e.now).0 (own.now, reply.now) }
{
    compare(&e.own, own).then(compare(&e.reply, reply))
}

/// Whether the edge has these words.
fn has_key(e: &StrategyEdge, own: &Words, reply: &Words) -> bool
    ensures { result ≡ same key_lt (edge_of e.now).0 (own.now, reply.now) }
{
    compare_key(e, own, reply).is_eq()
}

/// The number of the node at the first edge with these words.
pub fn find_edge_to(edges: &[StrategyEdge], own: &Words, reply: &Words) -> Option<u32>
    ensures { result ≡ first_to key_lt (map edge_of edges.now) (own.now, reply.now) }
{
    for e in edges {
        if has_key(e, own, reply) {
            return Some(e.to);
        }
    }
    None
}
