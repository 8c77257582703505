ghost use Rattle.std.specs.Prelude.{◌≡◌, true, IfSome, MatchOption, map};
ghost use Rattle.krieg_theory.specs.Sets.{same};
ghost use Rattle.krieg_theory.specs.Tree.{Nothing, Just, first_edge};
ghost use Rattle.krieg_game.specs.Keys.{key_cmp, key_lt};
ghost use Rattle.krieg_plan.specs.Trees.{first_edge_in};
ghost use Rattle.krieg_plan.specs.Order.{is_ordered};
ghost use Rattle.krieg_plan.specs.Nodes.{tree_of, edge_of, as_edges};

use crate::node::{Edge, Node};
use krieg_words::{Words, compare};
use std::cmp::Ordering;

/// The order of keys: by the own move's words, then by the reply's.
fn compare_key(e: &Edge, own: &Words, reply: &Words) -> Ordering
    ensures { result ≡ key_cmp (edge_of e.now).0 (own.now, reply.now) }
{
    compare(&e.own, own).then(compare(&e.reply, reply))
}

/// Whether the edge has these words.
fn has_key(e: &Edge, own: &Words, reply: &Words) -> bool
    ensures { result ≡ same key_lt (edge_of e.now).0 (own.now, reply.now) }
{
    compare_key(e, own, reply).is_eq()
}

/// The node at the first edge with these words, in any node.
///
/// It looks at one edge after another. Where the keys ascend, as in every plan, `find_edge_in_order` is
/// faster.
pub fn find_edge(n: &Node, own: Words, reply: Words) -> Option<&Node>
    ensures { MatchOption result (first_edge_in (tree_of n.now) (own, reply) ≡ Nothing)
        (λ r. first_edge_in (tree_of n.now) (own, reply) ≡ Just (tree_of r.now)) }
{
    find_in(&n.edges, &own, &reply)
}

fn find_in<'a>(list: &'a [Edge], own: &Words, reply: &Words) -> Option<&'a Node>
    ensures { MatchOption result (first_edge key_lt (as_edges (map edge_of list.now))
        (own.now, reply.now) ≡ Nothing)
        (λ r. first_edge key_lt (as_edges (map edge_of list.now)) (own.now, reply.now)
        ≡ Just (tree_of r.now)) }
{
    for e in list {
        if has_key(e, own, reply) {
            return Some(&e.node);
        }
    }
    None
}

/// The node at the edge with these words, by bisection: the keys ascend in the node and below it, as in every
/// node of a plan, and so they do in what is found.
pub fn find_edge_in_order(n: &Node, own: Words, reply: Words) -> Option<&Node>
    requires { is_ordered (tree_of n.now) ≡ true }
    ensures ordered { IfSome result (λ r. is_ordered (tree_of r.now) ≡ true) }
    ensures found { MatchOption result (first_edge_in (tree_of n.now) (own, reply) ≡ Nothing)
        (λ r. first_edge_in (tree_of n.now) (own, reply) ≡ Just (tree_of r.now)) }
{
    match n.edges.binary_search_by(|e| compare_key(e, &own, &reply)) {
        Ok(place) => Some(&n.edges[place].node),
        Err(_) => None,
    }
}
