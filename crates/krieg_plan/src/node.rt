ghost use Rattle.std.specs.Prelude.{◌≡◌, ◌+◌, ◌<◌, IfOk, option_map, map, vec_len, vec_capacity};
ghost use Rattle.krieg_theory.specs.Tree.{Try, size_other, size_edges};
ghost use Rattle.krieg_plan.specs.Nodes.{tree_of, edge_of, as_other, as_edges};

use krieg_board::{Move, NoMemory};
use krieg_words::Words;
use std::alloc::Global;
use std::mem;

/// A node of a plan: a try, where to go on if the umpire calls it illegal, and where to go on by what is
/// heard if it is legal.
///
/// A node by itself promises nothing about the order of its edges.
#[cycle(node)]
pub struct Node {
    pub mv: Move,
    pub no: Option<Box<Node>>,
    pub edges: Vec<Edge>,
}

/// An edge of a plan: the words of the own move and of the reply, and the node to go on with.
#[derive(Drop)]
#[cycle(node)]
pub struct Edge {
    pub own: Words,
    pub reply: Words,
    pub node: Box<Node>,
}

impl Node {
    /// A node with these parts, on the heap.
    pub fn make(
        alloc: Global,
        mv: Move,
        no: Option<Box<Node>>,
        edges: Vec<Edge>,
    ) -> Result<Box<Node>, NoMemory>
        ensures { IfOk result (λ b. tree_of b.value
            ≡ Try mv (as_other (option_map (λ b. tree_of b.value) no))
            (as_edges (map edge_of edges.items))) }
    {
        Ok(Box::new(alloc, Node { mv, no, edges })?)
    }
}

/// A loop, so that a long path does not run out of stack, and without memory.
///
/// The nodes that wait hang in a list over their `no`. The node of the last edge comes before the list, and
/// what hung over its own `no` takes its place at the edge.
impl Drop for Node {
    fn drop(mut self) {
        loop {
            let Node { mv, no, mut edges } = self;
            match edges.pop() {
                Some(last) => {
                    let Edge {
                        own,
                        reply,
                        mut node,
                    } = last;
                    let below = mem::replace(&mut node.no, no);
                    put_back(&mut edges, own, reply, below);
                    self = Node {
                        mv,
                        no: Some(node),
                        edges,
                    };
                }
                None => {
                    edges.destroy_empty();
                    match no {
                        Some(next) => self = Box::into_inner(next),
                        None => return,
                    }
                }
            }
        }
    }
}

/// Puts an edge to a node, if there is one, into a place that is free.
fn put_back(edges: &mut Vec<Edge>, own: Words, reply: Words, node: Option<Box<Node>>)
    requires { vec_len edges.old < vec_capacity edges.old }
    ensures { size_edges (as_edges (map edge_of edges.new.items))
        ≡ size_edges (as_edges (map edge_of edges.old.items))
        + size_other (as_other (option_map (λ b. tree_of b.value) node)) }
{
    if let Some(node) = node {
        edges.push_reserved(Edge { own, reply, node });
    }
}
