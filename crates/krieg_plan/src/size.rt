ghost use Rattle.std.specs.Prelude.{◌≡◌, ◌+◌, ◌<◌, ◌≤◌, MatchOption, map};
ghost use Rattle.krieg_theory.specs.Tree.{size, size_edges};
ghost use Rattle.krieg_plan.specs.Trees.{plan_size};
ghost use Rattle.krieg_plan.specs.Nodes.{tree_of, edge_of, as_edges};
ghost use Rattle.krieg_plan.specs.Roots.{root_of};
ghost use Rattle.krieg_plan.specs.Plans.{plan_of};

use crate::node::{Edge, Node};
use crate::plan::{Plan, Root};

/// How many nodes the plan has; none where they are more than `max`.
pub fn size_up_to(p: &Plan, max: usize) -> Option<usize>
    ensures { MatchOption result (max < plan_size (plan_of p.now))
        (λ size. (size ≡ plan_size (plan_of p.now)) × (size ≤ max)) }
{
    let left = left_of(&p.roots, max)?;
    Some(max - left)
}

/// What the nodes of all roots leave of `max`; none where they are more.
fn left_of(roots: &[Root], max: usize) -> Option<usize>
    ensures { MatchOption result (max < plan_size (map root_of roots.now))
        (λ left. left + plan_size (map root_of roots.now) ≡ max) }
{
    let mut left = max;
    for r in roots {
        left = left_after(&r.node, left)?;
    }
    Some(left)
}

/// What a node and those below it leave of `max`; none where they are more.
///
/// It goes on over `no` in a loop, and calls itself for the edges alone.
#[cycle(counting)]
fn left_after(n: &Node, max: usize) -> Option<usize>
    ensures { MatchOption result (max < size (tree_of n.now))
        (λ left. left + size (tree_of n.now) ≡ max) }
{
    let mut left = max;
    let mut here = n;
    'nodes: loop {
        if left == 0 {
            return None;
        }
        left = left_below(&here.edges, left - 1)?;
        match &here.no {
            Some(next) => here = next,
            None => return Some(left),
        }
    }
}

/// What the nodes that edges lead to, and those below them, leave of `max`; none where they are more.
#[cycle(counting)]
fn left_below(edges: &[Edge], max: usize) -> Option<usize>
    ensures { MatchOption result (max < size_edges (as_edges (map edge_of edges.now)))
        (λ left. left + size_edges (as_edges (map edge_of edges.now)) ≡ max) }
{
    let mut left = max;
    for e in edges {
        left = left_after(&e.node, left)?;
    }
    Some(left)
}
