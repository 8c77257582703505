ghost use Rattle.std.specs.Prelude.{◌≡◌, None, Err, IfErr, ◌≢◌, map, option_map};
ghost use Rattle.krieg_text.specs.Outcomes.{◌>>=◌ as and_then};
ghost use Rattle.krieg_text.specs.Reading.{taken, GivesOn};
ghost use Rattle.krieg_text.specs.declared.fault.TextKind.TheVariants.{Deep};
ghost use Rattle.krieg_plan.specs.Nodes.{tree_of, edge_of, as_other, as_edges};
ghost use Rattle.krieg_planfile.specs.NodeForms.{play_form, on_form};
ghost use Rattle.krieg_planfile.specs.NodeReading as spec;

use crate::forms::{Play, play_form, read_on, read_play};
use krieg_plan::{Edge, Node};
use krieg_text::{Cursor, LineSource, TextFault, TextKind};
use krieg_words::{Dialect, Words};
use std::alloc::Global;

/// The line of a node that has too many nodes above it. It is never taken.
fn deep_form(left: usize, line: &[u8]) -> Result<Box<Node>, TextKind>
    ensures { result ≡ and_then (play_form left line.now) (λ play. Err Deep) }
{
    play_form(left, line)?;
    Err(TextKind::Deep)
}

/// The next line, as that of a node with too many nodes above it.
#[tactic(auto, using(crate::proofs::NodeSpellings::deep_gives))]
fn read_too_deep(from: &mut Cursor<'_>, left: usize) -> Result<Box<Node>, TextFault>
    ensures { GivesOn (λ b. (tree_of b.value, left)) result from.new
        (taken (spec.deep_form left) from.old) }
{
    from.next(|line| deep_form(left, line))
}

/// A node, where `room` nodes may stand on a path from here on, and `left` may still come in all.
#[cycle(reading)]
#[tactic(auto, unfolding(crate::specs::NodeReading::node_at))]
pub(crate) fn read_node(
    alloc: Global,
    from: &mut Cursor<'_>,
    d: Dialect,
    room: usize,
    left: &mut usize,
) -> Result<Box<Node>, TextFault>
    ensures { GivesOn (λ b. (tree_of b.value, left.new)) result from.new
        (spec.node_at room d left.old from.old) }
{
    if room == 0 {
        return read_too_deep(from, *left);
    }
    let play = read_play(from, *left)?;
    *left = left.saturating_sub(1);
    read_below(alloc, from, d, room - 1, left, &play)
}

/// What stands below the line of a node.
#[cycle(reading)]
fn read_below(
    alloc: Global,
    from: &mut Cursor<'_>,
    d: Dialect,
    room: usize,
    left: &mut usize,
    play: &Play,
) -> Result<Box<Node>, TextFault>
    ensures { GivesOn (λ b. (tree_of b.value, left.new)) result from.new
        (spec.below_by (spec.node_at room d) d play.now left.old from.old) }
{
    let no = read_other(alloc, from, d, room, left, play.no)?;
    let edges = read_edges(alloc, from, d, room, left, play.edges)?;
    let node = Node::make(alloc, play.mv, no, edges)?;
    Ok(node)
}

/// The node for the illegal case, where there is one.
#[cycle(reading)]
fn read_other(
    alloc: Global,
    from: &mut Cursor<'_>,
    d: Dialect,
    room: usize,
    left: &mut usize,
    is_there: bool,
) -> Result<Option<Box<Node>>, TextFault>
    ensures { GivesOn (λ o. (as_other (option_map (λ b. tree_of b.value) o), left.new)) result
        from.new (spec.other_by (spec.node_at room d) is_there left.old from.old) }
{
    if !is_there {
        return Ok(None);
    }
    let node = read_node(alloc, from, d, room, left)?;
    Ok(Some(node))
}

/// The line of an edge, after the edge with the last key, and its node.
#[cycle(reading)]
fn read_edge(
    alloc: Global,
    from: &mut Cursor<'_>,
    d: Dialect,
    room: usize,
    left: &mut usize,
    last: &Option<(Words, Words)>,
) -> Result<Edge, TextFault>
    ensures { GivesOn (λ e. (edge_of e, left.new)) result from.new
        (spec.branch_by (spec.node_at room d) (on_form d) last.now left.old from.old) }
{
    let (own, reply) = read_on(from, d, last)?;
    let node = read_node(alloc, from, d, room, left)?;
    Ok(Edge { own, reply, node })
}

/// `k` edges.
#[cycle(reading)]
#[tactic(auto, using(crate::proofs::Branches::branches))]
fn read_edges(
    alloc: Global,
    from: &mut Cursor<'_>,
    d: Dialect,
    room: usize,
    left: &mut usize,
    k: u64,
) -> Result<Vec<Edge>, TextFault>
    ensures { GivesOn (λ v. (map edge_of v.items, left.new)) result from.new
        (spec.branches_by (spec.node_at room d) (on_form d) k None left.old from.old) }
{
    let mut edges = Vec::new(alloc);
    let mut last: Option<(Words, Words)> = None;
    for i in 0..k {
        let edge = match read_edge(alloc, from, d, room, left, &last) {
            Ok(edge) => edge,
            Err(fault) => return Err(fault),
        };
        last = Some((edge.own, edge.reply));
        edges.push(edge)?;
    }
    Ok(edges)
}
