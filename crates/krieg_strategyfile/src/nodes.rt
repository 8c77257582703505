ghost use Rattle.std.specs.Prelude.{◌≡◌, ◌≤◌, ◌<◌, ◌+◌, ◌∷◌, ◌++◌, [], IfOk, OnOk, length, map, nat_le};
ghost use Rattle.krieg_text.specs.Reading.{taken, GivesOn};
ghost use Rattle.krieg_game.specs.Keys.{key_lt};
ghost use Rattle.krieg_planfile.specs.NodeForms.{follows};
ghost use Rattle.krieg_strategy.specs.Edges.{edge_of};
ghost use Rattle.krieg_strategy.specs.WellFormed.{IsBelow, HasOrder};
ghost use Rattle.krieg_strategy.specs.declared.limits.TheConstants.{MOST_EDGES, MOST_NODES};
ghost use Rattle.krieg_format.specs.Lines.{with_test, tested};
ghost use Rattle.krieg_strategyfile.specs.ReadParts as parts;
ghost use Rattle.krieg_strategyfile.specs.StrategyLines as lines;
ghost use Rattle.krieg_strategyfile.specs.StrategyLines.{a_play, an_edge, edged, played};

use crate::forms::{Key, Play, edge_form, play_form};
use krieg_board::NoMemory;
use krieg_strategy::{MOST_EDGES, Nodes, StrategyEdge, StrategyNode};
use krieg_text::{Cursor, LineSource, TextFault, TextKind};
use krieg_words::{Dialect, compare};
use std::alloc::Global;

// ---- the line of a node

fn leads_below(own: usize, no: Option<u32>) -> bool
    ensures { result ≡ lines.leads_below own no }
{
    match no {
        None => true,
        Some(to) => (to as usize) < own,
    }
}

/// Whether so many more edges are not more than the most in all.
fn are_few(before: usize, more: usize) -> bool
    ensures { result ≡ nat_le (before + more) MOST_EDGES }
{
    before.saturating_add(more) <= MOST_EDGES
}

/// What the line of a node says that stands behind so many nodes with so many edges.
fn played_form(nodes: usize, edges: usize, line: &[u8]) -> Result<Play, TextKind>
    ensures { result ≡ with_test a_play.form
        (played (record { nodes = nodes; edges = edges })) line.now }
{
    let play = play_form(line)?;
    if !leads_below(nodes, play.no) {
        Err(TextKind::OutOfPlace)
    } else if are_few(edges, play.edges) {
        Ok(play)
    } else {
        Err(TextKind::Large)
    }
}

/// The next line, as that of a node that stands behind so many nodes with so many edges.
fn read_play(from: &mut Cursor<'_>, nodes: usize, edges: usize) -> Result<Play, TextFault>
    ensures { GivesOn (λ p. p) result from.new
        (taken (with_test a_play.form (played (record { nodes = nodes; edges = edges })))
        from.old) }
{
    from.next(|line| played_form(nodes, edges, line))
}

// ---- edges

fn follows(last: &Option<Key>, key: &Key) -> bool
    ensures { result ≡ follows key_lt last.now key.now }
{
    match last {
        None => true,
        Some(last) => compare(&last.0, &key.0)
            .then(compare(&last.1, &key.1))
            .is_lt(),
    }
}

/// The key of a line, after the last one, and the number below `own` that it leads to.
fn placed_edge(
    d: Dialect,
    own: usize,
    last: &Option<Key>,
    line: &[u8],
) -> Result<(Key, u32), TextKind>
    ensures { result ≡ (tested (an_edge d) (edged own last.now)).form line.now }
{
    let edge = edge_form(d, line)?;
    if (edge.1 as usize) < own && follows(last, &edge.0) {
        Ok(edge)
    } else {
        Err(TextKind::OutOfPlace)
    }
}

/// The next line, as the key of such an edge and the number that it leads to.
#[tactic(auto, using(krieg_format::proofs::Repeats::line_gives))]
fn next_edge(
    from: &mut Cursor<'_>,
    d: Dialect,
    own: usize,
    last: &Option<Key>,
) -> Result<(Key, u32), TextFault>
    ensures { GivesOn (λ e. e) result from.new (parts.edge_at d own last.now from.old) }
{
    from.next(|line| placed_edge(d, own, last, line))
}

fn edge_with(edge: (Key, u32)) -> StrategyEdge
    ensures { edge_of result ≡ edge }
{
    let ((own, reply), to) = edge;
    StrategyEdge { own, reply, to }
}

/// The next line, as an edge of the node with the number `own`, after the one with the last key.
fn read_edge(
    from: &mut Cursor<'_>,
    d: Dialect,
    own: usize,
    last: &Option<Key>,
) -> Result<StrategyEdge, TextFault>
    ensures { GivesOn (λ e. edge_of e) result from.new (parts.edge_at d own last.now from.old) }
{
    let edge = next_edge(from, d, own, last)?;
    Ok(edge_with(edge))
}

/// The next `n` lines as edges of the node with the number `own`: they stand in `edges`, and nothing else.
#[tactic(auto, using(krieg_text::proofs::ReadingLemmas::passed))]
fn read_edges(
    edges: &mut Vec<StrategyEdge>,
    from: &mut Cursor<'_>,
    d: Dialect,
    own: usize,
    n: usize,
) -> Result<(), TextFault>
    ensures { GivesOn (λ u. map edge_of edges.new.items) result from.new
        (parts.edges_at d own n from.old) }
{
    edges.clear();
    let mut last: Option<Key> = None;
    for i in 0..n {
        let edge = match read_edge(from, d, own, &last) {
            Ok(edge) => edge,
            Err(fault) => return Err(fault),
        };
        last = Some((edge.own, edge.reply));
        edges.push(edge)?;
    }
    Ok(())
}

// ---- nodes

/// The next lines as a node that stands behind so many nodes with so many edges. Its edges stand in `edges`.
fn read_node(
    edges: &mut Vec<StrategyEdge>,
    from: &mut Cursor<'_>,
    d: Dialect,
    nodes: usize,
    before: usize,
) -> Result<Play, TextFault>
    ensures { GivesOn (λ p. parts.node_with p edges.new.items) result from.new
        (parts.node_at d (record { nodes = nodes; edges = before }) from.old) }
{
    let play = read_play(from, nodes, before)?;
    read_edges(edges, from, d, nodes, play.edges)?;
    Ok(play)
}

/// Adds the node with that line and these edges to those before it.
fn add_node(nodes: &mut Nodes, play: Play, edges: &[StrategyEdge]) -> Result<(), NoMemory>
    requires room { length nodes.old < MOST_NODES }
    requires few { (parts.counts_of nodes.old).edges
        + length (parts.node_with play edges.now).edges ≤ MOST_EDGES }
    requires below { IsBelow (length nodes.old) (parts.node_with play edges.now) }
    requires order { HasOrder (parts.node_with play edges.now) }
    ensures { OnOk result (nodes.new ≡ nodes.old ++ parts.node_with play edges.now ∷ []) }
{
    nodes.push(StrategyNode {
        mv: play.mv,
        no: play.no,
        edges,
    })
}

/// The next lines as `n` nodes, each of which leads to those before it alone. The edges of all are read into the same memory.
pub(crate) fn read_nodes(
    alloc: Global,
    from: &mut Cursor<'_>,
    d: Dialect,
    n: usize,
) -> Result<Nodes, TextFault>
    requires { n ≤ MOST_NODES }
    ensures value { GivesOn (λ ns. ns) result from.new (parts.nodes_at d n from.old) }
    ensures formed { IfOk result (λ ns. parts.AreFormed n ns) }
{
    let mut nodes = Nodes::new(alloc);
    let mut edges: Vec<StrategyEdge> = Vec::new(alloc);
    let mut before = 0;
    for i in 0..n {
        let play = match read_node(&mut edges, from, d, i, before) {
            Ok(play) => play,
            Err(fault) => return Err(fault),
        };
        add_node(&mut nodes, play, &edges)?;
        before += edges.len();
    }
    Ok(nodes)
}
