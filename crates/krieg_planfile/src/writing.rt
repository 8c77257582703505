ghost use Rattle.std.specs.Prelude.{◌≡◌, ◌∷◌, [], None, Ok, map, codes};
ghost use Rattle.krieg_text.specs.Writing.{PutsLines};
ghost use Rattle.krieg_plan.specs.Nodes.{tree_of, edge_of};
ghost use Rattle.krieg_plan.specs.Trees.{edges_in};
ghost use Rattle.krieg_plan.specs.Roots.{root_of};
ghost use Rattle.krieg_words.specs.ToldWords.{Fits};
ghost use Rattle.krieg_planfile.specs.NodeText as spec;
ghost use Rattle.krieg_planfile.specs.NodeText.{other_in, IsToldKey, IsTold, AreToldBranches};
ghost use Rattle.krieg_planfile.specs.PlanFiles.{IsToldRoot};
ghost use Rattle.krieg_planfile.specs.PlanText as plan;

use krieg_board::{Move, NoMemory};
use krieg_fen::put_move;
use krieg_plan::{Edge, Node, Root};
use krieg_text::{Text, put_number};
use krieg_words::{Dialect, Words};
use krieg_wordtext::put_words_in;

fn no_text(no: bool) -> &'static [u8]
    ensures { result.now ≡ spec.no_text no }
{
    if no { b" no " } else { b" " }
}

/// Adds the line of a node.
fn put_play(mv: Move, no: bool, edges: usize, text: &mut Text) -> Result<(), NoMemory>
    ensures { PutsLines result text.old text.new (spec.play_line mv no edges ∷ []) }
{
    text.put(b"play ")?;
    put_move(mv, text)?;
    text.put(no_text(no))?;
    put_number(edges as u64, text)?;
    text.end_line()
}

/// Adds the line of an edge.
fn put_on(d: Dialect, own: Words, reply: Words, text: &mut Text) -> Result<(), NoMemory>
    requires own { Fits d own }
    requires reply { Fits d reply }
    ensures { PutsLines result text.old text.new (spec.on_line d (own, reply) ∷ []) }
{
    text.put(b"on ")?;
    put_words_in(d, own, text)?;
    text.put(b" / ")?;
    put_words_in(d, reply, text)?;
    text.end_line()
}

/// Adds the line of a root that is told by opening words alone.
fn put_opening(d: Dialect, opens: Words, text: &mut Text) -> Result<(), NoMemory>
    requires { Fits d opens }
    ensures { PutsLines result text.old text.new (plan.root_line d (opens, None) ∷ []) }
{
    text.put(b"on ")?;
    put_words_in(d, opens, text)?;
    text.end_line()
}

/// Adds the line of a root: `on W`, or `on W / W` at the opponent's turn. `NoMemory` leaves the text as it was.
pub fn put_root_line(
    d: Dialect,
    opens: Words,
    heard: &Option<Words>,
    text: &mut Text,
) -> Result<(), NoMemory>
    requires { IsToldRoot d (opens, heard.now) }
    ensures { PutsLines result text.old text.new (plan.root_line d (opens, heard.now) ∷ []) }
{
    match heard {
        None => put_opening(d, opens, text),
        Some(heard) => put_on(d, opens, *heard, text),
    }
}

/// Adds the lines of a node and of all that is below it.
#[cycle(writing)]
fn put_node(d: Dialect, n: &Node, text: &mut Text) -> Result<(), NoMemory>
    requires { IsTold d (tree_of n.now) }
    ensures { PutsLines result text.old text.new (spec.node_lines d (tree_of n.now)) }
{
    put_play(n.mv, n.no.is_some(), n.edges.len(), text)?;
    put_other(d, n, text)?;
    put_edges(d, n, text)
}

/// Adds the lines of a node's node for the illegal case, where there is one.
#[cycle(writing)]
fn put_other(d: Dialect, n: &Node, text: &mut Text) -> Result<(), NoMemory>
    requires { IsTold d (tree_of n.now) }
    ensures { PutsLines result text.old text.new (spec.other_lines d (other_in (tree_of n.now))) }
{
    match &n.no {
        None => Ok(()),
        Some(other) => put_node(d, other, text),
    }
}

/// Adds the lines of a node's edges and of their nodes.
#[cycle(writing)]
fn put_edges(d: Dialect, n: &Node, text: &mut Text) -> Result<(), NoMemory>
    requires { IsTold d (tree_of n.now) }
    ensures { PutsLines result text.old text.new (spec.edges_lines d (edges_in (tree_of n.now))) }
{
    for e in &n.edges {
        put_edge(d, e, text)?;
    }
    Ok(())
}

/// Adds the line of an edge and the lines of its node.
#[cycle(writing)]
fn put_edge(d: Dialect, e: &Edge, text: &mut Text) -> Result<(), NoMemory>
    requires key { IsToldKey d (edge_of e.now).0 }
    requires node { IsTold d (edge_of e.now).1 }
    ensures { PutsLines result text.old text.new
        (spec.on_line d (edge_of e.now).0 ∷ spec.node_lines d (edge_of e.now).1) }
{
    put_on(d, e.own, e.reply, text)?;
    put_node(d, &e.node, text)
}

/// Adds the line of a root and the lines of its node.
fn put_root(d: Dialect, r: &Root, text: &mut Text) -> Result<(), NoMemory>
    requires key { IsToldRoot d (root_of r.now).0 }
    requires node { IsTold d (root_of r.now).1 }
    ensures { PutsLines result text.old text.new
        (plan.root_line d (root_of r.now).0 ∷ spec.node_lines d (root_of r.now).1) }
{
    put_root_line(d, r.opens, &r.heard, text)?;
    put_node(d, &r.node, text)
}

/// Adds the lines of the roots and of their nodes.
#[tactic(auto, using(crate::proofs::NodeWriting::writing))]
pub(crate) fn put_roots(d: Dialect, roots: &[Root], text: &mut Text) -> Result<(), NoMemory>
    requires { AreToldBranches (IsToldRoot d) d (map root_of roots.now) }
    ensures { PutsLines result text.old text.new (plan.roots_lines d (map root_of roots.now)) }
{
    for r in roots {
        put_root(d, r, text)?;
    }
    Ok(())
}
