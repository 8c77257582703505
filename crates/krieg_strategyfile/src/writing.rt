ghost use Rattle.std.specs.Prelude.{◌≡◌, ◌<◌, ◌∷◌, [], Ok, IfOk, length, map, codes};
ghost use Rattle.std.specs.List.{All, flat_map};
ghost use Rattle.krieg_text.specs.Lines.{lines};
ghost use Rattle.krieg_text.specs.Reading.{whole};
ghost use Rattle.krieg_text.specs.Writing.{Appends, PutsPieces, PutsLines, put_lines};
ghost use Rattle.krieg_words.specs.ToldWords.{Fits};
ghost use Rattle.krieg_planfile.specs.NodeText.{IsToldKey, on_line};
ghost use Rattle.krieg_planfile.specs.PlanFiles.{IsToldRoot};
ghost use Rattle.krieg_planfile.specs.PlanText.{root_line};
ghost use Rattle.krieg_strategy.specs.Edges.{edge_of};
ghost use Rattle.krieg_strategy.specs.Roots.{root_of};
ghost use Rattle.krieg_strategy.specs.Seen.{node_of};
ghost use Rattle.krieg_strategyfile.specs.LineForms as line;
ghost use Rattle.krieg_strategyfile.specs.Parts as parts;
ghost use Rattle.krieg_strategyfile.specs.Strategies.{state_of};
ghost use Rattle.krieg_strategyfile.specs.StrategyFormat.{strategy_at, SpellsStrategy, play_of};
ghost use Rattle.krieg_strategyfile.specs.StrategyText as spec;
ghost use Rattle.krieg_strategyfile.specs.Writable.{CanBeWritten, IsToldNode};

use krieg_board::NoMemory;
use krieg_fen::{put_listing, put_move};
use krieg_strategy::{Nodes, Strategy, StrategyEdge, StrategyNode, StrategyRoot};
use krieg_text::{Text, put_number};
use krieg_words::{Dialect, Words};
use krieg_wordtext::{put_dialect_line, put_words_in};
use std::alloc::Global;

/// Adds the line of a name and a number.
fn put_numbered(name: &[u8], n: usize, text: &mut Text) -> Result<(), NoMemory>
    ensures { PutsLines result text.old text.new (line.numbered name.now n ∷ []) }
{
    text.put(name)?;
    put_number(n as u64, text)?;
    text.end_line()
}

// ---- nodes

/// Adds the number of the node to go on with if the try is illegal, where there is one.
fn put_no(no: Option<u32>, text: &mut Text) -> Result<(), NoMemory>
    ensures { PutsPieces result text.old text.new (line.no_pieces no) }
{
    match no {
        None => Ok(()),
        Some(to) => {
            text.put(b" no ")?;
            put_number(u64::from(to) + 1, text)
        }
    }
}

/// Adds the line of a node.
fn put_play(node: &StrategyNode<'_>, text: &mut Text) -> Result<(), NoMemory>
    ensures { PutsLines result text.old text.new
        (line.play_line (play_of (node_of node.now)) ∷ []) }
{
    text.put(b"play ")?;
    put_move(node.mv, text)?;
    put_no(node.no, text)?;
    text.put(b" ")?;
    put_number(node.edges.len() as u64, text)?;
    text.end_line()
}

/// Adds what a line says after its words: where it leads.
fn put_to(to: u32, text: &mut Text) -> Result<(), NoMemory>
    ensures { PutsLines result text.old text.new (line.led [] to ∷ []) }
{
    text.put(b" ")?;
    put_number(u64::from(to) + 1, text)?;
    text.end_line()
}

/// Adds the words before and behind a slash.
fn put_key(d: Dialect, own: Words, reply: Words, text: &mut Text) -> Result<(), NoMemory>
    requires own { Fits d own }
    requires reply { Fits d reply }
    ensures { PutsPieces result text.old text.new (on_line d (own, reply)) }
{
    text.put(b"on ")?;
    put_words_in(d, own, text)?;
    text.put(b" / ")?;
    put_words_in(d, reply, text)
}

/// Adds the line of an edge.
fn put_edge(d: Dialect, e: &StrategyEdge, text: &mut Text) -> Result<(), NoMemory>
    requires { IsToldKey d (edge_of e.now).0 }
    ensures { PutsLines result text.old text.new (line.edge_line d (edge_of e.now) ∷ []) }
{
    put_key(d, e.own, e.reply, text)?;
    put_to(e.to, text)
}

/// Adds the lines of edges.
#[tactic(auto, using(krieg_text::proofs::Writings::writings))]
fn put_edges(d: Dialect, edges: &[StrategyEdge], text: &mut Text) -> Result<(), NoMemory>
    requires { All (λ e. IsToldKey d e.0) (map edge_of edges.now) }
    ensures { PutsLines result text.old text.new (map (line.edge_line d) (map edge_of edges.now)) }
{
    for e in edges {
        put_edge(d, e, text)?;
    }
    Ok(())
}

/// Adds the line of a node, and those of its edges.
#[tactic(auto, using(krieg_text::proofs::Writings::writings))]
fn put_node(d: Dialect, node: &StrategyNode<'_>, text: &mut Text) -> Result<(), NoMemory>
    requires { IsToldNode d (node_of node.now) }
    ensures { PutsLines result text.old text.new (parts.node_lines d (node_of node.now)) }
{
    put_play(node, text)?;
    put_edges(d, node.edges, text)
}

/// Adds the lines of nodes.
#[tactic(auto, using(krieg_text::proofs::Writings::writings))]
fn put_each_node(d: Dialect, nodes: &Nodes, text: &mut Text) -> Result<(), NoMemory>
    requires { All (IsToldNode d) nodes.now }
    ensures { PutsLines result text.old text.new (flat_map (parts.node_lines d) nodes.now) }
{
    for i in 0..nodes.len() {
        put_node(d, &nodes.get(i as u32), text)?;
    }
    Ok(())
}

/// Adds the number of nodes, and their lines.
#[tactic(auto, using(krieg_text::proofs::Writings::writings))]
fn put_nodes(d: Dialect, nodes: &Nodes, text: &mut Text) -> Result<(), NoMemory>
    requires { All (IsToldNode d) nodes.now }
    ensures { PutsLines result text.old text.new (parts.nodes_lines d nodes.now) }
{
    put_numbered(b"nodes ", nodes.len(), text)?;
    put_each_node(d, nodes, text)
}

// ---- roots

/// Adds what a root says before where it leads.
fn put_root_words(d: Dialect, r: &StrategyRoot, text: &mut Text) -> Result<(), NoMemory>
    requires { IsToldRoot d (root_of r.now).0 }
    ensures { PutsPieces result text.old text.new (root_line d (root_of r.now).0) }
{
    match r.heard {
        None => {
            text.put(b"on ")?;
            put_words_in(d, r.opens, text)
        }
        Some(heard) => put_key(d, r.opens, heard, text),
    }
}

/// Adds the line of a root.
fn put_root(d: Dialect, r: &StrategyRoot, text: &mut Text) -> Result<(), NoMemory>
    requires { IsToldRoot d (root_of r.now).0 }
    ensures { PutsLines result text.old text.new (line.root_to_line d (root_of r.now) ∷ []) }
{
    put_root_words(d, r, text)?;
    put_to(r.to, text)
}

/// Adds the lines of roots.
#[tactic(auto, using(krieg_text::proofs::Writings::writings))]
fn put_each_root(d: Dialect, roots: &[StrategyRoot], text: &mut Text) -> Result<(), NoMemory>
    requires { All (λ r. IsToldRoot d r.0) (map root_of roots.now) }
    ensures { PutsLines result text.old text.new
        (map (line.root_to_line d) (map root_of roots.now)) }
{
    for r in roots {
        put_root(d, r, text)?;
    }
    Ok(())
}

/// Adds the number of roots, and their lines.
#[tactic(auto, using(krieg_text::proofs::Writings::writings))]
fn put_roots(d: Dialect, roots: &[StrategyRoot], text: &mut Text) -> Result<(), NoMemory>
    requires { All (λ r. IsToldRoot d r.0) (map root_of roots.now) }
    ensures { PutsLines result text.old text.new (parts.roots_lines d (map root_of roots.now)) }
{
    put_numbered(b"roots ", roots.len(), text)?;
    put_each_root(d, roots, text)
}

// ---- the file

/// Adds the lines of the version and of the dialect.
fn put_heading(d: Dialect, text: &mut Text) -> Result<(), NoMemory>
    ensures { PutsLines result text.old text.new (parts.heading_lines d) }
{
    put_numbered(b"krieg strategy ", 1, text)?;
    put_dialect_line(d, text)
}

/// Adds the lines of the strategy.
fn put_strategy(s: &Strategy, text: &mut Text) -> Result<(), NoMemory>
    requires nodes { All (IsToldNode s.now.dialect) s.now.nodes }
    requires roots { All (λ r. IsToldRoot s.now.dialect r.0) (map root_of s.now.roots.items) }
    ensures { PutsLines result text.old text.new (parts.strategy_lines (state_of s.now)) }
{
    put_heading(s.dialect, text)?;
    put_listing(s.side, &s.list, text)?;
    put_numbered(b"worst ", usize::from(s.worst), text)?;
    put_nodes(s.dialect, &s.nodes, text)?;
    put_roots(s.dialect, &s.roots, text)?;
    text.line(b"end")
}

/// Appends the lines of the strategy.
fn append(s: &Strategy, text: &mut Vec<u8>) -> Result<(), NoMemory>
    requires nodes { All (IsToldNode s.now.dialect) s.now.nodes }
    requires roots { All (λ r. IsToldRoot s.now.dialect r.0) (map root_of s.now.roots.items) }
    ensures { Appends result text.old.items text.new.items
        (put_lines [] (parts.strategy_lines (state_of s.now))) }
{
    let mut all = Text::after(text);
    let done = put_strategy(s, &mut all);
    all.end(done, text)
}

/// The lines of the strategy.
fn lines_of(alloc: Global, s: &Strategy) -> Result<Vec<u8>, NoMemory>
    requires nodes { All (IsToldNode s.now.dialect) s.now.nodes }
    requires roots { All (λ r. IsToldRoot s.now.dialect r.0) (map root_of s.now.roots.items) }
    ensures { IfOk result (λ text. text.items
        ≡ put_lines [] (parts.strategy_lines (state_of s.now))) }
{
    let mut text = Vec::new(alloc);
    append(s, &mut text)?;
    Ok(text)
}

/// The text of the strategy in its one written form.
///
/// The strategy is within the limits of a text, its positions have one hand, its words can be told in the dialect, and its roots
/// have words of the opponent's move exactly where he is to move.
pub fn write_strategy(alloc: Global, s: &Strategy) -> Result<Vec<u8>, NoMemory>
    requires { CanBeWritten (state_of s.now) }
    ensures value { IfOk result (λ text. text.items ≡ spec.strategy_text (state_of s.now)) }
    // The text spells the strategy, and is read as it again.
    ensures spelled { SpellsStrategy (state_of s.now)
        (lines (spec.strategy_text (state_of s.now))) }
    ensures again { whole strategy_at (lines (spec.strategy_text (state_of s.now)))
        ≡ Ok (state_of s.now) }
    // It has fewer than 66,000,000 bytes, so that it fits an input.
    ensures short { length (spec.strategy_text (state_of s.now)) < spec.text_bound }
{
    lines_of(alloc, s)
}
