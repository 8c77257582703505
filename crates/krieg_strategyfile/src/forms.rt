ghost use Rattle.std.specs.Prelude.{◌≡◌, ◌≤◌, IfOk, codes};
ghost use Rattle.krieg_text.specs.Forms.{ranged};
ghost use Rattle.krieg_text.specs.Names as names;
ghost use Rattle.krieg_text.specs.declared.fault.TextKind.TheVariants.{Count};
ghost use Rattle.krieg_planfile.specs.NodeForms as plan;
ghost use Rattle.krieg_planfile.specs.PlanReading as roots;
ghost use Rattle.krieg_strategyfile.specs.LineForms as spec;

use krieg_board::Move;
use krieg_fen::read_move;
use krieg_planfile::key_in;
use krieg_strategy::{MOST_EDGES, MOST_NODES};
use krieg_text::{NumberFault, TextKind, behind, cut, cut_last, read_number_between};
use krieg_words::{Dialect, Words};
use krieg_wordtext::read_words_in;

/// What the line of a node says: its try, the number of the node to go on with if it is illegal, and how many edges there
/// are.
#[derive(Clone, Copy)]
pub(crate) struct Play {
    pub mv: Move,
    pub no: Option<u32>,
    pub edges: usize,
}

/// The words of an own move and of the reply.
pub(crate) type Key = (Words, Words);

/// The opening words, and the words of the opponent's move where he is to move first.
pub(crate) type RootKey = (Words, Option<Words>);

// ---- the line of a node

fn without_no(mv: Move, edges: Result<u64, NumberFault>) -> Result<Play, TextKind>
    ensures { result ≡ spec.without_no mv (ranged Count edges) }
{
    match edges {
        Ok(edges) => Ok(Play {
            mv,
            no: None,
            edges: edges as usize,
        }),
        Err(NumberFault::NotPlain) => Err(TextKind::Syntax),
        Err(NumberFault::OutOfRange) => Err(TextKind::Count),
    }
}

fn with_no(
    mv: Move,
    node: Result<u64, NumberFault>,
    edges: Result<u64, NumberFault>,
) -> Result<Play, TextKind>
    requires { IfOk node (λ i. i ≤ MOST_NODES) }
    ensures { result ≡ spec.with_no mv node edges }
{
    match (node, edges) {
        (Ok(node), Ok(edges)) => Ok(Play {
            mv,
            no: Some(node.saturating_sub(1) as u32),
            edges: edges as usize,
        }),
        (Err(NumberFault::NotPlain), _) => Err(TextKind::Syntax),
        (_, Err(NumberFault::NotPlain)) => Err(TextKind::Syntax),
        (_, Err(NumberFault::OutOfRange)) => Err(TextKind::Count),
        _ => Err(TextKind::OutOfPlace),
    }
}

fn after_no(mv: Move, text: &[u8]) -> Result<Play, TextKind>
    ensures { result ≡ spec.after_no mv (names.cut 32 text.now).0 (names.cut 32 text.now).1 }
{
    match cut(b' ', text) {
        (_, None) => Err(TextKind::Syntax),
        (node, Some(edges)) => with_no(
            mv,
            read_number_between(node, 1, MOST_NODES as u64),
            read_number_between(edges, 0, MOST_EDGES as u64),
        ),
    }
}

fn no_or_edges(mv: Move, text: &[u8]) -> Result<Play, TextKind>
    ensures { result ≡ spec.no_or_edges mv (names.behind (codes "no ") text.now) text.now }
{
    match behind(b"no ", text) {
        Some(rest) => after_no(mv, rest),
        None => without_no(mv, read_number_between(text, 0, MOST_EDGES as u64)),
    }
}

fn played_form(text: &[u8]) -> Result<Play, TextKind>
    ensures { result ≡ spec.played_form text.now }
{
    let (first, rest) = cut(b' ', text);
    match (read_move(first), rest) {
        (Ok(mv), Some(rest)) => no_or_edges(mv, rest),
        _ => Err(TextKind::Syntax),
    }
}

/// What the line of a node says.
#[tactic(auto, unfolding(crate::specs::LineForms::play_form))]
pub(crate) fn play_form(line: &[u8]) -> Result<Play, TextKind>
    ensures { result ≡ spec.play_form line.now }
{
    match behind(b"play ", line) {
        None => Err(TextKind::Syntax),
        Some(text) => played_form(text),
    }
}

// ---- the lines of edges and roots

fn to_form(text: &[u8]) -> Result<u32, TextKind>
    ensures { result ≡ spec.to_form text.now }
{
    match read_number_between(text, 1, MOST_NODES as u64) {
        Ok(number) => Ok(number.saturating_sub(1) as u32),
        Err(NumberFault::NotPlain) => Err(TextKind::Syntax),
        Err(NumberFault::OutOfRange) => Err(TextKind::OutOfPlace),
    }
}

#[tactic(auto, unfolding(krieg_planfile::specs::NodeForms::any_on_form))]
fn any_on_form(d: Dialect, line: &[u8]) -> Result<Key, TextKind>
    ensures { result ≡ plan.any_on_form d line.now }
{
    match behind(b"on ", line) {
        None => Err(TextKind::Syntax),
        Some(text) => match key_in(d, text) {
            None => Err(TextKind::Syntax),
            Some(key) => Ok(key),
        },
    }
}

fn root_in(d: Dialect, text: &[u8]) -> Option<RootKey>
    ensures { result ≡ roots.root_in 2 d text.now }
{
    match (key_in(d, text), read_words_in(d, text).ok()) {
        (Some((opens, heard)), _) => Some((opens, Some(heard))),
        (None, Some(opens)) => Some((opens, None)),
        (None, None) => None,
    }
}

#[tactic(auto, unfolding(krieg_planfile::specs::PlanReading::any_root_form))]
fn any_root_form(d: Dialect, line: &[u8]) -> Result<RootKey, TextKind>
    ensures { result ≡ roots.any_root_form 2 d line.now }
{
    match behind(b"on ", line) {
        None => Err(TextKind::Syntax),
        Some(text) => match root_in(d, text) {
            None => Err(TextKind::Syntax),
            Some(key) => Ok(key),
        },
    }
}

/// The key of an edge, and the number that it leads to.
#[tactic(auto, unfolding(crate::specs::LineForms::edge_form))]
pub(crate) fn edge_form(d: Dialect, line: &[u8]) -> Result<(Key, u32), TextKind>
    ensures { result ≡ spec.edge_form d line.now }
{
    match cut_last(b' ', line) {
        None => Err(TextKind::Syntax),
        Some((front, to)) => {
            let key = any_on_form(d, front)?;
            Ok((key, to_form(to)?))
        }
    }
}

/// The key of a root, and the number that it leads to.
#[tactic(auto, unfolding(crate::specs::LineForms::root_form))]
pub(crate) fn root_form(d: Dialect, line: &[u8]) -> Result<(RootKey, u32), TextKind>
    ensures { result ≡ spec.root_form d line.now }
{
    match cut_last(b' ', line) {
        None => Err(TextKind::Syntax),
        Some((front, to)) => {
            let key = any_root_form(d, front)?;
            Ok((key, to_form(to)?))
        }
    }
}
