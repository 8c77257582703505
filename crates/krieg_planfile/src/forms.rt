ghost use Rattle.std.specs.Prelude.{◌≡◌, IfErr, ◌≢◌, codes};
ghost use Rattle.std.specs.Option.{option_copied};
ghost use Rattle.krieg_text.specs.Names.{behind};
ghost use Rattle.krieg_text.specs.Reading.{taken, GivesOn};
ghost use Rattle.krieg_game.specs.Keys.{key_lt};
ghost use Rattle.krieg_planfile.specs.NodeForms as spec;

use krieg_board::Move;
use krieg_fen::read_move;
use krieg_plan::MOST_NODES;
use krieg_text::{
    Cursor, LineSource, NumberFault, TextFault, TextKind, behind, cut, read_number_between,
};
use krieg_words::{Dialect, Words, compare};
use krieg_wordtext::read_words_in;

/// What the line of a node says: its try, whether there is a node for the illegal case, and how many edges
/// there are.
#[derive(Clone, Copy)]
pub(crate) struct Play {
    pub mv: Move,
    pub no: bool,
    pub edges: u64,
}

fn edges_form(text: &[u8]) -> Result<u64, TextKind>
    ensures { result ≡ spec.edges_form text.now }
{
    match read_number_between(text, 0, MOST_NODES as u64) {
        Ok(number) => Ok(number),
        Err(NumberFault::NotPlain) => Err(TextKind::Syntax),
        Err(NumberFault::OutOfRange) => Err(TextKind::Count),
    }
}

fn play_with(mv: Move, no: bool, edges: Result<u64, TextKind>) -> Result<Play, TextKind>
    ensures { result ≡ spec.play_with mv no edges }
{
    match edges {
        Ok(edges) => Ok(Play { mv, no, edges }),
        Err(kind) => Err(kind),
    }
}

fn no_or_edges(mv: Move, text: &[u8]) -> Result<Play, TextKind>
    ensures { result ≡ spec.no_or_edges mv (behind (codes "no ") text.now) text.now }
{
    match behind(b"no ", text) {
        Some(edges) => play_with(mv, true, edges_form(edges)),
        None => play_with(mv, false, edges_form(text)),
    }
}

fn played_form(text: &[u8]) -> Result<Play, TextKind>
    ensures { result ≡ spec.played_form text.now }
{
    let (first, rest) = cut(b' ', text);
    match (read_move(first), rest) {
        (Ok(mv), Some(rest)) => no_or_edges(mv, rest),
        _ => Err(TextKind::Syntax),
    }
}

#[tactic(auto, unfolding(crate::specs::NodeForms::any_play_form))]
fn any_play_form(line: &[u8]) -> Result<Play, TextKind>
    ensures { result ≡ spec.any_play_form line.now }
{
    match behind(b"play ", line) {
        None => Err(TextKind::Syntax),
        Some(text) => played_form(text),
    }
}

/// What the line of a node says, where so many nodes may still come.
pub(crate) fn play_form(left: usize, line: &[u8]) -> Result<Play, TextKind>
    ensures { result ≡ spec.play_form left line.now }
{
    let play = any_play_form(line)?;
    if left == 0 {
        Err(TextKind::Large)
    } else {
        Ok(play)
    }
}

/// The next line, as that of a node, where so many nodes may still come.
pub(crate) fn read_play(from: &mut Cursor<'_>, left: usize) -> Result<Play, TextFault>
    ensures { GivesOn (λ x. x) result from.new (taken (spec.play_form left) from.old) }
{
    from.next(|line| play_form(left, line))
}

/// The text without the space at its end.
fn unspaced(text: &[u8]) -> Option<&[u8]>
    ensures { option_copied result ≡ spec.unspaced text.now }
{
    match text {
        [front @ .., b' '] => Some(front),
        _ => None,
    }
}

fn words_at(d: Dialect, text: Option<&[u8]>) -> Option<Words>
    ensures { result ≡ spec.words_at d (option_copied text.entry) }
{
    match text {
        None => None,
        Some(text) => read_words_in(d, text).ok(),
    }
}

fn key_across(d: Dialect, front: &[u8], back: Option<&[u8]>) -> Option<(Words, Words)>
    ensures { result ≡ spec.key_across d front.now (option_copied back.entry) }
{
    match back {
        None => None,
        Some(back) => match (
            words_at(d, unspaced(front)),
            words_at(d, behind(b" ", back)),
        ) {
            (Some(own), Some(reply)) => Some((own, reply)),
            _ => None,
        },
    }
}

/// The words on the two sides of ` / `: those of an own move, and those of the reply, in the dialect. Another text gives
/// none. It takes no memory.
pub fn key_in(d: Dialect, text: &[u8]) -> Option<(Words, Words)>
    ensures { result ≡ spec.key_in d text.now }
{
    let (front, back) = cut(b'/', text);
    key_across(d, front, back)
}

#[tactic(auto, unfolding(crate::specs::NodeForms::any_on_form))]
fn any_on_form(d: Dialect, line: &[u8]) -> Result<(Words, Words), TextKind>
    ensures { result ≡ spec.any_on_form d line.now }
{
    match behind(b"on ", line) {
        None => Err(TextKind::Syntax),
        Some(text) => match key_in(d, text) {
            None => Err(TextKind::Syntax),
            Some(key) => Ok(key),
        },
    }
}

fn follows(last: &Option<(Words, Words)>, key: &(Words, Words)) -> bool
    ensures { result ≡ spec.follows key_lt last.now key.now }
{
    match last {
        None => true,
        Some(last) => compare(&last.0, &key.0)
            .then(compare(&last.1, &key.1))
            .is_lt(),
    }
}

fn on_form(
    d: Dialect,
    last: &Option<(Words, Words)>,
    line: &[u8],
) -> Result<(Words, Words), TextKind>
    ensures { result ≡ spec.on_form d last.now line.now }
{
    let key = any_on_form(d, line)?;
    if follows(last, &key) {
        Ok(key)
    } else {
        Err(TextKind::OutOfPlace)
    }
}

/// The next line, as that of an edge, after the edge with the last key.
pub(crate) fn read_on(
    from: &mut Cursor<'_>,
    d: Dialect,
    last: &Option<(Words, Words)>,
) -> Result<(Words, Words), TextFault>
    ensures { GivesOn (λ x. x) result from.new (taken (spec.on_form d last.now) from.old) }
{
    from.next(|line| on_form(d, last, line))
}
