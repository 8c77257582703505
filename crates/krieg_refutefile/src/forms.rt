ghost use Rattle.std.specs.Prelude.{◌≡◌, ◌≤◌, IfOk, codes};
ghost use Rattle.std.specs.Option.{option_copied};
ghost use Rattle.krieg_text.specs.Names.{behind, cut_last};
ghost use Rattle.krieg_refutefile.specs.LineForms as spec;

use krieg_board::{MOST_MOVES, Move};
use krieg_fen::read_move;
use krieg_planfile::key_in;
use krieg_refutation::{MOST_CLAIMED, MOST_CLAIMS, PackedKey, Reason, Why};
use krieg_text::{NumberFault, TextKind, behind, cut, cut_last, is_name, read_number_between};
use krieg_words::{Dialect, Words};

/// The number of moves of a claim, and the number of its positions.
pub(crate) type Sizes = (u8, usize);

fn both_numbers(
    moves: Result<u64, NumberFault>,
    positions: Result<u64, NumberFault>,
) -> Result<Sizes, TextKind>
    requires { IfOk moves (λ j. j ≤ MOST_MOVES) }
    ensures { result ≡ spec.both_numbers moves positions }
{
    match (moves, positions) {
        (Ok(moves), Ok(positions)) => Ok((moves as u8, positions as usize)),
        (Err(NumberFault::NotPlain), _) => Err(TextKind::Syntax),
        (_, Err(NumberFault::NotPlain)) => Err(TextKind::Syntax),
        _ => Err(TextKind::Count),
    }
}

fn sizes_form(text: &[u8]) -> Result<Sizes, TextKind>
    ensures { result ≡ spec.sizes_form text.now }
{
    match cut(b' ', text) {
        (_, None) => Err(TextKind::Syntax),
        (moves, Some(positions)) => both_numbers(
            read_number_between(moves, 1, u64::from(MOST_MOVES)),
            read_number_between(positions, 1, MOST_CLAIMED as u64),
        ),
    }
}

/// The sizes of a claim, from its line.
#[tactic(auto, unfolding(crate::specs::LineForms::claim_form))]
pub(crate) fn claim_form(line: &[u8]) -> Result<Sizes, TextKind>
    ensures { result ≡ spec.claim_form line.now }
{
    match behind(b"claim ", line) {
        None => Err(TextKind::Syntax),
        Some(text) => sizes_form(text),
    }
}

fn place_form(text: &[u8]) -> Result<u64, TextKind>
    ensures exact { result ≡ spec.place_form text.now }
    ensures range { IfOk result (λ i. i ≤ MOST_CLAIMS) }
{
    match read_number_between(text, 1, MOST_CLAIMS as u64) {
        Ok(place) => Ok(place),
        Err(NumberFault::NotPlain) => Err(TextKind::Syntax),
        Err(NumberFault::OutOfRange) => Err(TextKind::OutOfPlace),
    }
}

fn class_with(key: Option<(Words, Words)>, place: Result<u64, TextKind>) -> Result<Why, TextKind>
    requires { IfOk place (λ i. i ≤ MOST_CLAIMS) }
    ensures { result ≡ spec.class_with key place }
{
    match key {
        None => Err(TextKind::Syntax),
        Some((own, reply)) => Ok(Why::Class(PackedKey::new(&own, &reply), place? as u16)),
    }
}

fn class_form(d: Dialect, text: &[u8]) -> Result<Why, TextKind>
    ensures { result ≡ spec.class_form d (cut_last 32 text.now) }
{
    match cut_last(b' ', text) {
        None => Err(TextKind::Syntax),
        Some((words, place)) => class_with(key_in(d, words), place_form(place)),
    }
}

fn refused_form(text: &[u8]) -> Result<Why, TextKind>
    ensures { result ≡ spec.refused_form text.now }
{
    Ok(Why::Refused(place_form(text)? as u16))
}

fn citing_form(d: Dialect, text: &[u8]) -> Result<Why, TextKind>
    ensures { result ≡ spec.citing_form d (behind (codes "class ") text.now)
        (behind (codes "refused ") text.now) }
{
    if let Some(class) = behind(b"class ", text) {
        return class_form(d, class);
    }
    match behind(b"refused ", text) {
        None => Err(TextKind::Syntax),
        Some(refused) => refused_form(refused),
    }
}

fn why_form(d: Dialect, text: &[u8]) -> Result<Why, TextKind>
    ensures { result ≡ spec.why_form d text.now }
{
    if is_name(b"lives", text) {
        Ok(Why::Lives)
    } else if is_name(b"stale", text) {
        Ok(Why::Stale)
    } else {
        citing_form(d, text)
    }
}

/// The reason that the line spells in the dialect, which may cite any claim that a file has room for.
#[tactic(auto, unfolding(crate::specs::LineForms::reason_form))]
pub(crate) fn reason_form(d: Dialect, line: &[u8]) -> Result<Reason, TextKind>
    ensures { result ≡ spec.reason_form d line.now }
{
    let (first, rest) = cut(b' ', line);
    match (read_move(first), rest) {
        (Ok(mv), Some(text)) => Ok(Reason {
            mv,
            why: why_form(d, text)?,
        }),
        _ => Err(TextKind::Syntax),
    }
}
