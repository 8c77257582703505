ghost use Rattle.std.specs.Prelude.{◌≡◌, ◌≤◌, codes, ℕ, IfOk, Some, None, Ok};
ghost use Rattle.std.specs.Str.{bytes_eq};
ghost use Rattle.std.specs.Option.{option_copied};
ghost use Rattle.krieg_text.specs.Outcomes.{Reads};
ghost use Rattle.krieg_words.specs.Words.{Said, IsSaid};
ghost use Rattle.krieg_words.specs.ToldWords.{Fits};
ghost use Rattle.krieg_wordtext.specs.WordsText.{words_text};
ghost use Rattle.krieg_wordtext.specs.WordsReading as spec;

use crate::parts::Rest;
use crate::words_text::{are_tries, has_ended, is_capture, is_check};
use krieg_board::Square;
use krieg_fen::read_square;
use krieg_text::{behind, is_name, read_number_between};
use krieg_words::{
    ChecksTold, Dialect, End, Kinds, MOST_TRIES, MenTold, NO_KINDS, SILENT, SOME_KIND, Took,
    TriesTold, Words, dialect_rules,
};
use thiserror::Error;

/// The text is no words of the dialect.
#[derive(Clone, Copy, Debug, Error)]
#[error("no words of the dialect")]
pub struct WordsFault;

fn square_in(text: Option<&[u8]>) -> Option<Square>
    ensures { result ≡ spec.square_in (option_copied text.entry) }
{
    match text {
        None => None,
        Some(text) => read_square(text),
    }
}

fn pawn_or_piece(pawn: &Option<Square>, piece: &Option<Square>) -> Took
    ensures { result ≡ spec.pawn_or_piece pawn.now piece.now }
{
    if let Some(s) = pawn {
        return Took::Pawn(*s);
    }
    match piece {
        None => Took::Nothing,
        Some(s) => Took::Piece(*s),
    }
}

fn took_in(men: MenTold, part: &[u8]) -> Took
    ensures { result ≡ spec.took_in men part.now }
{
    match men {
        MenTold::Apart => pawn_or_piece(
            &square_in(behind(b"pawn ", part)),
            &square_in(behind(b"piece ", part)),
        ),
        MenTold::Alike => pawn_or_piece(&None, &square_in(behind(b"took ", part))),
    }
}

/// The kinds of check whose names stand there in their order, joined by `+`.
fn names_in(names: Option<&[u8]>) -> Option<Kinds>
    ensures { result ≡ spec.names_in (option_copied names.entry) }
{
    let mut rest = Rest::of(b'+', names);
    let file = rest.takes(b"file");
    let rank = rest.takes(b"rank");
    let long = rest.takes(b"long");
    let short = rest.takes(b"short");
    let knight = rest.takes(b"knight");
    if rest.is_none() {
        Some(Kinds {
            knight,
            short,
            long,
            rank,
            file,
        })
    } else {
        None
    }
}

fn checks_named(names: Option<&[u8]>) -> Kinds
    ensures { result ≡ spec.checks_named (option_copied names.entry) }
{
    match names {
        None => NO_KINDS,
        Some(text) => names_in(Some(text)).unwrap_or(NO_KINDS),
    }
}

fn checks_in(checks: ChecksTold, part: &[u8]) -> Kinds
    ensures { result ≡ spec.checks_in checks part.now }
{
    match checks {
        ChecksTold::ByKind => checks_named(behind(b"check ", part)),
        ChecksTold::Bare => {
            if is_name(b"check", part) {
                SOME_KIND
            } else {
                NO_KINDS
            }
        }
    }
}

/// A number from 1 to the most tries.
fn count_in(text: Option<&[u8]>) -> u8
    ensures value { result ≡ spec.count_in (option_copied text.entry) }
    ensures bound { result ≤ MOST_TRIES }
{
    match text {
        None => 0,
        Some(text) => match read_number_between(text, 1, u64::from(MOST_TRIES)) {
            Ok(n) => n as u8,
            Err(_) => 0,
        },
    }
}

fn tries_in(tries: TriesTold, part: &[u8]) -> u8
    ensures value { result ≡ spec.tries_in tries part.now }
    ensures bound { result ≤ MOST_TRIES }
{
    match tries {
        TriesTold::Number => count_in(behind(b"tries ", part)),
        TriesTold::Any => { if is_name(b"tries some", part) { 1 } else { 0 } }
        TriesTold::Untold => 0,
    }
}

fn end_in(part: &[u8]) -> End
    ensures { result ≡ spec.end_in part.now }
{
    if is_name(b"mate", part) {
        End::Mate
    } else if is_name(b"stalemate", part) {
        End::Stalemate
    } else {
        End::Goes
    }
}

/// The parts of a text, each in its place, where it is there.
#[tactic(auto, unfolding(crate::specs::WordsReading::parts_in))]
fn parts_in(d: Dialect, text: &[u8]) -> Option<Words>
    ensures { result ≡ spec.parts_in d text.now }
{
    let dialect = dialect_rules(d);
    let mut rest = Rest::of(b',', Some(text));
    let took = took_in(dialect.men, rest.front());
    rest.pass(b" ", is_capture(&took));
    let checks = checks_in(dialect.checks, rest.front());
    rest.pass(b" ", is_check(checks));
    let tries = tries_in(dialect.tries, rest.front());
    rest.pass(b" ", are_tries(dialect.tries, tries));
    let end = end_in(rest.front());
    rest.pass(b" ", has_ended(end));
    if rest.is_none() {
        Some(Words {
            end,
            took,
            checks,
            tries,
        })
    } else {
        None
    }
}

/// The words that the text spells in the dialect.
#[tactic(auto, unfolding(crate::specs::WordsReading::words_in))]
pub(crate) fn words_in(d: Dialect, text: &[u8]) -> Option<Words>
    ensures { result ≡ spec.words_in d text.now }
{
    if is_name(b"silent", text) {
        return Some(SILENT);
    }
    parts_in(d, text)
}

/// The words that the text spells in the dialect. `WordsFault` exactly where it spells none: the parts
/// stand in their order, each at most once, and tries are a plain decimal from 1 to 16. Every
/// combination of parts is accepted, also one that no game gives.
#[tactic(auto, using(crate::proofs::WordsLaws::words))]
pub fn read_words_in(d: Dialect, text: &[u8]) -> Result<Words, WordsFault>
    ensures exact { Reads result (spec.words_in d text.now) }
    // What is read is spelled so, and what is spelled so is read.
    ensures found { IfOk result (λ w. IsSaid w × Fits d w × (text.now ≡ words_text d w)) }
    ensures only { (w : Said) → IsSaid w → Fits d w → text.now ≡ words_text d w → result ≡ Ok w }
{
    words_in(d, text).ok_or(WordsFault)
}
