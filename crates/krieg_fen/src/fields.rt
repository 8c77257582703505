ghost use Rattle.std.specs.Prelude.{◌≡◌};
ghost use Rattle.krieg_fen.specs.Fields as spec;

use crate::moves::square_of;
use krieg_board::{Rights, Side, Square};
use krieg_text::has_digits_only;

pub(crate) fn side_of(field: &[u8]) -> Option<Side>
    ensures { result ≡ spec.side_of field.now }
{
    match field {
        [b] => {
            if *b == b'w' {
                Some(Side::White)
            } else if *b == b'b' {
                Some(Side::Black)
            } else {
                None
            }
        }
        _ => None,
    }
}

/// Whether the letter is at the front, and what stands after it.
fn letter_at(letter: u8, text: &[u8]) -> (bool, &[u8])
    ensures { (result.0, result.1.now) ≡ spec.letter_at letter text.now }
{
    match text {
        [first, rest @ ..] if *first == letter => (true, rest),
        _ => (false, text),
    }
}

fn letters_of(text: &[u8]) -> (Rights, &[u8])
    ensures { (result.0, result.1.now) ≡ spec.letters_of text.now }
{
    let (white_short, rest) = letter_at(b'K', text);
    let (white_long, rest) = letter_at(b'Q', rest);
    let (black_short, rest) = letter_at(b'k', rest);
    let (black_long, rest) = letter_at(b'q', rest);
    let rights = Rights {
        white_short,
        white_long,
        black_short,
        black_long,
    };
    (rights, rest)
}

pub(crate) fn rights_of(field: &[u8]) -> Option<Rights>
    ensures { result ≡ spec.rights_of field.now }
{
    match field {
        [] => None,
        [first, others @ ..] => {
            let (rights, rest) = letters_of(field);
            if others.is_empty() && *first == b'-' {
                Rights::new(0)
            } else if rest.is_empty() {
                Some(rights)
            } else {
                None
            }
        }
    }
}

fn mark_at(square: Option<Square>) -> Option<Option<Square>>
    ensures { result ≡ spec.mark_at square }
{
    let square = square?;
    Some(Some(square))
}

pub(crate) fn mark_of(field: &[u8]) -> Option<Option<Square>>
    ensures { result ≡ spec.mark_of field.now }
{
    match field {
        [b] => { if *b == b'-' { Some(None) } else { None } }
        [file, rank] => {
            if *rank == b'3' || *rank == b'6' {
                mark_at(square_of(*file, *rank))
            } else {
                None
            }
        }
        _ => None,
    }
}

pub(crate) fn is_clock(field: &[u8]) -> bool
    ensures { result ≡ spec.is_clock field.now }
{
    has_digits_only(field) && (1 <= field.len() && field.len() <= 10)
}
