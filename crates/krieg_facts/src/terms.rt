// The men of which boards are made, as lines tell them.

use crate::given::Given;
use krieg_board::{Bits, Kind, Man, Side, Square};
use krieg_fen::read_square;

/// The letters of men: capitals are White's.
static LETTERS: [(&str, Side, Kind); 12] = [
    ("P", Side::White, Kind::Pawn),
    ("N", Side::White, Kind::Knight),
    ("B", Side::White, Kind::Bishop),
    ("R", Side::White, Kind::Rook),
    ("Q", Side::White, Kind::Queen),
    ("K", Side::White, Kind::King),
    ("p", Side::Black, Kind::Pawn),
    ("n", Side::Black, Kind::Knight),
    ("b", Side::Black, Kind::Bishop),
    ("r", Side::Black, Kind::Rook),
    ("q", Side::Black, Kind::Queen),
    ("k", Side::Black, Kind::King),
];

fn man_of(text: &str) -> Option<Man> {
    for (letter, side, kind) in &LETTERS {
        if *letter == text {
            return Some(Man {
                side: *side,
                kind: *kind,
            });
        }
    }
    None
}

/// The letter of a man.
pub fn letter_of(man: Man) -> &'static str {
    for (letter, side, kind) in &LETTERS {
        if *side == man.side && *kind == man.kind {
            return letter;
        }
    }
    ""
}

/// A man on a square, as `Qd1`.
pub fn placed_of(text: &str) -> Option<(Man, Square)> {
    let (letter, square) = text.split_at_checked(1)?;
    match (man_of(letter), read_square(square.as_bytes())) {
        (Some(man), Some(square)) => Some((man, square)),
        _ => None,
    }
}

/// The board with the man on it too.
fn with_man(bits: &Bits, given: &mut Given) -> Bits {
    match placed_of(given.word()) {
        Some((man, square)) => bits.with(square.number(), Some(man)),
        None => {
            given.stop.unread();
            *bits
        }
    }
}

/// The board with these men on it too.
pub fn with_men(bits: &Bits, given: &mut Given) -> Bits {
    let mut bits = *bits;
    for _ in 0..given.words() {
        bits = with_man(&bits, given);
    }
    bits
}
