ghost use Rattle.std.specs.Prelude.{◌≡◌};
ghost use Rattle.krieg_record.specs.NotationReading as spec;

use crate::notation::{CheckSuffix, Movement, Notation, Officer, OfficerMove, Origin, PawnMove};
use krieg_board::{Promo, Square};
use krieg_fen::square_of;
use krieg_moves::Wing;

fn file_named(byte: u8) -> Option<u8>
    ensures { result ≡ spec.file_named byte }
{
    if (b'a'..=b'h').contains(&byte) {
        Some(byte - b'a')
    } else {
        None
    }
}

fn rank_named(byte: u8) -> Option<u8>
    ensures { result ≡ spec.rank_named byte }
{
    if (b'1'..=b'8').contains(&byte) {
        Some(byte - b'1')
    } else {
        None
    }
}

/// Nothing is told of the square that an officer leaves.
const NOTHING: Origin = Origin {
    file: None,
    rank: None,
};

/// What one byte tells of it: a file, or else a rank.
fn one_told(byte: u8) -> Option<Origin>
    ensures { result ≡ spec.one_told byte }
{
    match (file_named(byte), rank_named(byte)) {
        (Some(file), _) => Some(Origin {
            file: Some(file),
            rank: None,
        }),
        (None, Some(rank)) => Some(Origin {
            file: None,
            rank: Some(rank),
        }),
        (None, None) => None,
    }
}

/// What two bytes tell of it: a file and a rank.
fn both_told(file: u8, rank: u8) -> Option<Origin>
    ensures { result ≡ spec.both_told file rank }
{
    match (file_named(file), rank_named(rank)) {
        (Some(file), Some(rank)) => Some(Origin {
            file: Some(file),
            rank: Some(rank),
        }),
        _ => None,
    }
}

fn officer_with(
    officer: Officer,
    captures: bool,
    origin: Option<Origin>,
    to: Option<Square>,
) -> Option<Movement>
    ensures { result ≡ spec.officer_with officer captures origin to }
{
    match (origin, to) {
        (Some(origin), Some(to)) => Some(Movement::ByOfficer(OfficerMove {
            officer,
            origin,
            captures,
            to,
        })),
        _ => None,
    }
}

/// The move of the officer, behind whose letter these bytes stand.
fn officer_movement(officer: Officer, text: &[u8]) -> Option<Movement>
    ensures { result ≡ spec.officer_movement officer text.now }
{
    match text {
        [a, b] => officer_with(officer, false, Some(NOTHING), square_of(*a, *b)),
        [a, b, c] => {
            if *a == b'x' {
                officer_with(officer, true, Some(NOTHING), square_of(*b, *c))
            } else {
                officer_with(officer, false, one_told(*a), square_of(*b, *c))
            }
        }
        [a, b, c, d] => {
            if *b == b'x' {
                officer_with(officer, true, one_told(*a), square_of(*c, *d))
            } else {
                officer_with(officer, false, both_told(*a, *b), square_of(*c, *d))
            }
        }
        [a, b, c, d, e] => {
            if *c == b'x' {
                officer_with(officer, true, both_told(*a, *b), square_of(*d, *e))
            } else {
                None
            }
        }
        _ => None,
    }
}

/// What a pawn becomes, by the letter.
fn promo_named(letter: u8) -> Option<Promo>
    ensures { result ≡ spec.promo_named letter }
{
    match letter {
        b'Q' => Some(Promo::Queen),
        b'R' => Some(Promo::Rook),
        b'B' => Some(Promo::Bishop),
        b'N' => Some(Promo::Knight),
        _ => None,
    }
}

fn pawn_with(file: Option<u8>, to: Option<Square>, promo: Option<Promo>) -> Option<Movement>
    ensures { result ≡ spec.pawn_with file to promo }
{
    match (to, promo) {
        (Some(to), Some(promo)) => Some(Movement::ByPawn(PawnMove { file, to, promo })),
        _ => None,
    }
}

fn pawn_taking(file: Option<u8>, to: Option<Square>, promo: Option<Promo>) -> Option<Movement>
    ensures { result ≡ spec.pawn_taking file to promo }
{
    match file {
        Some(file) => pawn_with(Some(file), to, promo),
        None => None,
    }
}

fn pawn_movement(text: &[u8]) -> Option<Movement>
    ensures { result ≡ spec.pawn_movement text.now }
{
    match text {
        [a, b] => pawn_with(None, square_of(*a, *b), Some(Promo::Plain)),
        [a, b, c, d] => {
            if *b == b'x' {
                pawn_taking(file_named(*a), square_of(*c, *d), Some(Promo::Plain))
            } else if *c == b'=' {
                pawn_with(None, square_of(*a, *b), promo_named(*d))
            } else {
                None
            }
        }
        [a, b, c, d, e, f] => {
            if *b == b'x' && *e == b'=' {
                pawn_taking(file_named(*a), square_of(*c, *d), promo_named(*f))
            } else {
                None
            }
        }
        _ => None,
    }
}

/// What stands behind the first letter of castling.
fn castling_movement(rest: &[u8]) -> Option<Movement>
    ensures { result ≡ spec.castling_movement rest.now }
{
    match rest {
        b"-O" => Some(Movement::Castles(Wing::Short)),
        b"-O-O" => Some(Movement::Castles(Wing::Long)),
        _ => None,
    }
}

/// The officer of that letter.
fn officer_named(letter: u8) -> Option<Officer>
    ensures { result ≡ spec.officer_named letter }
{
    match letter {
        b'K' => Some(Officer::King),
        b'Q' => Some(Officer::Queen),
        b'R' => Some(Officer::Rook),
        b'B' => Some(Officer::Bishop),
        b'N' => Some(Officer::Knight),
        _ => None,
    }
}

fn movement_of(text: &[u8]) -> Option<Movement>
    ensures { result ≡ spec.movement_of text.now }
{
    match text {
        [] => None,
        [first, rest @ ..] => match officer_named(*first) {
            Some(officer) => officer_movement(officer, rest),
            None if *first == b'O' => castling_movement(rest),
            None => pawn_movement(text),
        },
    }
}

fn with_ending(movement: Option<Movement>, ending: CheckSuffix) -> Option<Notation>
    ensures { result ≡ spec.with_ending movement ending }
{
    match movement {
        Some(movement) => Some(Notation { movement, ending }),
        None => None,
    }
}

/// What the text says, where it is of the form.
pub(crate) fn notation_of(text: &[u8]) -> Option<Notation>
    ensures { result ≡ spec.notation_of text.now }
{
    match text {
        [front @ .., b'+'] => with_ending(movement_of(front), CheckSuffix::Check),
        [front @ .., b'#'] => with_ending(movement_of(front), CheckSuffix::Mate),
        _ => with_ending(movement_of(text), CheckSuffix::Nothing),
    }
}
