ghost use Rattle.std.specs.Prelude.{◌≡◌, ◌<◌, ℕ};
ghost use Rattle.krieg_board.specs.Board.{Board, man_at};
ghost use Rattle.krieg_board.specs.Boards.{Show, is_kind};
ghost use Rattle.krieg_board.specs.Sets.{has};
ghost use Rattle.krieg_record.specs.MoveTraits as spec;

use crate::notation::Officer;
use krieg_board::{Kind, Man, Move, Position, Sets, Square, is_man};
use krieg_moves::{Wing, is_castling, is_en_passant};

pub(crate) fn kind_of(officer: Officer) -> Kind
    ensures { result ≡ spec.kind_of officer }
{
    match officer {
        Officer::King => Kind::King,
        Officer::Queen => Kind::Queen,
        Officer::Rook => Kind::Rook,
        Officer::Bishop => Kind::Bishop,
        Officer::Knight => Kind::Knight,
    }
}

fn officer_of(kind: Kind) -> Option<Officer>
    ensures { result ≡ spec.officer_of kind }
{
    match kind {
        Kind::Pawn => None,
        Kind::Knight => Some(Officer::Knight),
        Kind::Bishop => Some(Officer::Bishop),
        Kind::Rook => Some(Officer::Rook),
        Kind::Queen => Some(Officer::Queen),
        Kind::King => Some(Officer::King),
    }
}

/// The officer on the square, where one stands there.
pub(crate) fn officer_at(p: &Position, s: Square) -> Option<Officer>
    ensures { result ≡ spec.officer_at p.now s }
{
    match p.man_at(s) {
        None => None,
        Some(man) => officer_of(man.kind),
    }
}

/// Whether a man of that kind and of the side to move stands on the square.
pub(crate) fn is_own(p: &Position, kind: Kind, s: Square) -> bool
    ensures { result ≡ spec.is_own p.now kind s }
{
    is_man(p.side(), kind, p.man_at(s))
}

/// The squares of the men of a kind, of either side.
fn men_of_kind(sets: &Sets, kind: Kind) -> u64
    ensures { (b : Board) (k : ℕ) → Show sets.now b → k < 64 →
        has result k ≡ is_kind kind (man_at b k) }
{
    match kind {
        Kind::Pawn => sets.pawns,
        Kind::Knight => sets.knights,
        Kind::Bishop => sets.bishops,
        Kind::Rook => sets.rooks,
        Kind::Queen => sets.queens,
        Kind::King => sets.kings,
    }
}

/// The squares of the men of that kind and of the side to move.
pub(crate) fn own_men(p: &Position, kind: Kind) -> u64
    ensures { (k : ℕ) → k < 64 → has result k ≡ spec.is_own p.now kind k }
{
    let bits = p.bits();
    men_of_kind(bits.sets(), kind) & bits.men_of(p.side())
}

fn castling_by(man: Option<Man>, mv: &Move) -> Option<Wing>
    ensures { result ≡ spec.castling_by man mv.now }
{
    match man {
        None => None,
        Some(man) => {
            if is_castling(Wing::Short, man, mv) {
                Some(Wing::Short)
            } else if is_castling(Wing::Long, man, mv) {
                Some(Wing::Long)
            } else {
                None
            }
        }
    }
}

/// The wing on which the move castles, where it does.
pub(crate) fn castling(p: &Position, mv: &Move) -> Option<Wing>
    ensures { result ≡ spec.castling p.now mv.now }
{
    castling_by(p.man_at(mv.from), mv)
}

/// Whether the move captures: a man stands where it arrives, or a pawn captures in passing.
pub(crate) fn captures(p: &Position, mv: &Move) -> bool
    ensures { result ≡ spec.captures p.now mv.now }
{
    match p.man_at(mv.from) {
        None => false,
        Some(man) => p.man_at(mv.to).is_some() || is_en_passant(&p.mark(), man, mv),
    }
}
