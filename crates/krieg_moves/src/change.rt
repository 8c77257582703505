ghost use Rattle.std.specs.Prelude.{◌≡◌, ◌<◌, ℕ, IsTrue, Some};
ghost use Rattle.krieg_board.specs.Board.{man_at};
ghost use Rattle.krieg_board.specs.Validity.{IsValid};
ghost use Rattle.krieg_moves.specs.After as spec;
ghost use Rattle.krieg_moves.specs.Legal.{is_legal};

use crate::wing::{Wing, arrival, corner, crossing, king_square};
use krieg_board::{
    Bits, Kind, Man, Move, Position, Promo, Rights, Side, Square, crossed_rank, file_of,
    landing_rank, pawn_rank, rank_of, square_at,
};

fn kind_after(promo: Promo, kind: Kind) -> Kind
    ensures { result ≡ spec.kind_after promo kind }
{
    match promo {
        Promo::Plain => kind,
        Promo::Queen => Kind::Queen,
        Promo::Rook => Kind::Rook,
        Promo::Bishop => Kind::Bishop,
        Promo::Knight => Kind::Knight,
    }
}

#[inline]
pub(crate) fn placed(man: Man, mv: &Move) -> Man
    ensures { result ≡ spec.placed man mv.now }
{
    Man {
        side: man.side,
        kind: kind_after(mv.promo, man.kind),
    }
}

#[inline(always)]
fn moved(bits: &Bits, man: Man, mv: &Move) -> Bits
    ensures { result ≡ spec.moved bits.now man mv.now }
{
    bits.moved(mv.from.number(), mv.to.number(), placed(man, mv))
}

/// Whether the mark is that square.
pub fn is_marked(mark: &Option<Square>, s: u8) -> bool
    ensures { result ≡ spec.is_marked mark.now s }
{
    match mark {
        None => false,
        Some(mark) => mark.number() == s,
    }
}

/// Whether the move of this man captures in passing (FIDE Laws, article 3.7.4.1): a pawn leaves its
/// file and arrives on the mark.
pub fn is_en_passant(mark: &Option<Square>, man: Man, mv: &Move) -> bool
    ensures { result ≡ spec.is_en_passant mark.now man mv.now }
{
    man.kind == Kind::Pawn
        && is_marked(mark, mv.to.number())
        && file_of(mv.from.number()) != file_of(mv.to.number())
}

fn passed_number(mv: &Move) -> u8
    ensures value { result ≡ spec.passed_square mv.now }
    ensures below { result < 64 }
{
    square_at(file_of(mv.to.number()), rank_of(mv.from.number()))
}

/// Where the pawn stands that a move captures in passing: on the file where the move arrives, and on
/// the rank from which it departs.
pub fn passed_square(mv: &Move) -> Square
    ensures { result ≡ spec.passed_square mv.now }
{
    Square::new(passed_number(mv)).unwrap()
}

/// Whether the move of this man castles on the wing (FIDE Laws, article 3.8.2): the king goes from its
/// own square to the square where it arrives in castling.
pub fn is_castling(wing: Wing, man: Man, mv: &Move) -> bool
    ensures { result ≡ spec.is_castling wing man mv.now }
{
    man.kind == Kind::King
        && mv.from.number() == king_square(man.side)
        && mv.to.number() == arrival(wing, man.side)
}

fn with_rook(wing: Wing, side: Side, bits: &Bits) -> Bits
    ensures { result ≡ spec.with_rook wing side bits.now }
{
    let rook = Man {
        side,
        kind: Kind::Rook,
    };
    bits.with(corner(wing, side), None)
        .with(crossing(wing, side), Some(rook))
}

/// The board after the move of this man.
#[inline(always)]
pub fn board_after(bits: &Bits, mark: &Option<Square>, man: Man, mv: &Move) -> Bits
    ensures { result ≡ spec.board_after bits.now mark.now man mv.now }
{
    let next = moved(bits, man, mv);
    if is_en_passant(mark, man, mv) {
        return next.with(passed_number(mv), None);
    }
    if is_castling(Wing::Short, man, mv) {
        return with_rook(Wing::Short, man.side, &next);
    }
    if is_castling(Wing::Long, man, mv) {
        return with_rook(Wing::Long, man.side, &next);
    }
    next
}

fn keeps_right(held: bool, wing: Wing, side: Side, man: Man, mv: &Move) -> bool
    ensures { result ≡ spec.keeps_right held wing side man mv.now }
{
    held && !(man.kind == Kind::King && man.side == side)
        && mv.from.number() != corner(wing, side)
        && mv.to.number() != corner(wing, side)
}

/// The rights that stay. Where none is held, as is soon so in a game, no square is looked at.
fn rights_after(rights: Rights, man: Man, mv: &Move) -> Rights
    ensures { result ≡ spec.rights_after rights man mv.now }
{
    if !(rights.white_short || rights.white_long || rights.black_short || rights.black_long) {
        return rights;
    }
    Rights {
        white_short: keeps_right(rights.white_short, Wing::Short, Side::White, man, mv),
        white_long: keeps_right(rights.white_long, Wing::Long, Side::White, man, mv),
        black_short: keeps_right(rights.black_short, Wing::Short, Side::Black, man, mv),
        black_long: keeps_right(rights.black_long, Wing::Long, Side::Black, man, mv),
    }
}

fn is_advance(man: Man, mv: &Move) -> bool
    ensures { result ≡ spec.is_advance man mv.now }
{
    man.kind == Kind::Pawn
        && rank_of(mv.from.number()) == pawn_rank(man.side)
        && rank_of(mv.to.number()) == landing_rank(man.side)
}

/// The square on the file of `s` that a side's pawn crosses in a two-square advance.
pub fn crossed(side: Side, s: u8) -> u8
    ensures value { result ≡ spec.crossed side s }
    ensures below { result < 64 }
{
    square_at(file_of(s), crossed_rank(side))
}

fn mark_after(man: Man, mv: &Move) -> Option<Square>
    ensures { result ≡ spec.mark_after man mv.now }
{
    if is_advance(man, mv) {
        Square::new(crossed(man.side, mv.from.number()))
    } else {
        None
    }
}

/// The position after the legal move of this man, which leaves the board `next`.
#[tactic(auto, unfolding(crate::specs::After::after))]
pub(crate) fn position_after(p: &Position, man: Man, mv: &Move, next: &Bits) -> Position
    requires man { man_at p.now.board mv.now.from ≡ Some man }
    requires legal { IsTrue (is_legal p.now mv.now) }
    requires next { next.now ≡ spec.board_after p.now.board p.now.mark man mv.now }
    ensures value { result ≡ spec.after p.now mv.now }
    ensures valid { IsValid result }
{
    Position::from_valid(
        next,
        p.side().other(),
        rights_after(p.rights(), man, mv),
        mark_after(man, mv),
    )
}

/// The position after a legal move (FIDE Laws, articles 3.7 and 3.8): the man or the man to which it
/// is promoted has moved, what it captured is gone, in castling the rook stands beside the king, the
/// rights and the mark are those that the move leaves, and the other side is to move.
#[tactic(auto, unfolding(crate::specs::After::after))]
pub fn after(p: &Position, mv: Move) -> Position
    requires { IsTrue (is_legal p.now mv) }
    ensures value { result ≡ spec.after p.now mv }
    ensures valid { IsValid result }
{
    let mv = &mv;
    match p.man_at(mv.from) {
        None => *p,
        Some(man) => {
            let next = board_after(p.bits(), &p.mark(), man, mv);
            position_after(p, man, mv, &next)
        }
    }
}
