ghost use Rattle.std.specs.Prelude.{◌≡◌, ◌<◌, ◌||◌, Some};
ghost use Rattle.krieg_board.specs.Board.{man_at};
ghost use Rattle.krieg_board.specs.Attacks as attack;
ghost use Rattle.krieg_moves.specs.Legal as spec;

use crate::change::is_marked;
use crate::target::pawn_moves;
use crate::wing::{Wing, arrival, corner, crossing, king_square};
use krieg_board::{
    Bits, Kind, Man, Move, Position, Promo, Rights, Side, has, is_of, know_squares, last_rank,
    rank_of,
};
use krieg_rays::{attacked_from, between_at, is_attacked};

/// Whether each square strictly between the two is empty.
fn is_clear(b: &Bits, from: u8, to: u8) -> bool
    requires from { from < 64 }
    requires to { to < 64 }
    ensures { result ≡ attack.is_clear b.now from to }
{
    between_at(from, to) & b.occupied() == 0
}

fn holds(rights: Rights, side: Side, wing: Wing) -> bool
    ensures { result ≡ spec.holds rights side wing }
{
    match (side, wing) {
        (Side::White, Wing::Short) => rights.white_short,
        (Side::White, Wing::Long) => rights.white_long,
        (Side::Black, Wing::Short) => rights.black_short,
        (Side::Black, Wing::Long) => rights.black_long,
    }
}

fn is_safe(p: &Position, s: u8) -> bool
    requires { s < 64 }
    ensures { result ≡ spec.is_safe p.now s }
{
    !is_attacked(p.bits(), s, p.side().other())
}

pub(crate) fn can_castle(wing: Wing, p: &Position, mv: &Move) -> bool
    ensures { result ≡ spec.can_castle wing p.now mv.now }
{
    let side = p.side();
    mv.from.number() == king_square(side)
        && mv.to.number() == arrival(wing, side)
        && holds(p.rights(), side, wing)
        && is_clear(p.bits(), king_square(side), corner(wing, side))
        && is_safe(p, king_square(side))
        && is_safe(p, crossing(wing, side))
        && is_safe(p, arrival(wing, side))
}

fn is_plain(promo: Promo) -> bool
    ensures { result ≡ spec.is_plain promo }
{
    matches!(promo, Promo::Plain)
}

/// Whether the man, who stands where the move departs, attacks the square where it arrives.
fn attacks(b: &Bits, man: Man, mv: &Move) -> bool
    requires { man_at b.now mv.now.from ≡ Some man }
    ensures { result ≡ attack.attacks b.now mv.now.from mv.now.to }
{
    know_squares(mv);
    has(attacked_from(b, man, mv.from.number()), mv.to.number())
}

fn is_king_move(p: &Position, man: Man, mv: &Move) -> bool
    requires { man_at p.now.board mv.now.from ≡ Some man }
    ensures { result ≡ spec.is_king_move p.now mv.now }
{
    is_plain(mv.promo)
        && (attacks(p.bits(), man, mv)
            || (can_castle(Wing::Short, p, mv) || can_castle(Wing::Long, p, mv)))
}

fn is_officer_move(p: &Position, man: Man, mv: &Move) -> bool
    requires { man_at p.now.board mv.now.from ≡ Some man }
    ensures { result ≡ spec.is_officer_move p.now mv.now }
{
    is_plain(mv.promo) && attacks(p.bits(), man, mv)
}

fn is_pawn_capture(p: &Position, man: Man, mv: &Move) -> bool
    requires { man_at p.now.board mv.now.from ≡ Some man }
    ensures { result ≡ spec.is_pawn_capture p.now mv.now }
{
    attacks(p.bits(), man, mv)
        && (is_of(p.side().other(), p.man_at(mv.to)) || is_marked(&p.mark(), mv.to.number()))
}

fn has_promotion(side: Side, mv: &Move) -> bool
    ensures { result ≡ spec.has_promotion side mv.now }
{
    if rank_of(mv.to.number()) == last_rank(side) {
        !is_plain(mv.promo)
    } else {
        is_plain(mv.promo)
    }
}

/// Whether a pawn steps so, one square or two.
fn is_pawn_step(p: &Position, mv: &Move) -> bool
    ensures { result ≡ (spec.is_step p.now.board p.now.side mv.now
        || spec.is_double_step p.now.board p.now.side mv.now) }
{
    know_squares(mv);
    has(pawn_moves(p.bits(), p.side(), mv.from), mv.to.number())
}

fn is_pawn_move(p: &Position, man: Man, mv: &Move) -> bool
    requires { man_at p.now.board mv.now.from ≡ Some man }
    ensures { result ≡ spec.is_pawn_move p.now mv.now }
{
    has_promotion(p.side(), mv) && (is_pawn_step(p, mv) || is_pawn_capture(p, man, mv))
}

fn is_move_of_kind(p: &Position, man: Man, mv: &Move) -> bool
    requires { man_at p.now.board mv.now.from ≡ Some man }
    ensures { result ≡ spec.is_move_of_kind man.kind p.now mv.now }
{
    match man.kind {
        Kind::Pawn => is_pawn_move(p, man, mv),
        Kind::King => is_king_move(p, man, mv),
        Kind::Knight | Kind::Bishop | Kind::Rook | Kind::Queen => is_officer_move(p, man, mv),
    }
}

fn is_move_of(p: &Position, man: Man, mv: &Move) -> bool
    requires { man_at p.now.board mv.now.from ≡ Some man }
    ensures { result ≡ spec.is_move_of (Some man) p.now mv.now }
{
    man.side == p.side() && is_move_of_kind(p, man, mv)
}

/// Whether the move of this man is legal but for the safety of his king behind it.
pub(crate) fn is_candidate(p: &Position, man: Man, mv: &Move) -> bool
    requires { man_at p.now.board mv.now.from ≡ Some man }
    ensures { result ≡ spec.is_candidate p.now mv.now }
{
    know_squares(mv);
    !is_of(p.side(), p.man_at(mv.to)) && is_move_of(p, man, mv)
}
