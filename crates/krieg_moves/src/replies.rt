ghost use Rattle.std.specs.Prelude.{◌≡◌, ◌≤◌, true, false, Some, IfSome, IfNone, IsTrue, length};
ghost use Rattle.krieg_board.specs.Board.{man_at};
ghost use Rattle.krieg_board.specs.Men.{other, is_same_kind};
ghost use Rattle.krieg_board.specs.Validity.{count_kind};
ghost use Rattle.krieg_board.specs.declared.men.Kind.TheVariants.{Pawn, King};
ghost use Rattle.krieg_moves.specs.After as change;
ghost use Rattle.krieg_moves.specs.Legal as spec;
ghost use Rattle.krieg_moves.specs.Moves as list;
ghost use Rattle.krieg_moves.specs.Targets.{HasOnlyPawns, IsAlone};

use crate::candidate::is_candidate;
use crate::change::{after, board_after, is_castling, is_en_passant, placed, position_after};
use crate::count::{MOST_LEGAL_MOVES, count_by_guard, count_steps, last_rank_squares, lone_king};
use crate::ends::in_check;
use crate::guard::Guard;
use crate::legality::is_king_safe;
use crate::ways::count_ways;
use crate::wing::Wing;
use krieg_board::{Bits, Kind, Man, Move, Position, Side, Square, has, king_of, know_valid, only};
use krieg_rays::{attacked_behind, king_attacks, may_pin_behind};

/// The number of the replies to the legal move of this man, which leaves the board `next`. Of a king who is alone the steps
/// are counted on the board, and no position is made.
#[inline(always)]
fn count_on(p: &Position, man: Man, mv: &Move, next: &Bits) -> usize
    requires man { man_at p.now.board mv.now.from ≡ Some man }
    requires legal { IsTrue (spec.is_legal p.now mv.now) }
    requires next { next.now ≡ change.board_after p.now.board p.now.mark man mv.now }
    ensures { result ≡ length (list.moves (change.after p.now mv.now)) }
{
    let by = p.side().other();
    match lone_king(next, by) {
        Some(king) => count_steps(next, by, king),
        None => {
            let q = position_after(p, man, mv, next);
            count_by_guard(&q, &Guard::of(&q))
        }
    }
}

/// Whether the move of this man moves nobody else: it neither captures in passing nor castles.
fn moves_alone(p: &Position, man: Man, mv: &Move) -> bool
    ensures { IsTrue result → change.board_after p.now.board p.now.mark man mv.now
        ≡ change.moved p.now.board man mv.now }
{
    !(is_en_passant(&p.mark(), man, mv)
        || is_castling(Wing::Short, man, mv)
        || is_castling(Wing::Long, man, mv))
}

/// The number of the steps of the enemy king, who is alone, behind the legal move of this man, who moves alone. No board is
/// made.
#[inline(always)]
fn count_steps_behind(p: &Position, man: Man, mv: &Move, king: Square) -> usize
    requires man { man_at p.now.board mv.now.from ≡ Some man }
    requires legal { IsTrue (spec.is_legal p.now mv.now) }
    requires alone { IsAlone p.now.board (other p.now.side) king }
    requires single { change.board_after p.now.board p.now.mark man mv.now
        ≡ change.moved p.now.board man mv.now }
    ensures { result ≡ length (list.moves (change.after p.now mv.now)) }
{
    know_valid(p);
    let (from, to) = (mv.from.number(), mv.to.number());
    let attacked = attacked_behind(p.bits(), king.number(), from, to, placed(man, mv));
    (king_attacks(king.number()) & !attacked).count_ones() as usize
}

/// The king of that side, where its other men are pawns.
#[inline(always)]
fn king_with_pawns(b: &Bits, side: Side) -> Option<Square>
    requires { count_kind b.now side King ≡ 1 }
    ensures { IfSome result (HasOnlyPawns b.now side) }
{
    let king = king_of(b, side);
    let men = b.men_of(side);
    if men == only(king) | (b.sets().pawns & men) {
        return Square::new(king);
    }
    None
}

/// The number of the replies of an enemy who has a king and pawns, to the legal move of an officer or of the king, who moves
/// alone. Nothing, where the move gives check, or where it may be that it pins a pawn. No board is made.
#[inline(always)]
fn count_if_quiet(p: &Position, man: Man, mv: &Move, king: Square) -> Option<usize>
    requires man { man_at p.now.board mv.now.from ≡ Some man }
    requires legal { IsTrue (spec.is_legal p.now mv.now) }
    requires pawns { HasOnlyPawns p.now.board (other p.now.side) king }
    requires single { change.board_after p.now.board p.now.mark man mv.now
        ≡ change.moved p.now.board man mv.now }
    requires officer { is_same_kind man.kind Pawn ≡ false }
    ensures { IfSome result (λ n. n ≡ length (list.moves (change.after p.now mv.now))) }
{
    know_valid(p);
    let bits = p.bits();
    let by = p.side().other();
    let (king, from, to) = (king.number(), mv.from.number(), mv.to.number());
    let man = placed(man, mv);
    if may_pin_behind(bits, king, from, to, man) {
        return None;
    }
    let attacked = attacked_behind(bits, king, from, to, man);
    if has(attacked, king) {
        return None;
    }
    let men = bits.men_of(by) & !only(to);
    let pawns = bits.sets().pawns & men;
    let empty = !(bits.occupied() & !only(from) | only(to));
    let captures = bits.men_of(p.side()) & !only(from) | only(to);
    let last = last_rank_squares(by);
    let steps = king_attacks(king) & !men & !attacked;
    let ways = count_ways(by, pawns, empty, empty, captures);
    let promotions = count_ways(by, pawns, empty, empty & last, captures & last);
    Some(steps.count_ones() as usize + (ways + 3 * promotions))
}

/// The number of the replies to the legal move of this man.
#[inline(always)]
fn count_behind(p: &Position, man: Man, mv: &Move) -> usize
    requires man { man_at p.now.board mv.now.from ≡ Some man }
    requires legal { IsTrue (spec.is_legal p.now mv.now) }
    ensures { result ≡ length (list.moves (change.after p.now mv.now)) }
{
    know_valid(p);
    if let Some(king) = lone_king(p.bits(), p.side().other()) {
        if moves_alone(p, man, mv) {
            return count_steps_behind(p, man, mv, king);
        }
    } else if let Some(king) = king_with_pawns(p.bits(), p.side().other()) {
        if man.kind != Kind::Pawn && moves_alone(p, man, mv) {
            if let Some(count) = count_if_quiet(p, man, mv, king) {
                return count;
            }
        }
    }
    let next = board_after(p.bits(), &p.mark(), man, mv);
    count_on(p, man, mv, &next)
}

/// The number of the replies to a legal move: of the legal moves of the position after it, which is made only where the
/// other side has more than its king. It takes no memory.
pub fn count_replies(p: &Position, mv: Move) -> usize
    requires { IsTrue (spec.is_legal p.now mv) }
    ensures value { result ≡ length (list.moves (change.after p.now mv)) }
    ensures few { result ≤ MOST_LEGAL_MOVES }
{
    match p.man_at(mv.from) {
        None => unreachable!(),
        Some(man) => count_behind(p, man, &mv),
    }
}

/// The same of the move of this man, where it is legal.
fn replies_if_legal_by(p: &Position, man: Man, mv: &Move) -> Option<usize>
    requires { man_at p.now.board mv.now.from ≡ Some man }
    ensures legal { IfSome result (λ _. spec.is_legal p.now mv.now ≡ true) }
    ensures value { IfSome result (λ n. n ≡ length (list.moves (change.after p.now mv.now))) }
    ensures illegal { IfNone result (spec.is_legal p.now mv.now ≡ false) }
{
    if !is_candidate(p, man, mv) {
        return None;
    }
    let next = board_after(p.bits(), &p.mark(), man, mv);
    if !is_king_safe(p, man, mv, &next) {
        return None;
    }
    Some(count_on(p, man, mv, &next))
}

/// The number of the replies to the move, where it is legal; none, where it is not. The move is made once.
pub fn replies_if_legal(p: &Position, mv: Move) -> Option<usize>
    ensures legal { IfSome result (λ _. spec.is_legal p.now mv ≡ true) }
    ensures value { IfSome result (λ n. n ≡ length (list.moves (change.after p.now mv))) }
    ensures few { IfSome result (λ n. n ≤ MOST_LEGAL_MOVES) }
    ensures illegal { IfNone result (spec.is_legal p.now mv ≡ false) }
{
    match p.man_at(mv.from) {
        None => None,
        Some(man) => replies_if_legal_by(p, man, &mv),
    }
}

/// Whether the legal move mates, by a caller that has counted the replies. Only where there is none it is made.
#[tactic(auto, using(crate::proofs::MoveLists::none_listed), unfolding(crate::specs::Moves::is_mate, crate::specs::Moves::is_ended))]
pub fn mates_by(p: &Position, mv: Move, replies: usize) -> bool
    requires legal { IsTrue (spec.is_legal p.now mv) }
    requires replies { replies ≡ length (list.moves (change.after p.now mv)) }
    ensures { result ≡ list.is_mate (change.after p.now mv) }
{
    replies == 0 && in_check(&after(p, mv))
}
