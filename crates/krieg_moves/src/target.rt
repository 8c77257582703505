ghost use Rattle.std.specs.Prelude.{◌≡◌, ◌<◌, ◌&&◌, ◌||◌, ◌==◌, ℕ, Some, None, true, false, not, is_some, IsTrue};
ghost use Rattle.krieg_board.specs.Board.{man_at, is_man};
ghost use Rattle.krieg_board.specs.Attacks as attack;
ghost use Rattle.krieg_board.specs.Sets as sets;
ghost use Rattle.krieg_board.specs.declared.men.Kind.TheVariants.{Pawn, King};
ghost use Rattle.krieg_board.specs.Squares as squares;
ghost use Rattle.krieg_rays.specs.Pinned.{is_pinned};
ghost use Rattle.krieg_moves.specs.After as change;
ghost use Rattle.krieg_moves.specs.Guarding.{IsGuard};
ghost use Rattle.krieg_moves.specs.Legal as spec;
ghost use Rattle.krieg_moves.specs.Moves.{can_go, plain_move};
ghost use Rattle.krieg_moves.specs.Wings as wings;
ghost use Rattle.krieg_moves.specs.Targets as targets;
ghost use Rattle.krieg_moves.specs.Targets.{is_officer, IsFreePawn};

use crate::candidate::can_castle;
use crate::change::crossed;
use crate::guard::{Guard, safe_squares};
use crate::legality::leaves_king_safe;
use crate::wing::{Wing, arrival, king_square};
use krieg_board::{
    Bits, Kind, Man, Move, Position, Promo, Side, Square, has, is_of, know_squares, know_valid,
    only_if, pawn_rank, rank_of,
};
use krieg_rays::{attacked_from, king_attacks, pawn_attacks, pawn_steps};

/// Whether the king castles on that wing by this move, and is safe behind it.
fn castles(wing: Wing, p: &Position, man: Man, mv: &Move) -> bool
    requires man { man_at p.now.board mv.now.from ≡ Some man }
    requires own { man.side ≡ p.now.side }
    requires king { man.kind ≡ King }
    requires plain { spec.is_plain mv.now.promo ≡ true }
    ensures { result ≡ (spec.can_castle wing p.now mv.now && spec.is_legal p.now mv.now) }
{
    know_valid(p);
    know_squares(mv);
    can_castle(wing, p, mv) && leaves_king_safe(p, man, mv)
}

fn arrival_square(wing: Wing, side: Side) -> Square
    ensures { result ≡ wings.arrival wing side }
{
    Square::new(arrival(wing, side)).unwrap()
}

/// Where the king arrives by castling on that wing, where he may castle (FIDE Laws, article 3.8.2).
fn castle(p: &Position, from: Square, man: Man, wing: Wing) -> u64
    requires man { man_at p.now.board from ≡ Some man }
    requires own { man.side ≡ p.now.side }
    requires king { man.kind ≡ King }
    ensures { (t : ℕ) → t < 64 → sets.has result t
        ≡ (spec.can_castle wing p.now (plain_move from t)
        && spec.is_legal p.now (plain_move from t)) }
{
    let to = arrival_square(wing, p.side());
    let mv = &Move {
        from,
        to,
        promo: Promo::Plain,
    };
    let here = castles(wing, p, man, mv);
    only_if(here, to.number())
}

/// Where a king of that side on that square may step: to squares next to him that hold no man of his side and that no
/// enemy man attacks once he has left.
#[inline(always)]
pub(crate) fn king_steps(b: &Bits, side: Side, from: u8) -> u64
    requires { from < 64 }
    ensures { (t : ℕ) → t < 64 → sets.has result t ≡ targets.is_step_of_king b.now side from t }
{
    let by = side.other();
    let squares = king_attacks(from) & !b.men_of(side);
    safe_squares(b, from, squares, by)
}

fn king_targets(p: &Position, from: Square, man: Man) -> u64
    requires man { man_at p.now.board from ≡ Some man }
    requires own { man.side ≡ p.now.side }
    requires king { man.kind ≡ King }
    ensures { (t : ℕ) → t < 64 → sets.has result t ≡ can_go p.now from t }
{
    let steps = king_steps(p.bits(), p.side(), from.number());
    if from.number() != king_square(p.side()) {
        return steps;
    }
    steps | castle(p, from, man, Wing::Short) | castle(p, from, man, Wing::Long)
}

/// Where the king of the side to move on that square may go.
pub(crate) fn targets_of_king(p: &Position, from: Square) -> u64
    requires { is_man p.now.side King (man_at p.now.board from) ≡ true }
    ensures { (t : ℕ) → t < 64 → sets.has result t ≡ can_go p.now from t }
{
    let man = Man {
        side: p.side(),
        kind: Kind::King,
    };
    king_targets(p, from, man)
}

/// Whether a man in front of a pawn on the rank where pawns begin keeps it from stepping.
fn is_blocked(b: &Bits, side: Side, from: u8) -> bool
    requires { from < 64 }
    ensures { result ≡ (squares.rank_of from == squares.pawn_rank side
        && is_some (man_at b.now (change.crossed side from))) }
{
    rank_of(from) == pawn_rank(side) && has(b.occupied(), crossed(side, from))
}

/// Where a pawn may step: one square forward, or two from the rank where pawns begin, over empty squares.
pub(crate) fn pawn_moves(b: &Bits, side: Side, from: Square) -> u64
    ensures { (t : ℕ) → t < 64 → sets.has result t
        ≡ (spec.is_step b.now side (plain_move from t)
        || spec.is_double_step b.now side (plain_move from t)) }
{
    let from = from.number();
    let occupied = b.occupied();
    if is_blocked(b, side, from) {
        return 0;
    }
    pawn_steps(side, from) & !occupied
}

/// Whether the pawn attacks the mark and may capture there in passing by this move (FIDE Laws, article
/// 3.7.4.1). Two men leave their squares by it, so it is made to see whether the king is safe.
fn passes(p: &Position, man: Man, mv: &Move, attacked: u64) -> bool
    requires man { man_at p.now.board mv.now.from ≡ Some man }
    requires own { man.side ≡ p.now.side }
    requires pawn { man.kind ≡ Pawn }
    requires plain { spec.is_plain mv.now.promo ≡ true }
    requires marked { change.is_marked p.now.mark mv.now.to ≡ true }
    requires attacked { (t : ℕ) → t < 64 → sets.has attacked t
        ≡ attack.attacks p.now.board mv.now.from t }
    ensures { result ≡ (attack.attacks p.now.board mv.now.from mv.now.to
        && spec.is_legal p.now mv.now) }
{
    know_valid(p);
    know_squares(mv);
    has(attacked, mv.to.number()) && leaves_king_safe(p, man, mv)
}

/// The mark, where the pawn may capture in passing.
fn passing(p: &Position, from: Square, man: Man, attacked: u64) -> u64
    requires man { man_at p.now.board from ≡ Some man }
    requires own { man.side ≡ p.now.side }
    requires pawn { man.kind ≡ Pawn }
    requires attacked { (t : ℕ) → t < 64 → sets.has attacked t ≡ attack.attacks p.now.board from t }
    ensures { (t : ℕ) → t < 64 → sets.has result t
        ≡ (change.is_marked p.now.mark t
        && (attack.attacks p.now.board from t && spec.is_legal p.now (plain_move from t))) }
{
    match p.mark() {
        None => 0,
        Some(to) => {
            let mv = &Move {
                from,
                to,
                promo: Promo::Plain,
            };
            let here = passes(p, man, mv, attacked);
            only_if(here, to.number())
        }
    }
}

/// Where this pawn may capture: on a square that it attacks and where an enemy man stands, or in passing.
fn captures(p: &Position, guard: &Guard, from: Square, man: Man) -> u64
    requires guard { IsGuard p.now guard.now }
    requires man { man_at p.now.board from ≡ Some man }
    requires own { man.side ≡ p.now.side }
    requires pawn { man.kind ≡ Pawn }
    ensures { (t : ℕ) → t < 64 → sets.has result t
        ≡ targets.is_capture p.now from guard.now.king t }
{
    let bits = p.bits();
    let side = p.side();
    let by = side.other();
    let attacked = attacked_from(bits, man, from.number());
    let passing = passing(p, from, man, attacked);
    attacked & bits.men_of(by) & guard.answers_from(p, from.number()) | passing
}

fn pawn_targets(p: &Position, guard: &Guard, from: Square, man: Man) -> u64
    requires guard { IsGuard p.now guard.now }
    requires man { man_at p.now.board from ≡ Some man }
    requires own { man.side ≡ p.now.side }
    requires pawn { man.kind ≡ Pawn }
    ensures { (t : ℕ) → t < 64 → sets.has result t ≡ can_go p.now from t }
{
    let forward = pawn_moves(p.bits(), p.side(), from);
    let captures = captures(p, guard, from, man);
    forward & guard.answers_from(p, from.number()) | captures
}

/// Where the pawns of the side to move stand.
pub fn own_pawns(p: &Position) -> u64
    ensures { (k : ℕ) → k < 64 → sets.has result k ≡ is_man p.now.side Pawn (man_at p.now.board k) }
{
    let bits = p.bits();
    let side = p.side();
    bits.sets().pawns & bits.men_of(side)
}

/// Whether no move of this pawn needs to be made to see that the king is safe: it is not pinned, and no square may be
/// captured in passing.
fn is_free(p: &Position, guard: &Guard, from: Square) -> bool
    requires guard { IsGuard p.now guard.now }
    requires pawn { is_man p.now.side Pawn (man_at p.now.board from) ≡ true }
    ensures { IsTrue result → IsFreePawn p.now from }
{
    p.mark().is_none() && !has(guard.pinned, from.number())
}

/// Where a free pawn may capture: an enemy man that it attacks, so that the checks on its king are answered.
fn free_captures(p: &Position, guard: &Guard, from: Square) -> u64
    requires guard { IsGuard p.now guard.now }
    requires free { IsFreePawn p.now from }
    ensures { (t : ℕ) → t < 64 → sets.has result t
        ≡ targets.is_capture p.now from guard.now.king t }
{
    let side = p.side();
    let by = side.other();
    pawn_attacks(side, from.number()) & p.bits().men_of(by) & guard.answers
}

/// Where the pawn of the side to move on that square may capture: it goes to another file, plainly or
/// with a promotion.
pub fn pawn_captures(p: &Position, guard: &Guard, from: Square) -> u64
    requires guard { IsGuard p.now guard.now }
    requires pawn { is_man p.now.side Pawn (man_at p.now.board from) ≡ true }
    ensures { (t : ℕ) → t < 64 → sets.has result t
        ≡ (can_go p.now from t && not (squares.file_of from == squares.file_of t)) }
{
    let side = p.side();
    if is_free(p, guard, from) {
        return free_captures(p, guard, from);
    }
    let kind = Kind::Pawn;
    captures(p, guard, from, Man { side, kind })
}

/// Where a free pawn may go: forward, or to capture, so that the checks on its king are answered.
fn targets_of_free_pawn(p: &Position, guard: &Guard, from: Square) -> u64
    requires guard { IsGuard p.now guard.now }
    requires free { IsFreePawn p.now from }
    ensures { (t : ℕ) → t < 64 → sets.has result t ≡ can_go p.now from t }
{
    let _from = from.number();
    let forward = pawn_moves(p.bits(), p.side(), from);
    forward & guard.answers | free_captures(p, guard, from)
}

/// Where the pawn of the side to move on that square may go.
pub(crate) fn targets_of_pawn(p: &Position, guard: &Guard, from: Square) -> u64
    requires guard { IsGuard p.now guard.now }
    requires pawn { is_man p.now.side Pawn (man_at p.now.board from) ≡ true }
    ensures { (t : ℕ) → t < 64 → sets.has result t ≡ can_go p.now from t }
{
    if is_free(p, guard, from) {
        return targets_of_free_pawn(p, guard, from);
    }
    let man = Man {
        side: p.side(),
        kind: Kind::Pawn,
    };
    pawn_targets(p, guard, from, man)
}

fn officer_targets(p: &Position, guard: &Guard, from: Square, man: Man) -> u64
    requires guard { IsGuard p.now guard.now }
    requires man { man_at p.now.board from ≡ Some man }
    requires own { man.side ≡ p.now.side }
    requires officer { is_officer man.kind ≡ true }
    ensures { (t : ℕ) → t < 64 → sets.has result t ≡ can_go p.now from t }
{
    let bits = p.bits();
    let side = p.side();
    let attacked = attacked_from(bits, man, from.number());
    attacked & !bits.men_of(side) & guard.answers_from(p, from.number())
}

/// Where a knight, bishop, rook or queen who is not pinned may go: to what he attacks, but for squares of own men,
/// so that the checks on his king are answered.
#[inline]
pub(crate) fn targets_of_free_officer(p: &Position, guard: &Guard, from: Square, man: Man) -> u64
    requires guard { IsGuard p.now guard.now }
    requires man { man_at p.now.board from ≡ Some man }
    requires own { man.side ≡ p.now.side }
    requires officer { is_officer man.kind ≡ true }
    requires free { is_pinned p.now.board p.now.side from ≡ false }
    ensures { (t : ℕ) → t < 64 → sets.has result t ≡ can_go p.now from t }
{
    let bits = p.bits();
    let side = p.side();
    let attacked = attacked_from(bits, man, from.number());
    attacked & !bits.men_of(side) & guard.answers
}

/// Where this man of the side to move may go.
fn own_targets(p: &Position, guard: &Guard, from: Square, man: Man) -> u64
    requires guard { IsGuard p.now guard.now }
    requires man { man_at p.now.board from ≡ Some man }
    requires own { man.side ≡ p.now.side }
    ensures { (t : ℕ) → t < 64 → sets.has result t ≡ can_go p.now from t }
{
    match man.kind {
        Kind::King => king_targets(p, from, man),
        Kind::Pawn => targets_of_pawn(p, guard, from),
        Kind::Knight | Kind::Bishop | Kind::Rook | Kind::Queen => {
            officer_targets(p, guard, from, man)
        }
    }
}

/// Where the man of the side to move on that square may go: there is a legal move there, plain or with a
/// promotion. No square, where no man of that side stands there.
pub fn targets(p: &Position, guard: &Guard, from: Square) -> u64
    requires { IsGuard p.now guard.now }
    ensures { (t : ℕ) → t < 64 → sets.has result t ≡ can_go p.now from t }
{
    let man = p.man_at(from);
    if !is_of(p.side(), man) {
        return 0;
    }
    match man {
        None => 0,
        Some(man) => own_targets(p, guard, from, man),
    }
}
