ghost use Rattle.std.specs.Prelude.{◌≡◌, ◌<◌, ◌≤◌, ◌&&◌, ◌==◌, ℕ, true, false, bit_and, filter, length, Some, IfSome};
ghost use Rattle.krieg_board.specs.Board.{man_at, is_man};
ghost use Rattle.krieg_board.specs.Boards.{is_kind};
ghost use Rattle.krieg_board.specs.Pos.{Pos};
ghost use Rattle.krieg_board.specs.Sets as sets;
ghost use Rattle.krieg_board.specs.Validity.{IsValid, count_kind};
ghost use Rattle.krieg_board.specs.declared.men.Kind.TheVariants.{King};
ghost use Rattle.krieg_board.specs.Squares as squares;
ghost use Rattle.krieg_rays.specs.Pinned.{is_pinned};
ghost use Rattle.krieg_moves.specs.Guarding.{IsGuard};
ghost use Rattle.krieg_moves.specs.Legal as spec;
ghost use Rattle.krieg_moves.specs.Moves as list;
ghost use Rattle.krieg_moves.specs.Targets.{IsAlone, IsFreePawn, is_free_officer, is_officer};

use crate::guard::Guard;
use crate::target::{king_steps, own_pawns, targets, targets_of_free_officer, targets_of_king};
use crate::ways::count_ways;
use krieg_board::{
    Bits, Kind, Man, Position, Side, Square, has, king_of, know_valid, lowest, only, without_lowest,
};

/// The squares of the rank on which a side's pawns are promoted.
pub(crate) fn last_rank_squares(side: Side) -> u64
    ensures { (t : ℕ) → t < 64 → sets.has result t ≡ (squares.rank_of t == squares.last_rank side) }
{
    match side {
        Side::White => 0xFF00_0000_0000_0000,
        Side::Black => 0xFF,
    }
}

/// The pawns of the side to move of which no move needs to be made to see that its king is safe: they are not pinned, and
/// no square may be captured in passing.
fn free_pawns(p: &Position, guard: &Guard) -> u64
    requires { IsGuard p.now guard.now }
    ensures { (k : ℕ) → k < 64 → sets.has result k ≡ true → IsFreePawn p.now k }
{
    if p.mark().is_some() {
        return 0;
    }
    own_pawns(p) & !guard.pinned
}

/// The number of the legal moves of free pawns: one for each way that they have, and three more where they are promoted,
/// since a pawn may become any of four.
fn count_of_free_pawns(p: &Position, guard: &Guard, pawns: u64) -> usize
    requires guard { IsGuard p.now guard.now }
    requires pawns { (k : ℕ) → k < 64 → sets.has pawns k ≡ true → IsFreePawn p.now k }
    ensures { result ≡ length (list.moves_of p.now pawns) }
{
    if pawns == 0 {
        return 0;
    }
    let bits = p.bits();
    let side = p.side();
    let by = side.other();
    let empty = !bits.occupied();
    let steps = empty & guard.answers;
    let captures = bits.men_of(by) & guard.answers;
    let last = last_rank_squares(side);
    count_ways(side, pawns, empty, steps, captures)
        + 3 * count_ways(side, pawns, empty, steps & last, captures & last)
}

/// Those of the squares where a man goes at which he is promoted.
fn promoting(p: &Position, from: Square, targets: u64) -> u64
    ensures { (t : ℕ) → t < 64 → sets.has result t
        ≡ (sets.has targets t && list.promotes p.now from t) }
{
    if has(own_pawns(p), from.number()) {
        targets & last_rank_squares(p.side())
    } else {
        0
    }
}

/// The knights, bishops, rooks and queens of the side to move who are not pinned.
fn free_officers(p: &Position, pinned: u64) -> u64
    requires { (k : ℕ) → k < 64 → sets.has pinned k ≡ is_pinned p.now.board p.now.side k }
    ensures { (k : ℕ) → k < 64 → sets.has result k ≡ is_free_officer p.now k }
{
    let bits = p.bits();
    let side = p.side();
    let sets = bits.sets();
    (sets.knights | sets.bishops | (sets.rooks | sets.queens)) & bits.men_of(side) & !pinned
}

/// The number of the legal moves of a knight, bishop, rook or queen who is not pinned.
#[inline]
fn count_of_officer(p: &Position, guard: &Guard, man: Man, from: Square) -> usize
    requires guard { IsGuard p.now guard.now }
    requires man { man_at p.now.board from ≡ Some man }
    requires own { man.side ≡ p.now.side }
    requires officer { is_officer man.kind ≡ true }
    requires free { is_pinned p.now.board p.now.side from ≡ false }
    ensures { result ≡ length (filter (spec.is_legal p.now) (list.moves_from from)) }
{
    know_valid(p);
    let _from = from.number();
    targets_of_free_officer(p, guard, from, man).count_ones() as usize
}

/// The number of the legal moves of those of such men who are of one kind: no square is asked who stands there.
#[inline]
fn count_of_kind(p: &Position, guard: &Guard, man: Man, men: u64, of_kind: u64) -> usize
    requires guard { IsGuard p.now guard.now }
    requires men { (k : ℕ) → k < 64 → sets.has men k ≡ is_free_officer p.now k }
    requires kind { (k : ℕ) → k < 64 → sets.has of_kind k
        ≡ is_kind man.kind (man_at p.now.board k) }
    requires own { man.side ≡ p.now.side }
    requires officer { is_officer man.kind ≡ true }
    ensures { result ≡ length (list.moves_of p.now (bit_and men of_kind)) }
{
    let mut count = 0usize;
    let mut rest = men & of_kind;
    while rest != 0 {
        let from = lowest(rest);
        rest = without_lowest(rest);
        count += count_of_officer(p, guard, man, from);
    }
    count
}

/// The number of the legal moves of knights, bishops, rooks and queens who are not pinned, kind by kind.
fn count_of_officers(p: &Position, guard: &Guard, men: u64) -> usize
    requires guard { IsGuard p.now guard.now }
    requires men { (k : ℕ) → k < 64 → sets.has men k ≡ is_free_officer p.now k }
    ensures { result ≡ length (list.moves_of p.now men) }
{
    if men == 0 {
        return 0;
    }
    let side = p.side();
    let sets = p.bits().sets();
    let knight = Man {
        side,
        kind: Kind::Knight,
    };
    let bishop = Man {
        side,
        kind: Kind::Bishop,
    };
    let rook = Man {
        side,
        kind: Kind::Rook,
    };
    let queen = Man {
        side,
        kind: Kind::Queen,
    };
    count_of_kind(p, guard, knight, men, sets.knights)
        + count_of_kind(p, guard, bishop, men, sets.bishops)
        + count_of_kind(p, guard, rook, men, sets.rooks)
        + count_of_kind(p, guard, queen, men, sets.queens)
}

/// The number of the legal moves of the king.
fn count_of_king(p: &Position, from: Square) -> usize
    requires { is_man p.now.side King (man_at p.now.board from) ≡ true }
    ensures { result ≡ length (filter (spec.is_legal p.now) (list.moves_from from)) }
{
    know_valid(p);
    let _from = from.number();
    targets_of_king(p, from).count_ones() as usize
}

/// The number of the legal moves from a square: one for each square where its man may go, and three more where he is
/// promoted.
fn count_from(p: &Position, guard: &Guard, from: Square) -> usize
    requires { IsGuard p.now guard.now }
    ensures { result ≡ length (filter (spec.is_legal p.now) (list.moves_from from)) }
{
    know_valid(p);
    if from.number() == guard.king {
        return count_of_king(p, from);
    }
    let targets = targets(p, guard, from);
    let promoting = promoting(p, from, targets);
    targets.count_ones() as usize + 3 * promoting.count_ones() as usize
}

/// The number of the legal moves of the men on these squares, by a look at each of them.
fn count_one_by_one(p: &Position, guard: &Guard, men: u64) -> usize
    requires { IsGuard p.now guard.now }
    ensures { result ≡ length (list.moves_of p.now men) }
{
    let mut count = 0usize;
    let mut rest = men;
    while rest != 0 {
        let from = lowest(rest);
        rest = without_lowest(rest);
        count += count_from(p, guard, from);
    }
    count
}

/// No position has more legal moves than 64 times 64 times 5.
pub const MOST_LEGAL_MOVES: usize = 20_480;

/// The number of the legal moves of a side by its guard. Free pawns are counted together, and men who are not pinned kind
/// by kind.
pub(crate) fn count_by_guard(p: &Position, guard: &Guard) -> usize
    requires { IsGuard p.now guard.now }
    ensures { result ≡ length (list.moves p.now) }
{
    know_valid(p);
    let men = p.bits().men_of(p.side());
    let free = free_pawns(p, guard);
    let officers = free_officers(p, guard.pinned);
    let others = men & !(free | officers);
    count_of_free_pawns(p, guard, free)
        + count_of_officers(p, guard, officers)
        + count_one_by_one(p, guard, others)
}

/// The king of that side, where he is its only man.
#[inline(always)]
pub(crate) fn lone_king(b: &Bits, side: Side) -> Option<Square>
    requires { count_kind b.now side King ≡ 1 }
    ensures { IfSome result (IsAlone b.now side) }
{
    let king = king_of(b, side);
    if b.men_of(side) == only(king) {
        return Square::new(king);
    }
    None
}

/// The number of the legal moves of a side of which the king is the only man: he can't castle, so these are his steps.
#[inline(always)]
pub(crate) fn count_steps(b: &Bits, side: Side, king: Square) -> usize
    requires { IsAlone b.now side king }
    ensures { (p : Pos) → IsValid p → p.board ≡ b.now → p.side ≡ side →
        result ≡ length (list.moves p) }
{
    king_steps(b, side, king.number()).count_ones() as usize
}

/// The number of the legal moves of the side to move, without their list. It takes no memory. A king who is alone needs no
/// guard.
pub fn count_moves(p: &Position) -> usize
    ensures value { result ≡ length (list.moves p.now) }
    ensures few { result ≤ MOST_LEGAL_MOVES }
{
    know_valid(p);
    match lone_king(p.bits(), p.side()) {
        Some(king) => count_steps(p.bits(), p.side(), king),
        None => count_by_guard(p, &Guard::of(p)),
    }
}
