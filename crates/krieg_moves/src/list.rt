ghost use Rattle.std.specs.Prelude.{◌≡◌, ◌≤◌, ◌<◌, ◌++◌, ◌∷◌, [], true, OnOk, OnErr, IfOk, IfErr, filter, length};
ghost use Rattle.std.specs.List.Sorted.{IsStrictlySortedBy};
ghost use Rattle.krieg_board.specs.Order.{move_cmp};
ghost use Rattle.krieg_moves.specs.Guarding.{IsGuard};
ghost use Rattle.krieg_moves.specs.Legal as spec;
ghost use Rattle.krieg_moves.specs.Moves as list;

use crate::guard::Guard;
use crate::target::targets;
use krieg_board::{
    Kind, Move, NoMemory, Position, Promo, Square, is_man, know_valid, last_rank, lowest, rank_of,
    without_lowest,
};
use smallvec::SmallVec;
use std::alloc::Global;

fn push(
    from: Square,
    to: Square,
    promo: Promo,
    moves: &mut SmallVec<Move, 64>,
) -> Result<(), NoMemory>
    requires room { 64 ≤ moves.old.capacity }
    ensures pushed { OnOk result (moves.new.items ≡ moves.old.items
        ++ record { from = from; to = to; promo = promo } ∷ []) }
    ensures room { 64 ≤ moves.new.capacity }
    ensures full { OnErr result (64 < length
        (moves.old.items ++ record { from = from; to = to; promo = promo } ∷ [])) }
{
    moves.push(Move { from, to, promo })?;
    Ok(())
}

/// Adds the four promotions between two squares.
fn push_promotions(from: Square, to: Square, moves: &mut SmallVec<Move, 64>) -> Result<(), NoMemory>
    requires room { 64 ≤ moves.old.capacity }
    ensures pushed { OnOk result (moves.new.items ≡ moves.old.items ++ list.promotions from to) }
    ensures room { 64 ≤ moves.new.capacity }
    ensures full { OnErr result (64 < length (moves.old.items ++ list.promotions from to)) }
{
    push(from, to, Promo::Queen, moves)?;
    push(from, to, Promo::Rook, moves)?;
    push(from, to, Promo::Bishop, moves)?;
    push(from, to, Promo::Knight, moves)
}

/// Whether a pawn of the side to move would be promoted by going there (FIDE Laws, article 3.7.5.1). Who goes is
/// asked on the last rank alone.
fn promotes(p: &Position, from: Square, to: Square) -> bool
    ensures { result ≡ list.promotes p.now from to }
{
    rank_of(to.number()) == last_rank(p.side()) && is_man(p.side(), Kind::Pawn, p.man_at(from))
}

/// Adds the legal moves between two squares, where there are any: four promotions where a pawn reaches
/// the last rank, and otherwise the plain move.
fn push_between(
    p: &Position,
    from: Square,
    to: Square,
    moves: &mut SmallVec<Move, 64>,
) -> Result<(), NoMemory>
    requires legal { list.can_go p.now from to ≡ true }
    requires room { 64 ≤ moves.old.capacity }
    ensures pushed { OnOk result (moves.new.items ≡ moves.old.items
        ++ filter (spec.is_legal p.now) (list.moves_between from to)) }
    ensures room { 64 ≤ moves.new.capacity }
    ensures full { OnErr result (64 < length
        (moves.old.items ++ filter (spec.is_legal p.now) (list.moves_between from to))) }
{
    know_valid(p);
    let _from = from.number();
    let _to = to.number();
    if promotes(p, from, to) {
        return push_promotions(from, to, moves);
    }
    push(from, to, Promo::Plain, moves)
}

/// Adds the legal moves from a square.
fn push_from(
    p: &Position,
    guard: &Guard,
    from: Square,
    moves: &mut SmallVec<Move, 64>,
) -> Result<(), NoMemory>
    requires guard { IsGuard p.now guard.now }
    requires room { 64 ≤ moves.old.capacity }
    ensures pushed { OnOk result (moves.new.items ≡ moves.old.items
        ++ filter (spec.is_legal p.now) (list.moves_from from)) }
    ensures room { 64 ≤ moves.new.capacity }
    ensures full { OnErr result (64 < length
        (moves.old.items ++ filter (spec.is_legal p.now) (list.moves_from from))) }
{
    let mut rest = targets(p, guard, from);
    while rest != 0 {
        let to = lowest(rest);
        rest = without_lowest(rest);
        push_between(p, from, to, moves)?;
    }
    Ok(())
}

/// All legal moves of the side to move, each once, by from-square, then by to-square, then by
/// promotion. `NoMemory` comes only for want of memory, and never where there are 64 moves at most: they
/// take none.
pub fn legal_moves(alloc: Global, p: &Position) -> Result<SmallVec<Move, 64>, NoMemory>
    ensures exact { IfOk result (λ found. found.items ≡ list.moves p.now) }
    ensures ascending { IfOk result (λ found. IsStrictlySortedBy move_cmp found.items) }
    ensures few { IfErr result (λ e. 64 < length (list.moves p.now)) }
{
    legal_moves_by(alloc, p, &Guard::of(p))
}

/// The same, by a caller that has the guard.
#[tactic(auto, unfolding(crate::specs::Moves::moves))]
pub fn legal_moves_by(
    alloc: Global,
    p: &Position,
    guard: &Guard,
) -> Result<SmallVec<Move, 64>, NoMemory>
    requires { IsGuard p.now guard.now }
    ensures exact { IfOk result (λ found. found.items ≡ list.moves p.now) }
    ensures ascending { IfOk result (λ found. IsStrictlySortedBy move_cmp found.items) }
    ensures few { IfErr result (λ e. 64 < length (list.moves p.now)) }
{
    let mut moves = SmallVec::new(alloc);
    let mut rest = p.bits().men_of(p.side());
    while rest != 0 {
        let from = lowest(rest);
        rest = without_lowest(rest);
        push_from(p, guard, from, &mut moves)?;
    }
    Ok(moves)
}
