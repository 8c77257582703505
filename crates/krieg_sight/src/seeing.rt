ghost use Rattle.std.specs.Prelude.{◌≡◌, ◌-◌, ◌<◌, ◌≤◌, true, false, not};
ghost use Rattle.std.specs.List.{list_any};
ghost use Rattle.krieg_moves.specs.After as change;
ghost use Rattle.krieg_moves.specs.Legal.{is_legal};
ghost use Rattle.krieg_moves.specs.Moves as list;
ghost use Rattle.krieg_nets.specs.Seen.{is_met, leaves_none, mates_within};

use crate::memo::Sight;
use krieg_board::{Move, Position};
use krieg_moves::{after, is_mate, is_stalemate, legal_moves};
use krieg_pack::pack;

/// With so few men on the board the same positions come again and again.
const FEW_MEN: u32 = 5;

/// Whether few men stand on the board.
fn has_few_men(p: &Position) -> bool {
    p.bits().occupied().count_ones() <= FEW_MEN
}

/// Whether some move may mate within so many, if the player sees the position: `false` only where none does.
///
/// What is found is kept. Of last moves with more than a few men it is kept for a while alone: there are too many of them.
#[cycle(seeing)]
pub(crate) fn may_mate(sight: &mut Sight, p: &Position, moves: u8) -> bool
    ensures none { result ≡ false → mates_within moves p.now ≡ false }
    ensures no_more { sight.new.left ≤ sight.old.left }
{
    if moves == 0 {
        return false;
    }
    if let Some(none) = sight.is_none_by_net(p, moves) {
        return !none;
    }
    if moves == 1 && !has_few_men(p) {
        return may_mate_at_once(sight, p);
    }
    let key = pack(p);
    if let Some(told) = sight.told(&key, moves) {
        return told;
    }
    if may_mate_anew(sight, p, moves) {
        sight.note_some(&key, moves);
        return true;
    }
    sight.note_none(&key, moves);
    false
}

/// Whether some move may mate.
#[cycle(seeing)]
fn may_mate_at_once(sight: &mut Sight, p: &Position) -> bool
    ensures none { result ≡ false → mates_within 1 p.now ≡ false }
    ensures no_more { sight.new.left ≤ sight.old.left }
{
    let key = pack(p);
    if let Some(may) = sight.told_of_last(&key) {
        return may;
    }
    let may = may_mate_anew(sight, p, 1);
    sight.note_last(&key, may);
    may
}

/// The same, whatever is known. It takes a look at the position, and where none is left it tells nothing.
#[cycle(seeing)]
fn may_mate_anew(sight: &mut Sight, p: &Position, moves: u8) -> bool
    ensures none { result ≡ false → mates_within moves p.now ≡ false }
    ensures looked { result ≡ false → 0 < moves → sight.new.left < sight.old.left }
    ensures no_more { sight.new.left ≤ sight.old.left }
{
    if moves == 0 {
        return false;
    }
    let Ok(tries) = legal_moves(sight.alloc(), p) else {
        return true;
    };
    if !sight.look() {
        return true;
    }
    one_may_mate(sight, p, tries.as_slice(), moves - 1)
}

/// Whether one of the legal moves may mate, where so many more are left.
#[cycle(seeing)]
fn one_may_mate(sight: &mut Sight, p: &Position, tries: &[Move], fewer: u8) -> bool
    requires { tries.now ≡ list.moves p.now }
    ensures none { result ≡ false → list_any
        (λ t. is_met (mates_within fewer) (change.after p.now t)) tries.now ≡ false }
    ensures no_more { sight.new.left ≤ sight.old.left }
{
    for mv in tries {
        if may_follow(sight, p, mv, fewer) {
            return true;
        }
    }
    false
}

/// Whether behind the legal move the opponent is mated, or may be mated within so many moves after each of his.
#[cycle(seeing)]
fn may_follow(sight: &mut Sight, p: &Position, mv: &Move, moves: u8) -> bool
    requires { is_legal p.now mv.now ≡ true }
    ensures none { result ≡ false →
        is_met (mates_within moves) (change.after p.now mv.now) ≡ false }
    ensures no_more { sight.new.left ≤ sight.old.left }
{
    if moves == 0 {
        return is_mate(&after(p, *mv));
    }
    let next = after(p, *mv);
    all_may_mate(sight, &next, moves) && !is_stalemate(&next)
}

/// Whether after each move of the opponent, who is to move, there may be a mate within so many moves: `false` only where some move of his
/// leaves none. With few men on the board it is kept.
#[cycle(seeing)]
pub(crate) fn all_may_mate(sight: &mut Sight, p: &Position, moves: u8) -> bool
    ensures fled { result ≡ false → leaves_none moves p.now ≡ true }
    ensures no_more { sight.new.left ≤ sight.old.left }
{
    if let Some(fled) = sight.is_fled_by_net(p, moves) {
        return !fled;
    }
    if !has_few_men(p) {
        return all_may_mate_anew(sight, p, moves);
    }
    let key = pack(p);
    if let Some(told) = sight.told_of_replies(&key, moves) {
        return told;
    }
    if all_may_mate_anew(sight, p, moves) {
        sight.note_met(&key, moves);
        return true;
    }
    sight.note_fled(&key, moves);
    false
}

/// The same, whatever is known.
#[cycle(seeing)]
fn all_may_mate_anew(sight: &mut Sight, p: &Position, moves: u8) -> bool
    ensures fled { result ≡ false → leaves_none moves p.now ≡ true }
    ensures no_more { sight.new.left ≤ sight.old.left }
{
    let Ok(replies) = legal_moves(sight.alloc(), p) else {
        return true;
    };
    each_may_mate(sight, p, replies.as_slice(), moves)
}

/// Whether after each of the replies there may be a mate within so many moves.
#[cycle(seeing)]
fn each_may_mate(sight: &mut Sight, p: &Position, replies: &[Move], moves: u8) -> bool
    requires { replies.now ≡ list.moves p.now }
    ensures fled { result ≡ false → list_any
        (λ r. not (mates_within moves (change.after p.now r))) replies.now ≡ true }
    ensures no_more { sight.new.left ≤ sight.old.left }
{
    for mv in replies {
        if !may_mate(sight, &after(p, *mv), moves) {
            return false;
        }
    }
    true
}
