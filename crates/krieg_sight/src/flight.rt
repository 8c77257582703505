ghost use Rattle.std.specs.Prelude.{◌≡◌, ◌<◌, ◌≤◌, true, not, is_some, length, IfSome, Some};
ghost use Rattle.std.specs.List.{list_any};
ghost use Rattle.krieg_board.specs.Men.{other};
ghost use Rattle.krieg_board.specs.Sets as sets;
ghost use Rattle.krieg_nets.specs.Answers.{TellsFledBehind, TellsNone};
ghost use Rattle.krieg_nets.specs.Nets.{IsWith, against_by};
ghost use Rattle.krieg_nets.specs.Others.{lone_of};
ghost use Rattle.krieg_nets.specs.Seen.{mates_within, flees};

use crate::memo::Sight;
use crate::netted::pursued;
use crate::seeing::{all_may_mate, may_mate};
use krieg_board::{Move, Position, Square, has, only};
use krieg_moves::{after_if_legal, is_legal};
use krieg_nets::{LoneKing, Others};
use krieg_pack::{Belief, Packed, unpack};

/// Whether the move is found to be legal in the position and some reply to leave no mate within so many moves.
fn is_fled(sight: &mut Sight, p: &Position, mv: &Move, moves: u8) -> bool
    ensures fled { result ≡ true → flees moves mv.now p.now ≡ true }
    ensures no_more { sight.new.left ≤ sight.old.left }
{
    match after_if_legal(p, *mv) {
        Some(q) => !all_may_mate(sight, &q, moves),
        None => false,
    }
}

/// What is found for all squares of a king who is alone against these men: those for which something is so.
#[derive(Clone, Copy)]
struct Squares {
    others: Others,
    set: u64,
}

impl Squares {
    /// Whether the king is on one of them, where he is alone against the same men.
    #[inline]
    fn have(&self, king: &LoneKing) -> Option<bool>
        ensures same { is_some result ≡ true → king.now.men.others ≡ self.now.others }
        ensures has { result ≡ Some true → sets.has self.now.set king.now.square ≡ true }
    {
        if *king.men.others() != self.others {
            return None;
        }
        Some(has(self.set, king.square.number()))
    }
}

/// Where a king who is alone against the side to move in the position is found not to be mated within so many moves.
fn none_around(sight: &mut Sight, p: &Position, moves: u8) -> Option<Squares>
    ensures none { IfSome result (λ s. TellsNone s.others moves s.set) }
    ensures no_more { sight.new.left ≤ sight.old.left }
{
    let king = pursued(p)?;
    Some(Squares {
        others: *king.men.others(),
        set: sight.none_within(&king.men, moves),
    })
}

/// Where he is found to get away behind the move, with no mate within so many moves.
fn fled_around(sight: &mut Sight, p: &Position, mv: &Move, moves: u8) -> Option<Squares>
    ensures fled { IfSome result (λ s. TellsFledBehind s.others mv.now moves s.set) }
    ensures no_more { sight.new.left ≤ sight.old.left }
{
    let king = pursued(p)?;
    Some(Squares {
        others: *king.men.others(),
        set: sight.fled_behind(&king.men, mv, moves),
    })
}

/// Whether the member is found to be no mate within so many moves: by the squares, where they tell of it.
fn is_no_mate(sight: &mut Sight, none: &Option<Squares>, member: &Packed, moves: u8) -> bool
    requires { IfSome none.now (λ s. TellsNone s.others moves s.set) }
    ensures none { result ≡ true → not (mates_within moves member.now) ≡ true }
    ensures no_more { sight.new.left ≤ sight.old.left }
{
    let p = unpack(member);
    if let Some(squares) = none
        && let Some(king) = pursued(&p)
        && let Some(none) = squares.have(&king)
    {
        return none;
    }
    !may_mate(sight, &p, moves)
}

/// Whether the move is found to be legal in the member and some reply to leave no mate within so many moves: by the squares, where they
/// tell of it.
fn is_fled_by(
    sight: &mut Sight,
    fled: &Option<Squares>,
    member: &Packed,
    mv: &Move,
    moves: u8,
) -> bool
    requires { IfSome fled.now (λ s. TellsFledBehind s.others mv.now moves s.set) }
    ensures fled { result ≡ true → flees moves mv.now member.now ≡ true }
    ensures no_more { sight.new.left ≤ sight.old.left }
{
    let p = unpack(member);
    if let Some(squares) = fled
        && let Some(king) = pursued(&p)
        && let Some(flees) = squares.have(&king)
    {
        return flees && is_legal(&p, *mv);
    }
    is_fled(sight, &p, mv, moves)
}

/// The place of the member of a set that is asked first.
fn first_of(sight: &Sight, members: &[Packed]) -> usize
    requires { 0 < length members.now }
    ensures { result < length members.now }
{
    let first = sight.first();
    if first < members.len() { first } else { 0 }
}

/// Whether some member of the set is found to be no mate within so many moves, even for a player who sees the position. So the set
/// cannot be won within these.
pub fn some_is_no_mate(sight: &mut Sight, b: &Belief, moves: u8) -> bool
    ensures none { result ≡ true → list_any (λ p. not (mates_within moves p)) b.now ≡ true }
    ensures no_more { sight.new.left ≤ sight.old.left }
{
    let members = b.members();
    if members.is_empty() {
        return false;
    }
    let first = first_of(sight, members);
    let none = none_around(sight, &unpack(&members[first]), moves);
    if is_no_mate(sight, &none, &members[first], moves) {
        return true;
    }
    for place in 0..members.len() {
        if is_no_mate(sight, &none, &members[place], moves) {
            sight.begin_at(place);
            return true;
        }
    }
    false
}

/// The square of the king in the member, where he is alone against these men, who are to move.
fn square_beside(others: &Others, member: &Packed) -> Option<Square> {
    let king = pursued(&unpack(member))?;
    if king.men.others() != others {
        return None;
    }
    Some(king.square)
}

/// The squares of a king who in each member of the set is alone against the same men, who are to move, where he is. Nothing is claimed of
/// them: `some_flees` takes them for a shorter way to `false`.
pub fn squares_of(b: &Belief) -> Option<u64> {
    let first = pursued(&unpack(b.members().first()?))?;
    let mut squares = 0;
    for member in b.members() {
        squares |= only(square_beside(first.men.others(), member)?.number());
    }
    Some(squares)
}

/// Whether he is on none of the squares that are found, where his are known.
fn are_apart(found: &Option<Squares>, squares: Option<u64>) -> bool {
    match (found, squares) {
        (Some(found), Some(squares)) => found.set & squares == 0,
        _ => false,
    }
}

/// Whether in some member of the set the move is found to be legal and some reply to leave no mate within so many moves,
/// even for a player who sees the position. So the move begins no win of the set with one move more.
///
/// The squares are what `squares_of` gives of the set.
pub fn some_flees(sight: &mut Sight, b: &Belief, squares: Option<u64>, mv: &Move, moves: u8) -> bool
    ensures fled { result ≡ true → list_any (flees moves mv.now) b.now ≡ true }
    ensures no_more { sight.new.left ≤ sight.old.left }
{
    let members = b.members();
    if members.is_empty() {
        return false;
    }
    let first = first_of(sight, members);
    let fled = fled_around(sight, &unpack(&members[first]), mv, moves);
    if are_apart(&fled, squares) {
        return false;
    }
    if is_fled_by(sight, &fled, &members[first], mv, moves) {
        return true;
    }
    for place in 0..members.len() {
        if is_fled_by(sight, &fled, &members[place], mv, moves) {
            sight.begin_at(place);
            return true;
        }
    }
    false
}
