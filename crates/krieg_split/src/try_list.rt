ghost use Rattle.std.specs.Prelude.{◌≡◌, ◌≤◌, ◌++◌, ◌↔◌, false, Some, length, map, take, slice_get, IsTrue, IfOk, OnOk};
ghost use Rattle.krieg_board.specs.Order.{move_lt};
ghost use Rattle.krieg_board.specs.declared.men.Move.{Move as Step};
ghost use Rattle.krieg_words.specs.declared.dialects.Dialect.{Dialect};
ghost use Rattle.krieg_theory.specs.Sets.{Ascending};
ghost use Rattle.krieg_theory.specs.Split as theory;
ghost use Rattle.krieg_game.specs.Chess.{chess};
ghost use Rattle.krieg_split.specs.MoveSets.{AllBefore, IsPut, move_set};

use crate::member_moves::MemberMoves;
use krieg_board::{Move, NoMemory};
use krieg_moves::legal_moves;
use krieg_pack::{Belief, unpack};
use std::alloc::Global;

/// Whether the move stands at the place.
pub(crate) fn stands_at(moves: &[Move], place: usize, mv: &Move) -> bool
    ensures { IsTrue result ↔ (slice_get moves.now place ≡ Some mv.now) }
{
    place < moves.len() && moves[place] == *mv
}

/// The first place from that one on where no lower move stands.
fn place_from(found: &[Move], from: usize, mv: &Move) -> usize
    requires within { from ≤ length found.now }
    requires before { AllBefore (take from found.now) mv.now }
    ensures within { result ≤ length found.now }
    ensures before { AllBefore (take result found.now) mv.now }
    ensures first { (m : Step) → slice_get found.now result ≡ Some m → move_lt m mv.now ≡ false }
{
    let mut place = from;
    while place < found.len() && found[place] < *mv {
        place += 1;
    }
    place
}

/// Puts the move at its place in the set, from that one on, unless it is there, and tells the place.
fn put_from(found: &mut Vec<Move>, from: usize, mv: &Move) -> Result<usize, NoMemory>
    requires within { from ≤ length found.old.items }
    requires before { AllBefore (take from found.old.items) mv.now }
    requires set { move_set found.old.items ≡ found.old.items }
    ensures { IfOk result (IsPut found.old.items found.new.items mv.now) }
{
    if stands_at(found, from, mv) {
        return Ok(from);
    }
    let place = place_from(found, from, mv);
    if !stands_at(found, place, mv) {
        found.insert(place, *mv)?;
    }
    Ok(place)
}

/// Adds the legal moves of one member to a set. Both ascend, so one walk through them tells where each belongs. Most
/// members have none that is new.
fn add_moves(moves: &[Move], found: &mut Vec<Move>) -> Result<(), NoMemory>
    requires moves { Ascending move_lt moves.now }
    requires found { move_set found.old.items ≡ found.old.items }
    ensures { OnOk result (found.new.items ≡ move_set (found.old.items ++ moves.now)) }
{
    if found.is_empty() {
        return Ok(found.extend_from_slice(moves)?);
    }
    let mut place = 0;
    for mv in moves {
        place = put_from(found, place, mv)? + 1;
    }
    Ok(())
}

/// The tries that make sense in a set: every move that is legal in some member, once, ascending.
#[inline(never)]
pub fn tries(alloc: Global, b: &Belief) -> Result<Vec<Move>, NoMemory>
    ensures { IfOk result (λ ts. (d : Dialect) → ts.items ≡ theory.tries (chess d) b.now) }
{
    let mut found = Vec::new(alloc);
    for member in b.members() {
        let moves = legal_moves(alloc, &unpack(member))?;
        add_moves(moves.as_slice(), &mut found)?;
    }
    Ok(found)
}

/// The same, by a caller that has the legal moves of all members.
pub(crate) fn tries_of(alloc: Global, members: &[MemberMoves]) -> Result<Vec<Move>, NoMemory>
    ensures { IfOk result (λ ts. (d : Dialect)
        → ts.items ≡ theory.tries (chess d) (map (λ m. m.position) members.now)) }
{
    let mut found = Vec::new(alloc);
    for member in members {
        add_moves(member.moves.as_slice(), &mut found)?;
    }
    Ok(found)
}
