//! Tallies of the tries in a set that may be too large for the moves of all its members to be kept.

ghost use Rattle.std.specs.Option.{is_none};
ghost use Rattle.std.specs.Prelude.{◌≡◌, ◌<◌, ◌≤◌, ◌↔◌, [], length, IfOk, IfSome, IsTrue, OnOk};
ghost use Rattle.krieg_words.specs.declared.dialects.Dialect.{Dialect};
ghost use Rattle.krieg_theory.specs.Split as theory;
ghost use Rattle.krieg_game.specs.Chess.{chess};
ghost use Rattle.krieg_split.specs.Tallies.{AreTallies};

use crate::tallies::{Tally, add_member, tallies_of_none};
use krieg_board::{Move, NoMemory};
use krieg_moves::legal_moves;
use krieg_pack::{Belief, Packed, unpack};
use std::alloc::Global;

/// At least so many members tell whether all are tallied.
const FEWEST_ASKED: usize = 256;

/// The most members of a set of which tallies are made at all: with no more, replies are surely counted in 64 bits.
const MOST_COUNTED: usize = 100_000_000;

/// Adds members to the tallies of the tries in none: the first, and from each on the one that is `step` places behind it.
/// Their legal moves are listed for that, and none is kept.
fn add_members(
    alloc: Global,
    members: &[Packed],
    step: usize,
    tallies: &mut [Tally],
) -> Result<(), NoMemory>
    requires step { (0 < step) × (step ≤ MOST_COUNTED) }
    requires few { length members.now ≤ MOST_COUNTED }
    requires none { AreTallies members.now [] tallies.old }
    ensures { OnOk result (step ≡ 1 → AreTallies members.now members.now tallies.new) }
{
    let mut place = 0;
    while place < members.len() {
        let position = unpack(&members[place]);
        let moves = legal_moves(alloc, &position)?;
        add_member(&position, moves.as_slice(), tallies);
        place += step;
    }
    Ok(())
}

/// What all tries take of so many members, if those between the tallied ones, each `step` places behind the last, are like
/// these.
fn rough_price(tallies: &[Tally], members: usize, step: usize) -> u64 {
    let mut price = 0u64;
    for tally in tallies {
        let replies = tally.replies.saturating_mul(step as u64);
        price = price.saturating_add(replies).saturating_add(members as u64);
    }
    price
}

/// Whether a search seems to come to all of the tries, by some members, each `step` places behind the last: each try lives in
/// one of these, so that none wins, and the units that are left are enough if the other members are like these.
fn are_all_made(
    alloc: Global,
    members: &[Packed],
    tries: &[Move],
    step: usize,
    left: u64,
) -> Result<bool, NoMemory>
    requires step { (0 < step) × (step ≤ MOST_COUNTED) }
    requires few { length members.now ≤ MOST_COUNTED }
    requires tries { (d : Dialect) → tries.now ≡ theory.tries (chess d) members.now }
{
    let mut tallies = tallies_of_none(alloc, tries)?;
    add_members(alloc, members, step, &mut tallies)?;
    Ok(
        tallies.iter().all(|tally| tally.lives)
            && rough_price(&tallies, members.len(), step) <= left,
    )
}

/// The tallies of all tries in a set. `None` exactly where it has more than 100,000,000 members.
///
/// The legal moves of each member are listed, and each move is made once.
#[inline(never)]
pub fn tally_all(alloc: Global, b: &Belief, tries: &[Move]) -> Result<Option<Vec<Tally>>, NoMemory>
    requires { (d : Dialect) → tries.now ≡ theory.tries (chess d) b.now }
    ensures tallies { IfOk result (λ o. IfSome o (λ ys. AreTallies b.now b.now ys.items)) }
    ensures none { IfOk result (λ o. IsTrue (is_none o) ↔ (MOST_COUNTED < length b.now)) }
{
    let members = b.members();
    if members.len() > MOST_COUNTED {
        return Ok(None);
    }
    let mut tallies = tallies_of_none(alloc, tries)?;
    add_members(alloc, members, 1, &mut tallies)?;
    Ok(Some(tallies))
}

/// The tallies of the tries in a large set, if a search with so many units left seems to come to all of them. `None` where it
/// may end before, by a try that wins or for want of units: then each try is better made when its turn comes. Both answers are
/// right in any case, and only the time hangs on which it is.
///
/// A few members that are spread over the set tell which it is.
#[inline(never)]
pub fn tally_large(
    alloc: Global,
    b: &Belief,
    tries: &[Move],
    left: u64,
) -> Result<Option<Vec<Tally>>, NoMemory>
    requires { (d : Dialect) → tries.now ≡ theory.tries (chess d) b.now }
    ensures { IfOk result (λ o. IfSome o (λ ys. AreTallies b.now b.now ys.items)) }
{
    let members = b.members();
    let step = members.len() / FEWEST_ASKED;
    if step == 0 || members.len() > MOST_COUNTED {
        return Ok(None);
    }
    if !are_all_made(alloc, members, tries, step, left)? {
        return Ok(None);
    }
    tally_all(alloc, b, tries)
}
