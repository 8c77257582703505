ghost use Rattle.std.specs.Prelude.{◌≡◌, ◌≤◌, ◌<◌, ◌^◌, true, [], All, filter, map, length, IfOk};
ghost use Rattle.krieg_moves.specs.Legal as rule;
ghost use Rattle.krieg_moves.specs.Moves as list;
ghost use Rattle.krieg_words.specs.declared.dialects.Dialect.{Dialect};
ghost use Rattle.krieg_theory.specs.Split as theory;
ghost use Rattle.krieg_game.specs.Chess.{chess};
ghost use Rattle.krieg_split.specs.Tallies.{tally_of, tally_with};

use crate::member_moves::list_all;
use crate::try_list::{stands_at, tries_of};
use krieg_board::{Move, NoMemory, Position};
use krieg_moves::{count_replies, mates_by};
use krieg_pack::Belief;
use std::alloc::Global;

/// The most members of a set that `tally_tries` takes: all their legal moves are kept at once.
pub const MOST_TALLIED: usize = 4_096;

/// What a try does in a set where one move is left.
#[derive(Clone, Copy)]
pub struct Tally {
    pub mv: Move,
    /// How many replies there are to it, in all members in which it is legal.
    pub replies: u64,
    /// Whether in some member it is legal and does not mate.
    pub lives: bool,
}

/// Adds what the try does in one member, in which it is legal.
fn add_legal(p: &Position, tally: &mut Tally)
    requires legal { rule.is_legal p.now tally.old.mv ≡ true }
    requires room { tally.old.replies < 2 ^ 63 }
    ensures { tally.new ≡ tally_with p.now tally.old }
{
    let replies = count_replies(p, tally.mv);
    tally.replies += replies as u64;
    tally.lives = tally.lives || !mates_by(p, tally.mv, replies);
}

/// Adds one member to the tallies of the tries, by its legal moves. They are the tries that are legal in it, in the same
/// order, so one walk through both tells which these are.
pub(crate) fn add_member(p: &Position, moves: &[Move], tallies: &mut [Tally])
    requires moves { moves.now ≡ list.moves p.now }
    requires tries { filter (rule.is_legal p.now) (map (λ y. y.mv) tallies.old) ≡ list.moves p.now }
    requires room { All (λ y. y.replies < 2 ^ 63) tallies.old }
    ensures { tallies.new ≡ map (tally_with p.now) tallies.old }
{
    let mut next = 0;
    for tally in tallies.iter_mut() {
        if stands_at(moves, next, &tally.mv) {
            add_legal(p, tally);
            next += 1;
        }
    }
}

/// The tallies of tries in no member.
pub(crate) fn tallies_of_none(alloc: Global, tries: &[Move]) -> Result<Vec<Tally>, NoMemory>
    ensures { IfOk result (λ ys. ys.items ≡ map (tally_of []) tries.now) }
{
    let mut tallies = Vec::with_capacity(alloc, tries.len())?;
    for mv in tries {
        tallies.push(Tally {
            mv: *mv,
            replies: 0,
            lives: false,
        })?;
    }
    Ok(tallies)
}

/// The tally of each try that makes sense in a set, in their order. The legal moves of each member are listed once, and
/// each move is made once.
#[inline(never)]
pub fn tally_tries(alloc: Global, b: &Belief) -> Result<Vec<Tally>, NoMemory>
    requires { length b.now ≤ MOST_TALLIED }
    ensures { IfOk result (λ ys. (d : Dialect)
        → ys.items ≡ map (tally_of b.now) (theory.tries (chess d) b.now)) }
{
    let members = list_all(alloc, b.members())?;
    let tries = tries_of(alloc, &members)?;
    let mut tallies = tallies_of_none(alloc, &tries)?;
    for member in &members {
        add_member(&member.position, member.moves.as_slice(), &mut tallies);
    }
    Ok(tallies)
}
