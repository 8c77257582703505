ghost use Rattle.std.specs.Prelude.{◌≡◌, ◌↔◌, All, map, IfOk, IsTrue};
ghost use Rattle.krieg_words.specs.declared.dialects.Dialect.{Dialect};
ghost use Rattle.krieg_theory.specs.Split as theory;
ghost use Rattle.krieg_game.specs.Chess.{chess};
ghost use Rattle.krieg_search.specs.Tries.{IsTold, move_of};

use krieg_board::{Move, NoMemory};
use krieg_pack::Belief;
use krieg_split::{MOST_TALLIED, Tally, tally_large, tally_tries, tries};
use std::alloc::Global;

/// A try of a set, and what it does there where one move is left, if that was counted.
#[derive(Clone, Copy)]
pub(crate) enum Try {
    Plain(Move),
    Counted(Tally),
}

/// The move that is tried.
pub(crate) fn move_of_try(tried: &Try) -> Move
    ensures { result ≡ move_of tried.now }
{
    match tried {
        Try::Plain(mv) => *mv,
        Try::Counted(tally) => tally.mv,
    }
}

/// Whether two moves are the same.
pub(crate) fn is_same(a: &Move, b: &Move) -> bool
    ensures { IsTrue result ↔ (a.now ≡ b.now) }
{
    *a == *b
}

/// The tries of a set, of which nothing is counted.
fn plain_tries(alloc: Global, moves: &[Move]) -> Result<Vec<Try>, NoMemory>
    ensures { IfOk result (λ ts. ts.items ≡ map (λ t. Try.Plain t) moves.now) }
{
    Ok(moves.iter().map(|mv| Try::Plain(*mv)).collect(alloc)?)
}

/// The tries of a set with their tallies.
fn counted_tries(alloc: Global, tallies: &[Tally]) -> Result<Vec<Try>, NoMemory>
    ensures { IfOk result (λ ts. ts.items ≡ map (λ y. Try.Counted y) tallies.now) }
{
    Ok(
        tallies
            .iter()
            .map(|tally| Try::Counted(*tally))
            .collect(alloc)?,
    )
}

/// The tries that make sense in a set, in their order, for a search with so many units left. Where one move is left all are
/// counted at once; in a large set only if the search seems to come to all of them.
#[inline(never)]
pub(crate) fn tries_for(
    alloc: Global,
    b: &Belief,
    moves: u8,
    left: u64,
) -> Result<Vec<Try>, NoMemory>
    ensures moves { IfOk result (λ ts. (d : Dialect)
        → map move_of ts.items ≡ theory.tries (chess d) b.now) }
    ensures told { IfOk result (λ ts. All (IsTold b.now moves) ts.items) }
{
    if moves == 1 && b.len() <= MOST_TALLIED {
        return counted_tries(alloc, &tally_tries(alloc, b)?);
    }
    let found = tries(alloc, b)?;
    if moves == 1 {
        if let Some(tallies) = tally_large(alloc, b, &found, left)? {
            return counted_tries(alloc, &tallies);
        }
    }
    plain_tries(alloc, &found)
}
