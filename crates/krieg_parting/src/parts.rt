ghost use Rattle.std.specs.Prelude.{◌≡◌, ◌≤◌, true, suc, length, IfOk};
ghost use Rattle.krieg_moves.specs.After.{after};
ghost use Rattle.krieg_moves.specs.Guarding.{IsGuard};
ghost use Rattle.krieg_moves.specs.Legal as rule;
ghost use Rattle.krieg_words.specs.WordsOfMoves.{words};
ghost use Rattle.krieg_theory.specs.Split.{given};
ghost use Rattle.krieg_costs.specs.Cost.{made};
ghost use Rattle.krieg_game.specs.Chess.{chess};
ghost use Rattle.krieg_parting.specs.Charges.{Charges};
ghost use Rattle.krieg_parting.specs.Gathering.{IsAdded, IsGathered};
ghost use Rattle.krieg_parting.specs.Mating.{replies};
ghost use Rattle.krieg_parting.specs.Parts.{IsPartedOf};

use crate::stop::{PartStop, take};
use krieg_board::{Move, NoMemory, Position, Units};
use krieg_game::{Class, Pool};
use krieg_moves::{MOST_LEGAL_MOVES, after_if_legal, count_moves, is_stalemate_by, legal_moves_by};
use krieg_pack::{Belief, Packed, unpack};
use krieg_words::{Dialect, Made, make_if_legal};
use std::alloc::Global;

/// What is tried, and how much of what comes of it is wanted.
#[derive(Clone, Copy)]
pub struct Attempt {
    pub dialect: Dialect,
    pub mv: Move,
    /// Whether all of it is wanted, also once the try stalemates in some member.
    pub always: bool,
}

/// What a try makes of a set: for each position in it, it is illegal, or it is made and the opponent replies.
#[derive(Drop)]
pub struct Parted {
    /// The members in which it is illegal.
    pub refused: Belief,
    /// Whether it stalemates in some member.
    pub stale: bool,
    /// What is possible once the words of the try and of a reply were heard, for all that may be heard, ascending.
    pub classes: Vec<Class>,
}

/// The same, before it is sorted.
#[derive(Drop)]
pub struct UnsortedParts {
    pub refused: Vec<Packed>,
    pub stale: bool,
    pub pool: Pool,
}

/// Adds what the legal try makes of one member, where it was made.
#[tactic(auto, unfolding(krieg_game::specs::Chess::stalemates, krieg_game::specs::Chess::outcomes))]
fn add_legal(
    alloc: Global,
    attempt: &Attempt,
    p: &Position,
    made: &Made,
    parts: &mut UnsortedParts,
    units: &mut Units,
) -> Result<(), PartStop>
    requires legal { rule.is_legal p.now attempt.now.mv ≡ true }
    requires words { made.now.words ≡ words p.now attempt.now.mv }
    requires position { made.now.position ≡ after p.now attempt.now.mv }
    requires guard { IsGuard made.now.position made.now.guard }
    ensures { Charges result (λ _. IsAdded attempt.now parts.old parts.new p.now)
        (suc (length (given (chess attempt.now.dialect) attempt.now.mv p.now)))
        units.old units.new }
{
    let replies = legal_moves_by(alloc, &made.position, &made.guard)?;
    take(units, 1 + replies.len() as u64)?;
    parts.stale = parts.stale || is_stalemate_by(&made.position, replies.len());
    if attempt.always || !parts.stale {
        parts.pool.add(
            attempt.dialect,
            &made.words,
            &made.position,
            replies.as_slice(),
        )?;
    }
    Ok(())
}

/// How many replies there are to the try.
fn count_replies(p: &Position, mv: &Move) -> usize
    ensures value { result ≡ replies mv.now p.now }
    ensures few { result ≤ MOST_LEGAL_MOVES }
{
    match after_if_legal(p, *mv) {
        None => 0,
        Some(q) => count_moves(&q),
    }
}

/// Adds what the try makes of one member, for one unit and one for each reply. Where that is not wanted any more, replies
/// are only counted.
fn add_member(
    alloc: Global,
    attempt: &Attempt,
    member: &Packed,
    parts: &mut UnsortedParts,
    units: &mut Units,
) -> Result<(), PartStop>
    ensures { Charges result (λ _. IsAdded attempt.now parts.old parts.new member.now)
        (suc (length (given (chess attempt.now.dialect) attempt.now.mv member.now)))
        units.old units.new }
{
    let p = unpack(member);
    if parts.stale && !attempt.always {
        return take(units, 1 + count_replies(&p, &attempt.mv) as u64);
    }
    if let Some(made) = make_if_legal(&p, attempt.mv) {
        return add_legal(alloc, attempt, &p, &made, parts, units);
    }
    take(units, 1)?;
    parts.refused.push(*member)?;
    Ok(())
}

/// Gathers what the try makes of all members, for one unit for each member and one for each reply: no more is made than
/// there are units for. Without `always` nothing more is kept once the try stalemates in some member: it fails then.
pub fn gather(
    alloc: Global,
    attempt: &Attempt,
    members: &[Packed],
    units: &mut Units,
) -> Result<UnsortedParts, PartStop>
    ensures { Charges result (IsGathered attempt.now members.now)
        (made (chess attempt.now.dialect) members.now attempt.now.mv) units.old units.new }
{
    let mut parts = UnsortedParts {
        refused: Vec::new(alloc),
        stale: false,
        pool: Pool::new(alloc),
    };
    for member in members {
        add_member(alloc, attempt, member, &mut parts, units)?;
    }
    Ok(parts)
}

/// The parts of what was gathered, which is sorted in its place.
pub fn parts_of(parts: UnsortedParts) -> Result<Parted, NoMemory>
    ensures { IfOk result (IsPartedOf parts) }
{
    let UnsortedParts {
        refused,
        stale,
        pool,
    } = parts;
    let classes = pool.into_classes()?;
    Ok(Parted {
        refused: Belief::from_packed(refused),
        stale,
        classes,
    })
}
