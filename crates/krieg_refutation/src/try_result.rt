ghost use Rattle.std.specs.Prelude.{◌≡◌, ◌&&◌, true};
ghost use Rattle.std.specs.List.{list_all, list_any};
ghost use Rattle.krieg_moves.specs.Legal as rule;
ghost use Rattle.krieg_costs.specs.Cost.{made};
ghost use Rattle.krieg_game.specs.Chess.{chess, stalemates};
ghost use Rattle.krieg_parting.specs.Mating.{refuses};
ghost use Rattle.krieg_split.specs.Units.{Charges};
ghost use Rattle.krieg_split.specs.Tallies.{tally_of};
ghost use Rattle.krieg_refutation.specs.TryResults.{IsTryResult};

use krieg_board::{Move, Units};
use krieg_moves::{after_if_legal, is_legal, is_stalemate};
use krieg_pack::{Belief, Packed, unpack};
use krieg_parting::{PartStop, take};
use krieg_split::{Parted, Tally};
use krieg_words::Dialect;

/// What a try makes of a set, as far as a reason may ask.
#[derive(Drop)]
pub(crate) enum TryResult<'a> {
    /// Its parts.
    Parts(Parted),
    /// The same where one move is left: nothing that is heard matters.
    Last(LastTry<'a>),
}

/// A try of a set where one move is left.
#[derive(Clone, Copy)]
pub(crate) struct LastTry<'a> {
    pub set: &'a Belief,
    pub mv: Move,
    /// Whether in some member it is legal and does not mate.
    pub lives: bool,
}

/// Whether the try stalemates in the member.
#[tactic(auto, unfolding(krieg_game::specs::Chess::stalemates))]
fn stalemates_in(member: &Packed, mv: &Move) -> bool
    ensures { result ≡ (rule.is_legal member.now mv.now && stalemates member.now mv.now) }
{
    match after_if_legal(&unpack(member), *mv) {
        None => false,
        Some(q) => is_stalemate(&q),
    }
}

/// Whether the try stalemates in some member.
pub(crate) fn stalemates_in_some(members: &[Packed], mv: &Move) -> bool
    ensures { result ≡ list_any (λ p. rule.is_legal p mv.now && stalemates p mv.now) members.now }
{
    for member in members {
        if stalemates_in(member, mv) {
            return true;
        }
    }
    false
}

/// Whether each of the members refuses the try.
pub(crate) fn all_refuse(members: &[Packed], mv: &Move) -> bool
    ensures { result ≡ list_all (refuses mv.now) members.now }
{
    for member in members {
        if is_legal(&unpack(member), *mv) {
            return false;
        }
    }
    true
}

/// The try where one move is left, by its tally in the set. It takes the units of a split.
pub(crate) fn last_try<'a>(
    d: Dialect,
    set: &'a Belief,
    tally: &Tally,
    units: &mut Units,
) -> Result<TryResult<'a>, PartStop>
    requires { tally.now ≡ tally_of set.now tally.now.mv }
    ensures { Charges result (IsTryResult d 0 set.now tally.now.mv)
        (made (chess d) set.now tally.now.mv) units.old units.new }
{
    take(units, set.len() as u64)?;
    take(units, tally.replies)?;
    Ok(TryResult::Last(LastTry {
        set,
        mv: tally.mv,
        lives: tally.lives,
    }))
}
