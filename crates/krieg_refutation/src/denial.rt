ghost use Rattle.std.specs.Prelude.{◌≡◌, ◌-◌, ◌*◌, ◌<◌, ◌&&◌, true, false, [], List, All, Some, IfOk, IfSome, IsTrue, map};
ghost use Rattle.std.specs.List.{list_all};
ghost use Rattle.krieg_board.specs.Men.{is_same_side};
ghost use Rattle.krieg_board.specs.Pos.{Pos};
ghost use Rattle.krieg_words.specs.ToldWords as told;
ghost use Rattle.krieg_words.specs.WordsOfMoves as words;
ghost use Rattle.krieg_pack.specs.Members.{IsSetOf};
ghost use Rattle.krieg_costs.specs.Sums.{total};
ghost use Rattle.krieg_costs.specs.Cost.{price};
ghost use Rattle.krieg_costs.specs.Refutation as theory;
ghost use Rattle.krieg_theory.specs.Split as sets;
ghost use Rattle.krieg_game.specs.Chess.{chess};
ghost use Rattle.krieg_game.specs.Outset.{outset};
ghost use Rattle.krieg_split.specs.Tallies.{tally_of};
ghost use Rattle.krieg_split.specs.Units.{Charges, IsPaid};
ghost use Rattle.krieg_parting.specs.Turns.{IsOwnTurn};
ghost use Rattle.krieg_refutation.specs.Refutations.{refutes, is_own_turn, claims_price, claims_of, claim_of};
ghost use Rattle.krieg_refutation.specs.Exclusion.{NoneMates};
ghost use Rattle.krieg_refutation.specs.Reasons.{holds_at, price_at, AreLast, opens_with, within_opening};

use crate::reasons::{are_for, reasons_hold};
use crate::refutation::{Claim, Refutation};
use crate::try_result::{TryResult, last_try};
use krieg_board::{Move, NoMemory, Side, Units};
use krieg_pack::{Belief, Packed, unpack};
use krieg_parting::PartStop;
use krieg_split::{Tally, is_within, split, tally_all, tally_tries, tries};
use krieg_words::{Dialect, Words, compare, opening, told};
use std::alloc::Global;

/// A claim that is looked at, with those before it: these it may cite.
#[derive(Clone, Copy)]
struct PlacedClaim<'a> {
    alloc: Global,
    dialect: Dialect,
    before: &'a [Claim],
    claim: &'a Claim,
}

/// Whether the claim has a reason for the try and each one for it holds, by one split.
#[tactic(auto, unfolding(crate::specs::TryResults::IsTryResult))]
fn try_holds(c: &PlacedClaim<'_>, mv: &Move, units: &mut Units) -> Result<bool, PartStop>
    ensures { Charges result (λ yes. yes ≡ holds_at (c.now.claim.now.moves - 1) c.now mv.now)
        (price_at c.now mv.now) units.old units.new }
{
    let fewer = c.claim.moves.saturating_sub(1);
    let tried = TryResult::Parts(split(c.alloc, c.dialect, &c.claim.set, *mv, units)?);
    Ok(reasons_hold(
        c.alloc,
        c.before,
        fewer,
        mv,
        &tried,
        c.claim.reasons.as_slice(),
    ))
}

/// The same where one move is left, by the tally of the try.
fn last_try_holds(c: &PlacedClaim<'_>, tally: &Tally, units: &mut Units) -> Result<bool, PartStop>
    requires { tally.now ≡ tally_of c.now.claim.now.set tally.now.mv }
    ensures { Charges result (λ yes. yes ≡ holds_at 0 c.now tally.now.mv)
        (price_at c.now tally.now.mv) units.old units.new }
{
    let tried = last_try(c.dialect, &c.claim.set, tally, units)?;
    Ok(reasons_hold(
        c.alloc,
        c.before,
        0,
        &tally.mv,
        &tried,
        c.claim.reasons.as_slice(),
    ))
}

/// Whether both are true, where both have been found.
fn both(a: bool, b: bool) -> bool
    ensures { result ≡ (a && b) }
{
    a && b
}

/// Whether this holds of each of the tries; all of them are split, also behind one of which it does not.
fn tries_hold(c: &PlacedClaim<'_>, moves: &[Move], units: &mut Units) -> Result<bool, PartStop>
    ensures { Charges result (λ yes. yes
        ≡ list_all (holds_at (c.now.claim.now.moves - 1) c.now) moves.now)
        (total (price_at c.now) moves.now) units.old units.new }
{
    let mut all = true;
    for mv in moves {
        let held = try_holds(c, mv, units)?;
        all = both(all, held);
    }
    Ok(all)
}

/// The same where one move is left, by the tallies of the tries.
fn last_tries_hold(
    c: &PlacedClaim<'_>,
    tallies: &[Tally],
    units: &mut Units,
) -> Result<bool, PartStop>
    requires { All (λ y. y ≡ tally_of c.now.claim.now.set y.mv) tallies.now }
    ensures { Charges result (λ yes. yes ≡ list_all (λ y. holds_at 0 c.now y.mv) tallies.now)
        (total (λ y. price_at c.now y.mv) tallies.now) units.old units.new }
{
    let mut all = true;
    for tally in tallies {
        let held = last_try_holds(c, tally, units)?;
        all = both(all, held);
    }
    Ok(all)
}

/// Whether there is a unit for each member at each of the tries.
fn is_one_for_each(units: &Units, members: usize, tries: usize) -> bool
    ensures { result ≡ false → units.now < members * tries }
{
    (members as u64).saturating_mul(tries as u64) <= units.left()
}

/// The moves of tallies.
fn moves_of(alloc: Global, tallies: &[Tally]) -> Result<Vec<Move>, NoMemory>
    ensures { IfOk result (λ moves. moves.items ≡ map (λ y. y.mv) tallies.now) }
{
    Ok(tallies.iter().map(|tally| tally.mv).collect(alloc)?)
}

/// The most members of a set whose tries are counted while they are listed: the moves of all are kept for that, in 280 bytes a member.
/// Those of larger sets are listed twice.
const MOST_AT_ONCE: usize = 512;

/// The tries of the claim's set, and where one move is left and the set is small, their tallies.
fn tries_of(c: &PlacedClaim<'_>) -> Result<(Vec<Move>, Option<Vec<Tally>>), NoMemory>
    ensures moves { IfOk result (λ r. (d : Dialect)
        → r.0.items ≡ sets.tries (chess d) c.now.claim.now.set) }
    ensures tallies { IfOk result (λ r. IfSome r.1 (λ ys. AreLast c.now ys.items)) }
{
    if c.claim.moves > 1 || c.claim.set.len() > MOST_AT_ONCE {
        return Ok((tries(c.alloc, &c.claim.set)?, None));
    }
    let tallies = tally_tries(c.alloc, &c.claim.set)?;
    let moves = moves_of(c.alloc, &tallies)?;
    Ok((moves, Some(tallies)))
}

/// The tallies of the tries where one move is left: all are counted at once, if they are not counted yet and there is room.
fn tallies_of(
    c: &PlacedClaim<'_>,
    moves: &[Move],
    counted: Option<Vec<Tally>>,
) -> Result<Option<Vec<Tally>>, NoMemory>
    requires moves { (d : Dialect) → moves.now ≡ sets.tries (chess d) c.now.claim.now.set }
    requires counted { IfSome counted (λ ys. AreLast c.now ys.items) }
    ensures { IfOk result (λ o. IfSome o (λ ys. AreLast c.now ys.items)) }
{
    if c.claim.moves > 1 || counted.is_some() {
        return Ok(counted);
    }
    tally_all(c.alloc, &c.claim.set, moves)
}

/// Whether this holds of each of the tries of the claim's set.
fn all_tries_hold(
    c: &PlacedClaim<'_>,
    moves: &[Move],
    counted: Option<Vec<Tally>>,
    units: &mut Units,
) -> Result<bool, PartStop>
    requires moves { (d : Dialect) → moves.now ≡ sets.tries (chess d) c.now.claim.now.set }
    requires counted { IfSome counted (λ ys. AreLast c.now ys.items) }
    ensures { Charges result (λ yes. yes
        ≡ list_all (holds_at (c.now.claim.now.moves - 1) c.now) moves.now)
        (total (price_at c.now) moves.now) units.old units.new }
{
    if !is_one_for_each(units, c.claim.set.len(), moves.len()) {
        return Err(PartStop::Spent);
    }
    match tallies_of(c, moves, counted)? {
        None => tries_hold(c, moves, units),
        Some(tallies) => last_tries_hold(c, tallies.as_slice(), units),
    }
}

/// Whether the claim holds by those before it. It takes the units of the splits by all tries, whether it holds or not.
fn claim_holds(c: &PlacedClaim<'_>, units: &mut Units) -> Result<bool, PartStop>
    ensures { Charges result (λ yes. yes ≡ theory.claim_holds (chess c.now.dialect)
        (claims_of c.now.dialect c.now.before.now) (claim_of c.now.dialect c.now.claim.now))
        (price (chess c.now.dialect) c.now.claim.now.set) units.old units.new }
{
    let (moves, counted) = tries_of(c)?;
    let held = all_tries_hold(c, moves.as_slice(), counted, units)?;
    let only = are_for(c.claim.reasons.as_slice(), moves.as_slice());
    let some = both(c.claim.moves > 0, !c.claim.set.is_empty());
    Ok(both(some, both(held, only)))
}

/// Whether each claim holds by those before it; all of them are looked at and paid for.
fn claims_hold(
    alloc: Global,
    d: Dialect,
    claims: &[Claim],
    units: &mut Units,
) -> Result<bool, PartStop>
    ensures { Charges result (λ yes. yes ≡ theory.claims_hold (chess d) [] (claims_of d claims.now))
        (claims_price d claims.now) units.old units.new }
{
    let mut all = true;
    for place in 0..claims.len() {
        let placed = PlacedClaim {
            alloc,
            dialect: d,
            before: &claims[..place],
            claim: &claims[place],
        };
        let held = claim_holds(&placed, units)?;
        all = both(all, held);
    }
    Ok(all)
}

/// What is told of the position at the start.
fn told_first(d: Dialect, p: &Packed) -> Words
    ensures { result ≡ told.told d (words.opening p.now) }
{
    told(d, opening(&unpack(p)))
}

/// Whether the words are told of each of the members at the start.
fn all_open_with(d: Dialect, words: &Words, members: &[Packed]) -> bool
    ensures { result ≡ list_all (opens_with d words.now) members.now }
{
    for member in members {
        if compare(&told_first(d, member), words).is_ne() {
            return false;
        }
    }
    true
}

/// Whether the set is within one of the opening sets of positions in which the player is to move: its members are listed,
/// and the same is told of all of them at the start.
fn is_within_opening(d: Dialect, set: &Belief, listed: &Belief) -> bool
    ensures { (who : Side) (S : List Pos) → IsSetOf listed.now S → IsOwnTurn who S
        → result ≡ within_opening d who S set.now }
{
    match set.members().first() {
        None => !listed.is_empty(),
        Some(first) => {
            let words = told_first(d, first);
            is_within(set, listed) && all_open_with(d, &words, set.members())
        }
    }
}

/// Whether these are the members of the set, in their order.
fn are_all_members(list: &[Packed], set: &Belief) -> bool
    ensures { IsTrue result → IsSetOf set.now list.now }
{
    list == set.members()
}

/// Whether the set is within one of the opening sets of the listed positions, in which the player is to move. A set for them is made
/// where they are not the members themselves.
fn is_within_listed(
    alloc: Global,
    d: Dialect,
    set: &Belief,
    list: &[Packed],
) -> Result<bool, NoMemory>
    ensures { IfOk result (λ yes. (who : Side) → IsOwnTurn who list.now
        → yes ≡ within_opening d who list.now set.now) }
{
    if are_all_members(list, set) {
        return Ok(is_within_opening(d, set, set));
    }
    let listed = Belief::from_packed(list.to_vec(alloc)?);
    Ok(is_within_opening(d, set, &listed))
}

/// Whether the claim denies that some plan mates the listed positions within `moves`.
fn denies(
    alloc: Global,
    d: Dialect,
    who: Side,
    moves: u8,
    list: &[Packed],
    claim: &Claim,
) -> Result<bool, NoMemory>
    requires { IsOwnTurn who list.now }
    ensures { IfOk result (λ yes. yes ≡ theory.denies (chess d) (outset d who) moves list.now
        (Some (claim_of d claim.now))) }
{
    let within = is_within_listed(alloc, d, &claim.set, list)?;
    Ok(both(claim.moves >= moves, within))
}

/// Whether the side is to move in all positions.
fn are_turns_of(list: &[Packed], side: Side) -> bool
    ensures { result ≡ list_all (λ p. is_same_side p.side side) list.now }
{
    for p in list {
        if unpack(p).side() != side {
            return false;
        }
    }
    true
}

/// Whether the last claim denies that some plan mates the listed positions within the number of moves.
fn last_denies(alloc: Global, f: &Refutation) -> Result<bool, NoMemory>
    requires { is_own_turn f.now ≡ true }
    ensures { IfOk result (λ yes. yes ≡ theory.denies (chess f.now.dialect)
        (outset f.now.dialect f.now.side) f.now.moves f.now.list.items
        (theory.last_of (claims_of f.now.dialect f.now.claims.items))) }
{
    let claims = f.claims.as_slice();
    let count = claims.len();
    if count == 0 {
        return Ok(false);
    }
    let last = &claims[count - 1];
    denies(alloc, f.dialect, f.side, f.moves, f.list.as_slice(), last)
}

/// Whether the side is to move in all listed positions, and the last claim denies that some plan mates them.
fn is_denied(alloc: Global, f: &Refutation) -> Result<bool, NoMemory>
    ensures { IfOk result (λ yes. yes ≡ (is_own_turn f.now
        && theory.denies (chess f.now.dialect)
        (outset f.now.dialect f.now.side) f.now.moves f.now.list.items
        (theory.last_of (claims_of f.now.dialect f.now.claims.items)))) }
{
    if !are_turns_of(f.list.as_slice(), f.side) {
        return Ok(false);
    }
    last_denies(alloc, f)
}

/// Whether the refutation holds: its side is to move in all listed positions, each claim holds by those before it, and the
/// last one denies that a plan mates these positions within its number of moves. Then no plan does.
///
/// It takes exactly as many units as the splits of each claim's set by each try that is legal in some member, whether the
/// claims hold or not. `Spent` comes exactly where fewer are left, unless memory is wanting. An error takes none.
pub fn deny(alloc: Global, f: &Refutation, units: &mut Units) -> Result<bool, PartStop>
    ensures answer { IfOk result (λ yes. yes ≡ refutes f.now) }
    ensures excludes { IfOk result (λ yes. yes ≡ true → NoneMates f.now) }
    ensures units { IsPaid result (claims_price f.now.dialect f.now.claims.items)
        units.old units.new }
{
    let mut left = Units::new(units.left());
    let held = claims_hold(alloc, f.dialect, f.claims.as_slice(), &mut left)?;
    let denied = is_denied(alloc, f)?;
    *units = left;
    Ok(held && denied)
}
