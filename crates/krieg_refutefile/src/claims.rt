ghost use Rattle.std.specs.Prelude.{◌≡◌, ◌<◌, ◌≤◌, ◌+◌, ◌^◌, nat_le, map, length};
ghost use Rattle.std.specs.Option.{option_copied, option_map};
ghost use Rattle.krieg_refutation.specs.declared.refutation.Reason.{Reason as ReasonState};
ghost use Rattle.krieg_board.specs.Order.{move_lt};
ghost use Rattle.krieg_planfile.specs.NodeForms.{follows};
ghost use Rattle.krieg_format.specs.Lines.{with_test, tested};
ghost use Rattle.krieg_text.specs.Reading.{taken, GivesOn};
ghost use Rattle.krieg_refutefile.specs.Parts as spec;
ghost use Rattle.krieg_refutefile.specs.Parts.{totals_of, last_in, last_move};
ghost use Rattle.krieg_refutefile.specs.RefutationLines as lines;
ghost use Rattle.krieg_refutefile.specs.RefutationLines.{a_tries, a_position, a_claim, a_reason, ascending, argued, in_all};
ghost use Rattle.krieg_refutefile.specs.Refutations.{claim_state_of};

use crate::forms::{Sizes, claim_form, reason_form};
use krieg_board::{Move, Position};
use krieg_fen::position_form;
use krieg_pack::{Belief, Packed, pack};
use krieg_refutation::{Claim, MOST_CLAIMED, Reason, Why};
use krieg_text::{LineSource, OwnedCursor, TextFault, TextKind, count_form};
use krieg_words::Dialect;
use std::alloc::Global;

/// How many claims there are, and how many positions and reasons they have in all.
#[derive(Clone, Copy, Default)]
pub(crate) struct Totals {
    pub claims: usize,
    pub positions: usize,
    pub reasons: usize,
}

/// Whether so many more are not more than the most in all.
fn are_few(before: usize, more: usize) -> bool
    ensures { result ≡ nat_le (before + more) MOST_CLAIMED }
{
    before.saturating_add(more) <= MOST_CLAIMED
}

// ---- positions

/// The position of a line, after the last one of the set.
#[tactic(auto, unfolding(krieg_fen::specs::Forms::position_form))]
fn member_form(set: &[Packed], line: &[u8]) -> Result<Packed, TextKind>
    ensures { result ≡ (tested a_position (ascending (last_in set.now))).form line.now }
{
    let member = pack(&position_form(line)?);
    match set.last() {
        Some(last) if *last >= member => Err(TextKind::OutOfPlace),
        _ => Ok(member),
    }
}

/// The next line, as a position after the last one of the set.
#[tactic(auto, using(krieg_format::proofs::Repeats::line_gives))]
fn next_member(from: &mut OwnedCursor, set: &[Packed]) -> Result<Packed, TextFault>
    ensures { GivesOn (λ p. p) result from.new (spec.member_at (last_in set.now) from.old) }
{
    from.next(|line| member_form(set, line))
}

/// The next `n` lines as ascending positions.
#[tactic(auto, using(crate::proofs::Loops::sets, krieg_text::proofs::ReadingLemmas::passed))]
fn read_members(alloc: Global, from: &mut OwnedCursor, n: usize) -> Result<Vec<Packed>, TextFault>
    ensures { GivesOn (λ v. v.items) result from.new (spec.set_at n from.old) }
{
    let mut set: Vec<Packed> = Vec::with_capacity(alloc, n)?;
    for i in 0..n {
        match next_member(from, &set) {
            Ok(member) => set.push(member)?,
            Err(fault) => return Err(fault),
        }
    }
    Ok(set)
}

/// The next `n` lines as the ascending positions of a set.
#[tactic(auto, using(crate::proofs::Loops::set_is))]
fn read_set(alloc: Global, from: &mut OwnedCursor, n: usize) -> Result<Belief, TextFault>
    ensures { GivesOn (λ b. b) result from.new (spec.set_at n from.old) }
{
    let members = read_members(alloc, from, n)?;
    Ok(Belief::from_packed(members))
}

// ---- reasons

fn cites_below(own: usize, why: &Why) -> bool
    ensures { result ≡ lines.cites_below own why.now }
{
    match why {
        Why::Lives | Why::Stale => true,
        Why::Class(_, place) | Why::Refused(place) => usize::from(*place) < own,
    }
}

/// Whether the move comes after that of the last reason.
fn is_next(last: Option<&Reason>, mv: &Move) -> bool
    ensures { result ≡ follows move_lt
        (option_map (λ (r : ReasonState). r.mv) (option_copied last.entry)) mv.now }
{
    match last {
        None => true,
        Some(last) => last.mv < *mv,
    }
}

/// The reason of a line in the claim with the number `own`, after the last one of the reasons.
fn argued_form(d: Dialect, own: usize, reasons: &[Reason], line: &[u8]) -> Result<Reason, TextKind>
    ensures { result ≡ (tested (a_reason d) (argued own (last_move reasons.now))).form line.now }
{
    let reason = reason_form(d, line)?;
    if cites_below(own, &reason.why) && is_next(reasons.last(), &reason.mv) {
        Ok(reason)
    } else {
        Err(TextKind::OutOfPlace)
    }
}

/// The next line, as a reason of the claim with the number `own`, after the last one of the reasons.
#[tactic(auto, using(krieg_format::proofs::Repeats::line_gives))]
fn next_reason(
    from: &mut OwnedCursor,
    d: Dialect,
    own: usize,
    reasons: &[Reason],
) -> Result<Reason, TextFault>
    ensures { GivesOn (λ r. r) result from.new
        (spec.reason_at d own (last_move reasons.now) from.old) }
{
    from.next(|line| argued_form(d, own, reasons, line))
}

/// The next `n` lines as reasons of the claim with the number `own`, in the order of their moves.
#[tactic(auto, using(crate::proofs::Loops::reasons, krieg_text::proofs::ReadingLemmas::passed))]
fn read_reasons(
    alloc: Global,
    from: &mut OwnedCursor,
    d: Dialect,
    own: usize,
    n: usize,
) -> Result<Vec<Reason>, TextFault>
    ensures { GivesOn (λ v. v.items) result from.new (spec.reasons_at d own n from.old) }
{
    let mut reasons: Vec<Reason> = Vec::with_capacity(alloc, n)?;
    for i in 0..n {
        match next_reason(from, d, own, &reasons) {
            Ok(reason) => reasons.push(reason)?,
            Err(fault) => return Err(fault),
        }
    }
    Ok(reasons)
}

// ---- claims

/// The sizes of a claim, behind claims of so many positions.
fn sizes_after(positions: usize, line: &[u8]) -> Result<Sizes, TextKind>
    ensures { result ≡ with_test a_claim.form (λ h. in_all positions h.1) line.now }
{
    let sizes = claim_form(line)?;
    if are_few(positions, sizes.1) {
        Ok(sizes)
    } else {
        Err(TextKind::Large)
    }
}

/// The next line, as the sizes of a claim behind claims of so many positions.
fn read_sizes(from: &mut OwnedCursor, positions: usize) -> Result<Sizes, TextFault>
    ensures { GivesOn (λ h. h) result from.new
        (taken (with_test a_claim.form (λ h. in_all positions h.1)) from.old) }
{
    from.next(|line| sizes_after(positions, line))
}

/// The number of reasons of a claim, behind claims of so many reasons.
fn tries_after(reasons: usize, line: &[u8]) -> Result<usize, TextKind>
    ensures { result ≡ with_test a_tries.form (in_all reasons) line.now }
{
    let tries = count_form(b"tries ", 0, MOST_CLAIMED as u64, line)? as usize;
    if are_few(reasons, tries) {
        Ok(tries)
    } else {
        Err(TextKind::Large)
    }
}

/// The next line, as the number of reasons of a claim behind claims of so many reasons.
fn read_tries(from: &mut OwnedCursor, reasons: usize) -> Result<usize, TextFault>
    ensures { GivesOn (λ n. n) result from.new
        (taken (with_test a_tries.form (in_all reasons)) from.old) }
{
    from.next(|line| tries_after(reasons, line))
}

/// The next lines as a claim, behind claims of these totals.
fn read_claim(
    alloc: Global,
    from: &mut OwnedCursor,
    d: Dialect,
    before: Totals,
) -> Result<Claim, TextFault>
    requires { before.claims < 2 ^ 32 }
    ensures { GivesOn (λ c. claim_state_of c) result from.new
        (spec.claim_at d (totals_of before) from.old) }
{
    let (moves, positions) = read_sizes(from, before.positions)?;
    let set = read_set(alloc, from, positions)?;
    let tries = read_tries(from, before.reasons)?;
    let reasons = read_reasons(alloc, from, d, before.claims + 1, tries)?;
    Ok(Claim {
        moves,
        set,
        reasons,
    })
}

/// The totals with one claim more.
fn with_claim(before: Totals, claim: &Claim) -> Totals
    requires claims { before.claims < 2 ^ 32 }
    requires positions { before.positions + length claim.now.set ≤ MOST_CLAIMED }
    requires reasons { before.reasons + length claim.now.reasons.items ≤ MOST_CLAIMED }
    ensures { totals_of result ≡ lines.with_claim (totals_of before) (claim_state_of claim.now) }
{
    Totals {
        claims: before.claims + 1,
        positions: before.positions + claim.set.len(),
        reasons: before.reasons + claim.reasons.len(),
    }
}

/// The next `n` lines as claims, each of which cites those before it alone.
pub(crate) fn read_claims(
    alloc: Global,
    from: &mut OwnedCursor,
    d: Dialect,
    n: usize,
) -> Result<Vec<Claim>, TextFault>
    requires { n < 2 ^ 32 }
    ensures { GivesOn (λ v. map claim_state_of v.items) result from.new
        (spec.claims_at d n from.old) }
{
    let mut claims: Vec<Claim> = Vec::new(alloc);
    let mut totals = Totals::default();
    for i in 0..n {
        let claim = match read_claim(alloc, from, d, totals) {
            Ok(claim) => claim,
            Err(fault) => return Err(fault),
        };
        totals = with_claim(totals, &claim);
        claims.push(claim)?;
    }
    Ok(claims)
}
