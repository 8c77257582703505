ghost use Rattle.std.specs.Prelude.{◌≡◌, ◌<◌, List, map, MatchOption, [], None, Some};
ghost use Rattle.std.specs.List.{list_any, list_all};
ghost use Rattle.krieg_board.specs.Pos.{Pos};
ghost use Rattle.krieg_board.specs.declared.men.Move.{Move as Try};
ghost use Rattle.krieg_words.specs.declared.dialects.Dialect.{Dialect};
ghost use Rattle.krieg_pack.specs.Order.{position_lt};
ghost use Rattle.krieg_theory.specs.Sets.{same};
ghost use Rattle.krieg_theory.specs.Split.{keys, class, refused};
ghost use Rattle.krieg_costs.specs.Block.{lives_in_some};
ghost use Rattle.krieg_costs.specs.Refutation as theory;
ghost use Rattle.krieg_game.specs.Chess.{chess};
ghost use Rattle.krieg_board.specs.Order.{move_lt};
ghost use Rattle.krieg_game.specs.Keys.{Key, key_lt};
ghost use Rattle.krieg_game.specs.Classes.{class_pair};
ghost use Rattle.krieg_split.specs.Parts.{IsParted};
ghost use Rattle.krieg_refutation.specs.Refutations.{claims_of, claim_of, why_of, reason_of};
ghost use Rattle.krieg_refutation.specs.Reasons.{class_in, try_holds};
ghost use Rattle.krieg_refutation.specs.Reasons as spec;
ghost use Rattle.krieg_refutation.specs.TryResults.{IsLast, IsTryResult};

use crate::refutation::{Claim, Reason, Why};
use crate::try_result::{LastTry, TryResult, all_refuse, stalemates_in_some};
use krieg_board::Move;
use krieg_game::Class;
use krieg_pack::Belief;
use krieg_split::{PackedKey, Parted, is_within};
use krieg_words::{Words, compare};
use std::alloc::Global;

/// The claim at a place, counted from 1.
fn cited(claims: &[Claim], place: u16) -> Option<&Claim>
    ensures { MatchOption result ((d : Dialect)
        → theory.cited (claims_of d claims.now) place ≡ None)
        (λ c. (d : Dialect) →
        theory.cited (claims_of d claims.now) place ≡ Some (claim_of d c.now)) }
{
    if place == 0 {
        return None;
    }
    if place as usize > claims.len() {
        return None;
    }
    Some(&claims[place as usize - 1])
}

/// Whether the claim at a place denies the set within `moves`.
fn is_shown(before: &[Claim], place: u16, moves: u8, set: &Belief) -> bool
    ensures { (d : Dialect) → result ≡ theory.is_shown (chess d)
        (theory.cited (claims_of d before.now) place) moves set.now }
{
    match cited(before, place) {
        Some(c) => c.moves >= moves && is_within(&c.set, set),
        None => false,
    }
}

/// Whether the class is that of these words.
fn has_key(c: &Class, own: &Words, reply: &Words) -> bool
    ensures { result ≡ same key_lt (class_pair c.now).0 (own.now, reply.now) }
{
    compare(&c.own, own).then(compare(&c.reply, reply)).is_eq()
}

/// What is possible once these words were heard, where they may be heard.
fn heard<'a>(classes: &'a [Class], own: &Words, reply: &Words) -> Option<&'a Belief>
    ensures { MatchOption result (class_in (map class_pair classes.now) (own.now, reply.now) ≡ [])
        (λ b. class_in (map class_pair classes.now) (own.now, reply.now) ≡ b.now) }
{
    for c in classes {
        if has_key(c, own, reply) {
            return Some(&c.belief);
        }
    }
    None
}

/// Whether the claim at a place denies what is possible once these words were heard.
fn is_class_shown(
    alloc: Global,
    before: &[Claim],
    place: u16,
    moves: u8,
    classes: &[Class],
    key: &PackedKey,
) -> bool
    ensures { (d : Dialect) → result ≡ theory.is_shown (chess d)
        (theory.cited (claims_of d before.now) place) moves
        (class_in (map class_pair classes.now) key.now) }
{
    let (own, reply) = key.words();
    match heard(classes, &own, &reply) {
        Some(set) => is_shown(before, place, moves, set),
        None => is_shown(before, place, moves, &Belief::from_packed(Vec::new(alloc))),
    }
}

/// Whether in some member the try is legal and does not mate.
fn lives(parted: &Parted) -> bool
    ensures { (d : Dialect) (B : List Pos) (t : Try) → IsParted d B t parted.now
        → result ≡ lives_in_some (chess d) B t }
{
    parted.stale || !parted.classes.is_empty()
}

/// Whether the reason holds at a number of moves, one more than `fewer`, by the parts of the set.
fn holds_by_parts(alloc: Global, before: &[Claim], fewer: u8, parted: &Parted, why: &Why) -> bool
    requires { fewer < 255 }
    ensures { (d : Dialect) (B : List Pos) (t : Try) → IsParted d B t parted.now
        → result ≡ theory.holds (chess d) (claims_of d before.now) fewer B t (why_of why.now) }
{
    match why {
        Why::Lives => fewer == 0 && lives(parted),
        Why::Stale => parted.stale,
        Why::Class(heard, place) => {
            let classes = parted.classes.as_slice();
            fewer > 0 && is_class_shown(alloc, before, *place, fewer, classes, heard)
        }
        Why::Refused(place) => is_shown(before, *place, fewer + 1, &parted.refused),
    }
}

/// Whether each member of the set is one of those that refuse the last try.
fn is_within_refused(set: &Belief, last: &LastTry) -> bool
    ensures { (d : Dialect) (B : List Pos) (t : Try) → IsLast d B t last.now
        → result ≡ theory.is_within position_lt set.now (refused (chess d) B t) }
{
    is_within(set, last.set) && all_refuse(set.members(), &last.mv)
}

/// Whether the claim at a place denies the members that refuse the last try.
fn is_refused_shown(before: &[Claim], place: u16, last: &LastTry) -> bool
    ensures { (d : Dialect) (B : List Pos) (t : Try) → IsLast d B t last.now
        → result ≡ theory.is_shown (chess d) (theory.cited (claims_of d before.now) place) 1
        (refused (chess d) B t) }
{
    match cited(before, place) {
        Some(c) => c.moves >= 1 && is_within_refused(&c.set, last),
        None => false,
    }
}

/// Whether the reason holds where one move is left, by the last try.
fn holds_at_last(before: &[Claim], last: &LastTry, why: &Why) -> bool
    ensures { (d : Dialect) (B : List Pos) (t : Try) → IsLast d B t last.now
        → result ≡ theory.holds (chess d) (claims_of d before.now) 0 B t (why_of why.now) }
{
    match why {
        Why::Lives => last.lives,
        Why::Stale => stalemates_in_some(last.set.members(), &last.mv),
        Why::Class(_, _) => false,
        Why::Refused(place) => is_refused_shown(before, *place, last),
    }
}

/// Whether the reason holds at a number of moves, one more than `fewer`, by what the try makes of the set.
#[tactic(auto, unfolding(crate::specs::TryResults::IsTryResult))]
fn holds(alloc: Global, before: &[Claim], fewer: u8, tried: &TryResult, why: &Why) -> bool
    requires { fewer < 255 }
    ensures { (d : Dialect) (B : List Pos) (t : Try) → IsTryResult d fewer B t tried.now
        → result ≡ theory.holds (chess d) (claims_of d before.now) fewer B t (why_of why.now) }
{
    match tried {
        TryResult::Parts(parted) => holds_by_parts(alloc, before, fewer, parted, why),
        TryResult::Last(last) => holds_at_last(before, last, why),
    }
}

/// Whether two moves are the same.
fn is_same(a: &Move, b: &Move) -> bool
    ensures { result ≡ same move_lt a.now b.now }
{
    *a == *b
}

/// Whether the reason is one for the move.
fn is_for(r: &Reason, mv: &Move) -> bool
    ensures { result ≡ same move_lt (reason_of r.now).0 mv.now }
{
    is_same(&r.mv, mv)
}

/// Whether the reason holds where it is one for the move.
fn holds_if_own(
    alloc: Global,
    before: &[Claim],
    fewer: u8,
    mv: &Move,
    tried: &TryResult,
    r: &Reason,
) -> bool
    requires { fewer < 255 }
    ensures { (d : Dialect) (B : List Pos) → IsTryResult d fewer B mv.now tried.now
        → result ≡ spec.holds_if_own d (claims_of d before.now) fewer B mv.now (reason_of r.now) }
{
    !is_for(r, mv) || holds(alloc, before, fewer, tried, &r.why)
}

/// Whether some reason is one for the move.
fn has_reason(mv: &Move, reasons: &[Reason]) -> bool
    ensures { result ≡ list_any (λ r. same move_lt r.0 mv.now) (map reason_of reasons.now) }
{
    for r in reasons {
        if is_for(r, mv) {
            return true;
        }
    }
    false
}

/// Whether each reason holds that is one for the move.
fn all_hold(
    alloc: Global,
    before: &[Claim],
    fewer: u8,
    mv: &Move,
    tried: &TryResult,
    reasons: &[Reason],
) -> bool
    requires { fewer < 255 }
    ensures { (d : Dialect) (B : List Pos) → IsTryResult d fewer B mv.now tried.now
        → result ≡ list_all (spec.holds_if_own d (claims_of d before.now) fewer B mv.now)
        (map reason_of reasons.now) }
{
    for r in reasons {
        if !holds_if_own(alloc, before, fewer, mv, tried, r) {
            return false;
        }
    }
    true
}

/// Whether there is a reason for the move, and each one holds, at a number of moves, one more than `fewer`.
pub(crate) fn reasons_hold(
    alloc: Global,
    before: &[Claim],
    fewer: u8,
    mv: &Move,
    tried: &TryResult,
    reasons: &[Reason],
) -> bool
    requires { fewer < 255 }
    ensures { (d : Dialect) (B : List Pos) → IsTryResult d fewer B mv.now tried.now
        → result ≡ try_holds d (claims_of d before.now) fewer B mv.now (map reason_of reasons.now) }
{
    has_reason(mv, reasons) && all_hold(alloc, before, fewer, mv, tried, reasons)
}

/// Whether one of the moves is that one.
fn is_one_of(mv: &Move, moves: &[Move]) -> bool
    ensures { result ≡ list_any (same move_lt mv.now) moves.now }
{
    for m in moves {
        if is_same(mv, m) {
            return true;
        }
    }
    false
}

/// Whether each reason is one for one of the tries.
pub(crate) fn are_for(reasons: &[Reason], tries: &[Move]) -> bool
    ensures { result ≡ list_all (λ r. list_any (same move_lt r.0) tries.now)
        (map reason_of reasons.now) }
{
    for r in reasons {
        if !is_one_of(&r.mv, tries) {
            return false;
        }
    }
    true
}
