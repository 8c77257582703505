ghost use Rattle.std.specs.Prelude.{◌≡◌, ◌<◌, ◌∷◌, [], Ok, IfOk, length, map, codes};
ghost use Rattle.std.specs.List.{All, flat_map};
ghost use Rattle.krieg_text.specs.Lines.{lines};
ghost use Rattle.krieg_text.specs.Reading.{whole};
ghost use Rattle.krieg_text.specs.Writing.{PutsPieces, PutsLines, Wrote, alone, put_lines};
ghost use Rattle.krieg_fen.specs.ListText.{position_line};
ghost use Rattle.krieg_words.specs.ToldWords.{Fits};
ghost use Rattle.krieg_refutation.specs.declared.refutation.Why.TheVariants.{Class};
ghost use Rattle.krieg_refutefile.specs.RefutationFormat.{refutation_at};
ghost use Rattle.krieg_refutefile.specs.LineForms as line;
ghost use Rattle.krieg_refutefile.specs.RefutationText as spec;
ghost use Rattle.krieg_refutefile.specs.Refutations.{state_of_denial, claim_state_of};
ghost use Rattle.krieg_refutefile.specs.Writable.{IsToldWhy, CanBeWritten};
ghost use Rattle.krieg_refutefile.specs.Parts as parts;
ghost use Rattle.krieg_refutefile.specs.Parts.{IsTold, AreTold};

use crate::pieces::Pieces;
use krieg_board::{NoMemory, Side};
use krieg_fen::{Ranks, put_move, put_next, put_side_line};
use krieg_pack::{Belief, Packed, unpack};
use krieg_refutation::{Claim, PackedKey, Reason, Why};
use krieg_text::{Text, put_number};
use krieg_words::Dialect;
use krieg_wordtext::{put_dialect_line, put_words_in};
use std::alloc::Global;

/// That no plan of the side mates all members of the set within so many own moves, with the claims that show it. It is given away to be
/// written.
#[derive(Drop)]
pub struct Denial {
    pub dialect: Dialect,
    pub side: Side,
    pub moves: u8,
    pub set: Belief,
    pub claims: Vec<Claim>,
}

/// Adds the line of a name and a number.
fn put_numbered(name: &[u8], n: usize, text: &mut Text) -> Result<(), NoMemory>
    ensures { PutsLines result text.old text.new (line.numbered name.now n ∷ []) }
{
    text.put(name)?;
    put_number(n as u64, text)?;
    text.end_line()
}

/// Adds the line before the positions of a claim.
fn put_sizes(moves: u8, positions: usize, text: &mut Text) -> Result<(), NoMemory>
    ensures { PutsLines result text.old text.new (line.claim_line moves positions ∷ []) }
{
    text.put(b"claim ")?;
    put_number(u64::from(moves), text)?;
    text.put(b" ")?;
    put_number(positions as u64, text)?;
    text.end_line()
}

/// Adds what a reason says of the claim that denies a class.
fn put_class(d: Dialect, heard: &PackedKey, place: u16, text: &mut Text) -> Result<(), NoMemory>
    requires own { Fits d heard.now.0 }
    requires reply { Fits d heard.now.1 }
    ensures { PutsPieces result text.old text.new (line.why_pieces d (Class heard.now place)) }
{
    let (own, reply) = heard.words();
    text.put(b" class ")?;
    put_words_in(d, own, text)?;
    text.put(b" / ")?;
    put_words_in(d, reply, text)?;
    text.put(b" ")?;
    put_number(u64::from(place), text)
}

/// Adds what a reason says behind its move.
fn put_why(d: Dialect, why: &Why, text: &mut Text) -> Result<(), NoMemory>
    requires { IsToldWhy d why.now }
    ensures { PutsPieces result text.old text.new (line.why_pieces d why.now) }
{
    match why {
        Why::Lives => text.put(b" lives"),
        Why::Stale => text.put(b" stale"),
        Why::Class(heard, place) => put_class(d, heard, *place, text),
        Why::Refused(place) => {
            text.put(b" refused ")?;
            put_number(u64::from(*place), text)
        }
    }
}

/// Adds the line of a reason.
fn put_reason(d: Dialect, reason: &Reason, text: &mut Text) -> Result<(), NoMemory>
    requires { IsToldWhy d reason.now.why }
    ensures { PutsLines result text.old text.new (line.reason_line d reason.now ∷ []) }
{
    put_move(reason.mv, text)?;
    put_why(d, &reason.why, text)?;
    text.end_line()
}

/// Adds what stands before so many listed positions.
fn put_head(
    d: Dialect,
    side: Side,
    moves: u8,
    listed: usize,
    text: &mut Text,
) -> Result<(), NoMemory>
    ensures { PutsLines result text.old text.new (parts.head_lines d side moves listed) }
{
    put_numbered(b"krieg refutation ", 1, text)?;
    put_dialect_line(d, text)?;
    put_side_line(side, text)?;
    put_numbered(b"moves ", usize::from(moves), text)?;
    put_numbered(b"list ", listed, text)
}

// ---- claims

/// Adds the line of a name and a number.
fn put_number_line(name: &[u8], n: usize, text: &mut Pieces) -> Result<(), NoMemory>
    ensures { Wrote result text.new (put_lines text.old (line.numbered name.now n ∷ [])) }
{
    let mut last = text.take_last()?;
    let done = put_numbered(name, n, &mut last);
    text.put_back(last, done)
}

/// Adds the line of a position, after that of another board.
fn put_member(member: &Packed, ranks: &mut Ranks, text: &mut Pieces) -> Result<(), NoMemory>
    ensures { Wrote result text.new (put_lines text.old (position_line member.now ∷ [])) }
{
    let mut last = text.take_last()?;
    let done = put_next(&unpack(member), ranks, &mut last);
    text.put_back(last, done)
}

/// Adds the lines of positions.
#[tactic(auto, using(krieg_text::proofs::Writings::writings))]
fn put_members(members: &[Packed], text: &mut Pieces) -> Result<(), NoMemory>
    ensures { Wrote result text.new (put_lines text.old (map position_line members.now)) }
{
    let mut ranks = Ranks::new();
    for member in members {
        put_member(member, &mut ranks, text)?;
    }
    Ok(())
}

/// Adds the line of a reason.
fn put_reason_line(d: Dialect, reason: &Reason, text: &mut Pieces) -> Result<(), NoMemory>
    requires { IsToldWhy d reason.now.why }
    ensures { Wrote result text.new (put_lines text.old (line.reason_line d reason.now ∷ [])) }
{
    let mut last = text.take_last()?;
    let done = put_reason(d, reason, &mut last);
    text.put_back(last, done)
}

/// Adds the lines of reasons.
#[tactic(auto, using(krieg_text::proofs::Writings::writings))]
fn put_reasons(d: Dialect, reasons: &[Reason], text: &mut Pieces) -> Result<(), NoMemory>
    requires { All (IsTold d) reasons.now }
    ensures { Wrote result text.new (put_lines text.old (map (line.reason_line d) reasons.now)) }
{
    for reason in reasons {
        put_reason_line(d, reason, text)?;
    }
    Ok(())
}

/// Adds the line before the positions of a claim.
fn put_claim_line(claim: &Claim, text: &mut Pieces) -> Result<(), NoMemory>
    ensures { Wrote result text.new
        (put_lines text.old (line.claim_line claim.now.moves (length claim.now.set) ∷ [])) }
{
    let mut last = text.take_last()?;
    let done = put_sizes(claim.moves, claim.set.len(), &mut last);
    text.put_back(last, done)
}

/// Adds the lines of the claim.
#[tactic(auto, using(krieg_text::proofs::Writings::writings))]
fn put_claim(d: Dialect, claim: &Claim, text: &mut Pieces) -> Result<(), NoMemory>
    requires { AreTold d (claim_state_of claim.now) }
    ensures { Wrote result text.new
        (put_lines text.old (parts.claim_lines d (claim_state_of claim.now))) }
{
    put_claim_line(claim, text)?;
    put_members(claim.set.members(), text)?;
    put_number_line(b"tries ", claim.reasons.len(), text)?;
    put_reasons(d, &claim.reasons, text)
}

/// Adds the lines of claims, each of which is let go once its lines stand.
#[tactic(auto, using(krieg_text::proofs::Writings::writings))]
fn move_claims(d: Dialect, claims: Vec<Claim>, text: &mut Pieces) -> Result<(), NoMemory>
    requires { All (λ c. AreTold d (claim_state_of c)) claims.items }
    ensures { Wrote result text.new
        (put_lines text.old (flat_map (λ c. parts.claim_lines d (claim_state_of c)) claims.items)) }
{
    for claim in claims {
        put_claim(d, &claim, text)?;
    }
    Ok(())
}

// ---- the file

/// Adds what stands before so many listed positions.
fn begin(
    d: Dialect,
    side: Side,
    moves: u8,
    listed: usize,
    text: &mut Pieces,
) -> Result<(), NoMemory>
    ensures { Wrote result text.new (put_lines text.old (parts.head_lines d side moves listed)) }
{
    let mut last = text.take_last()?;
    let done = put_head(d, side, moves, listed, &mut last);
    text.put_back(last, done)
}

/// Adds the last line.
fn end(text: &mut Pieces) -> Result<(), NoMemory>
    ensures { Wrote result text.new (put_lines text.old (alone (codes "end") ∷ [])) }
{
    let mut last = text.take_last()?;
    let done = last.line(b"end");
    text.put_back(last, done)
}

/// Adds the lines of the members of the set, which is let go. Where the last claim is of the same set, as at an own turn whose
/// opening words are alike everywhere, it is let go before.
fn move_set(set: Belief, claims: &[Claim], text: &mut Pieces) -> Result<(), NoMemory>
    ensures { Wrote result text.new (put_lines text.old (map position_line set)) }
{
    if let Some(last) = claims.last() {
        if last.set.same(&set) {
            drop(set);
            return put_members(last.set.members(), text);
        }
    }
    put_members(set.members(), text)
}

/// The lines of the refutation with these claims that lists the members of the set.
fn denial_lines(alloc: Global, denial: Denial) -> Result<Pieces, NoMemory>
    requires { All (λ c. AreTold denial.dialect (claim_state_of c)) denial.claims.items }
    ensures { IfOk result (λ text. text ≡ spec.refutation_text (state_of_denial denial)) }
{
    let Denial {
        dialect,
        side,
        moves,
        set,
        claims,
    } = denial;
    let mut text = Pieces::new(alloc);
    begin(dialect, side, moves, set.len(), &mut text)?;
    move_set(set, &claims, &mut text)?;
    put_number_line(b"claims ", claims.len(), &mut text)?;
    move_claims(dialect, claims, &mut text)?;
    end(&mut text)?;
    Ok(text)
}

/// The text of the refutation with these claims that lists the members of the set, in its one written form.
///
/// The refutation is within the limits of a text, its listed positions have one hand of its side, which is to move, and its
/// words can be told in the dialect. Its claims cite those before them alone, and the moves of their reasons ascend. Whether
/// the claims hold is not asked.
///
/// Each set is let go once its lines stand, and the text takes the memory that comes free: at no time are both there whole.
pub fn write_denial(alloc: Global, denial: Denial) -> Result<Pieces, NoMemory>
    requires { CanBeWritten (state_of_denial denial) }
    ensures value { IfOk result (λ text. text ≡ spec.refutation_text (state_of_denial denial)) }
    // The text is read as that refutation again.
    ensures again { whole refutation_at (lines (spec.refutation_text (state_of_denial denial)))
        ≡ Ok (state_of_denial denial) }
    // It has fewer than 66,000,000 bytes, so that it fits an input.
    ensures short { length (spec.refutation_text (state_of_denial denial)) < spec.text_bound }
{
    denial_lines(alloc, denial)
}
