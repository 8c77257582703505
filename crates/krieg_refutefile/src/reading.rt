ghost use Rattle.std.specs.Prelude.{◌≡◌, IfOk, map};
ghost use Rattle.std.specs.Option.{option_copied};
ghost use Rattle.krieg_text.specs.Formats.{Always, IsReading};
ghost use Rattle.krieg_text.specs.Lines.{lines};
ghost use Rattle.krieg_text.specs.Reading.{taken, whole, Gives, GivesOn};
ghost use Rattle.krieg_refutefile.specs.Parts as parts;
ghost use Rattle.krieg_refutefile.specs.RefutationFormat.{refutation_at, SpellsRefutation, RefutationGrammar};
ghost use Rattle.krieg_refutefile.specs.RefutationLines.{a_moves};
ghost use Rattle.krieg_refutefile.specs.Refutations.{state_of, claim_state_of};
ghost use Rattle.krieg_refutefile.specs.Writable.{CanBeWritten};

use crate::claims::read_claims;
use krieg_board::{MOST_MOVES, Position, Side};
use krieg_fen::{Turn, read_list_line, read_listed, read_side};
use krieg_pack::{Packed, pack};
use krieg_refutation::{Claim, MOST_CLAIMS, Refutation};
use krieg_text::{LineSource, OwnedCursor, TextFault, read_count, read_version, read_word};
use krieg_words::Dialect;
use krieg_wordtext::read_dialect_line;
use std::alloc::Global;

// ---- what stands before the listed positions

/// The format's name with its one version, and the dialect. It has a line here, as in version 2 of the other formats, whose
/// version 1 names none.
fn read_heading(from: &mut OwnedCursor) -> Result<Dialect, TextFault>
    ensures { GivesOn (λ d. d) result from.new (parts.heading_at from.old) }
{
    read_version(from, b"krieg refutation ", 1)?;
    read_dialect_line(from, 2)
}

/// The next line, as the number of own moves that is denied.
fn read_moves(from: &mut OwnedCursor) -> Result<u8, TextFault>
    ensures { GivesOn (λ n. n) result from.new (taken a_moves.form from.old) }
{
    let moves = read_count(from, b"moves ", 1, u64::from(MOST_MOVES))?;
    Ok(moves as u8)
}

// ---- the listed positions

/// The next line, as a position that may stand in the list after its first.
fn next_listed(
    from: &mut OwnedCursor,
    who: Side,
    first: Option<&Position>,
) -> Result<Position, TextFault>
    ensures { GivesOn (λ p. p) result from.new
        (parts.listed_at who (option_copied first.entry) from.old) }
{
    read_listed(from, Turn::Own, who, first)
}

/// The next `n` lines as positions with one hand, in which the side is to move.
#[tactic(auto, using(crate::proofs::Loops::listing, krieg_text::proofs::ReadingLemmas::passed))]
fn read_list(
    alloc: Global,
    from: &mut OwnedCursor,
    who: Side,
    n: usize,
) -> Result<Vec<Packed>, TextFault>
    ensures { GivesOn (λ v. v.items) result from.new (parts.list_at who n from.old) }
{
    let mut list: Vec<Packed> = Vec::with_capacity(alloc, n)?;
    let mut first = None;
    for i in 0..n {
        match next_listed(from, who, first.as_ref()) {
            Ok(position) => {
                list.push(pack(&position))?;
                first = Some(first.unwrap_or(position));
            }
            Err(fault) => return Err(fault),
        }
    }
    Ok(list)
}

/// The number of listed positions, and these.
#[tactic(auto, unfolding(krieg_fen::specs::Forms::list_form))]
fn read_listing(alloc: Global, from: &mut OwnedCursor, who: Side) -> Result<Vec<Packed>, TextFault>
    ensures { GivesOn (λ v. v.items) result from.new (parts.listing_at who from.old) }
{
    let n = read_list_line(from)?;
    read_list(alloc, from, who, n as usize)
}

// ---- the claims, and the end

/// The number of claims, and these.
fn read_all_claims(
    alloc: Global,
    from: &mut OwnedCursor,
    d: Dialect,
) -> Result<Vec<Claim>, TextFault>
    ensures { GivesOn (λ v. map claim_state_of v.items) result from.new
        (parts.all_claims_at d from.old) }
{
    let n = read_count(from, b"claims ", 1, MOST_CLAIMS as u64)?;
    read_claims(alloc, from, d, n as usize)
}

/// The lines of a refutation.
#[tactic(auto, unfolding(crate::specs::RefutationFormat::refutation_at))]
fn read_parts(alloc: Global, from: &mut OwnedCursor) -> Result<Refutation, TextFault>
    ensures { GivesOn (λ f. state_of f) result from.new (refutation_at from.old) }
{
    let dialect = read_heading(from)?;
    let side = read_side(from)?;
    let moves = read_moves(from)?;
    let list = read_listing(alloc, from, side)?;
    let claims = read_all_claims(alloc, from, dialect)?;
    read_word(from, b"end")?;
    Ok(Refutation {
        dialect,
        side,
        moves,
        list,
        claims,
    })
}

fn read_lines(alloc: Global, text: Vec<u8>) -> Result<Refutation, TextFault>
    ensures { Gives (λ f. state_of f) result (whole refutation_at (lines text.items)) }
{
    let mut from = OwnedCursor::new(alloc, text)?;
    let file = read_parts(alloc, &mut from)?;
    from.end()?;
    Ok(file)
}

/// The refutation that the text spells.
///
/// The fault is the first line that is not accepted, or, where all lines are and the text is not complete, the number of
/// lines plus 1 with `Syntax`. `Count` comes at a number of moves, positions, claims or reasons that is a plain decimal out of
/// range; `Large` at the line that takes the positions or the reasons of all claims over `MOST_CLAIMED`; `Differs` at a listed
/// position with another hand than the first; `OutOfPlace` at a first listed position where the other side is to move, at a
/// position or a move of a claim that does not come after the one before it, and at a reason that cites no claim before its
/// own. Whether the claims hold is not asked.
///
/// The text is read once, each position is packed as it is read, and the memory of the lines that are read is given back
/// meanwhile.
#[tactic(auto, using(crate::proofs::RefutationLaws::refutation_reading, crate::proofs::Writables::spelled_can))]
pub fn read_refutation(alloc: Global, text: Vec<u8>) -> Result<Refutation, TextFault>
    ensures reading { IsReading (λ f. state_of f) refutation_at Always SpellsRefutation
        RefutationGrammar (lines text.items) result }
    // What is read can be written: it is within the limits, and its claims are in order.
    ensures written { IfOk result (λ f. CanBeWritten (state_of f)) }
{
    read_lines(alloc, text)
}
