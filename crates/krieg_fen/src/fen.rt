ghost use Rattle.std.specs.Prelude.{◌≡◌, ◌≢◌, ◌<◌, ◌∷◌, [], IfSome, IfNone, IfOk, length, Ok};
ghost use Rattle.std.specs.Option.{option_copied};
ghost use Rattle.krieg_board.specs.Pos.{Pos};
ghost use Rattle.krieg_board.specs.Validity.{IsValid};
ghost use Rattle.krieg_fen.specs.Fen as spec;
ghost use Rattle.krieg_fen.specs.FenText.{position_text};
ghost use Rattle.krieg_fen.specs.Spelling.{Spells};
ghost use Rattle.krieg_text.specs.Pieces.{pieces, pieces_left};

use crate::fields::{is_clock, mark_of, rights_of, side_of};
use crate::ranks::board_of;
use krieg_board::{BadPosition, Bits, Position, Rights, Side, Square};
use krieg_text::cut;
use std::marker::Model;
use thiserror::Error;

/// Why a text is no position: the first of these faults that it has.
#[derive(Clone, Copy, Debug, Error)]
pub enum FenFault {
    /// It has neither four nor six fields.
    #[error("neither four nor six fields")]
    Fields,
    /// The first field, from 1 on, that is outside its grammar.
    #[error("field {0} is outside its grammar")]
    Field(u8),
    /// The position that it spells is not valid.
    #[error("{0}")]
    Bad(BadPosition),
}

/// What the first four fields say, valid or not.
#[derive(Drop)]
struct Parts {
    board: Bits,
    side: Side,
    rights: Rights,
    mark: Option<Square>,
}

impl Model for Parts {
    ghost use Rattle.krieg_board.specs.Pos.{Pos};

    ghost Value = { Pos };

    ghost view = { λ p. record { board = p.board; side = p.side; rights = p.rights; mark = p.mark } };
}

fn clock(number: u8, field: &[u8]) -> Result<(), FenFault>
    ensures { result ≡ spec.clock number field.now }
{
    if is_clock(field) {
        Ok(())
    } else {
        Err(FenFault::Field(number))
    }
}

fn clocks_at(half: &[u8], full: &[u8]) -> Result<(), FenFault>
    ensures { result ≡ spec.clocks_at half.now full.now }
{
    clock(5, half)?;
    clock(6, full)
}

fn parts_of(board: &[u8], side: &[u8], rights: &[u8], mark: &[u8]) -> Result<Parts, FenFault>
    ensures { result ≡ spec.parts_at board.now side.now rights.now mark.now }
{
    Ok(Parts {
        board: board_of(board).ok_or(FenFault::Field(1))?,
        side: side_of(side).ok_or(FenFault::Field(2))?,
        rights: rights_of(rights).ok_or(FenFault::Field(3))?,
        mark: mark_of(mark).ok_or(FenFault::Field(4))?,
    })
}

fn checked(parts: &Parts) -> Result<Position, FenFault>
    ensures { result ≡ spec.checked parts.now }
{
    match Position::of_bits(&parts.board, parts.side, parts.rights, parts.mark) {
        Ok(position) => Ok(position),
        Err(fault) => Err(FenFault::Bad(fault)),
    }
}

/// The first four fields, and what stands after them.
#[tactic(auto, using(crate::proofs::FieldCounts::counts))]
fn four_of(text: &[u8]) -> Option<(&[u8], &[u8], &[u8], &[u8], Option<&[u8]>)>
    ensures some { IfSome result (λ f. pieces 32 text.now
        ≡ f.0.now ∷ f.1.now ∷ f.2.now ∷ f.3.now ∷ pieces_left 32 (option_copied f.4)) }
    ensures none { IfNone result (length (pieces 32 text.now) < 4) }
{
    let (board, rest) = cut(b' ', text);
    let (side, rest) = cut(b' ', rest?);
    let (rights, rest) = cut(b' ', rest?);
    let (mark, rest) = cut(b' ', rest?);
    Some((board, side, rights, mark, rest))
}

/// The two fields, where there are two.
#[tactic(auto, using(crate::proofs::FieldCounts::counts))]
fn two_of(text: &[u8]) -> Option<(&[u8], &[u8])>
    ensures some { IfSome result (λ f. pieces 32 text.now ≡ f.0.now ∷ f.1.now ∷ []) }
    ensures none { IfNone result (length (pieces 32 text.now) ≢ 2) }
{
    let (half, rest) = cut(b' ', text);
    let (full, rest) = cut(b' ', rest?);
    if rest.is_none() {
        Some((half, full))
    } else {
        None
    }
}

fn read_four(board: &[u8], side: &[u8], rights: &[u8], mark: &[u8]) -> Result<Position, FenFault>
    ensures { result ≡ spec.position_at (board.now ∷ side.now ∷ rights.now ∷ mark.now ∷ []) }
{
    match parts_of(board, side, rights, mark) {
        Ok(parts) => checked(&parts),
        Err(fault) => Err(fault),
    }
}

fn read_six(
    board: &[u8],
    side: &[u8],
    rights: &[u8],
    mark: &[u8],
    half: &[u8],
    full: &[u8],
) -> Result<Position, FenFault>
    ensures { result ≡ spec.position_at
        (board.now ∷ side.now ∷ rights.now ∷ mark.now ∷ half.now ∷ full.now ∷ []) }
{
    match parts_of(board, side, rights, mark) {
        Ok(parts) => match clocks_at(half, full) {
            Ok(()) => checked(&parts),
            Err(fault) => Err(fault),
        },
        Err(fault) => Err(fault),
    }
}

#[tactic(auto, using(crate::proofs::FieldCounts::fields), unfolding(crate::specs::Fen::position_of))]
fn position_of(text: &[u8]) -> Result<Position, FenFault>
    ensures { result ≡ spec.position_of text.now }
{
    let Some((board, side, rights, mark, rest)) = four_of(text) else {
        return Err(FenFault::Fields);
    };
    let Some(clocks) = rest else {
        return read_four(board, side, rights, mark);
    };
    match two_of(clocks) {
        None => Err(FenFault::Fields),
        Some((half, full)) => read_six(board, side, rights, mark, half, full),
    }
}

/// The position that the text spells: four fields, or six of which the last two, the clocks, are dropped
/// (PGN standard, section 16.1).
///
/// `Fields` comes exactly where there are neither four nor six fields, `Field(n)` where the n-th field is
/// the first that is outside its grammar, and `Bad` where all fields are well formed and the position has
/// a fault, of which it carries the first.
#[tactic(auto, using(crate::proofs::FenTexts::again, crate::proofs::PositionSpellings::spellings))]
pub fn read_position(text: &[u8]) -> Result<Position, FenFault>
    ensures exact { result ≡ spec.position_of text.now }
    // What is read is spelled so, and what is spelled so is read.
    ensures found { IfOk result (λ p. Spells text.now p) }
    ensures only { (p : Pos) → Spells text.now p → result ≡ Ok p }
    // What is written of a position is read as that position.
    ensures again { (p : Pos) → IsValid p → text.now ≡ position_text p → result ≡ Ok p }
{
    position_of(text)
}
