ghost use Rattle.std.specs.Prelude.{◌≡◌, ◌∷◌, [], if◌then◌else◌};
ghost use Rattle.krieg_board.specs.Validity.{IsValid};
ghost use Rattle.krieg_fen.specs.FenText as spec;
ghost use Rattle.krieg_fen.specs.FenText.{position_text};
ghost use Rattle.krieg_text.specs.Writing.{PutsText, Appends};

use crate::board_text::Ranks;
use crate::moves::put_square;
use krieg_board::{NoMemory, Position, Rights, Side, Square};
use krieg_text::Text;

fn side_letter(side: Side) -> &'static [u8]
    ensures { result.now ≡ spec.side_text side }
{
    match side {
        Side::White => b"w",
        Side::Black => b"b",
    }
}

/// Adds the byte where the right is held.
fn put_right(held: bool, letter: u8, text: &mut Text) -> Result<(), NoMemory>
    ensures { PutsText result text.old text.new (if held then letter ∷ [] else []) }
{
    if held {
        text.byte(letter)?;
    }
    Ok(())
}

/// Adds the letters of the rights that are held.
fn put_held(rights: Rights, text: &mut Text) -> Result<(), NoMemory>
    ensures { PutsText result text.old text.new (spec.held_text rights) }
{
    put_right(rights.white_short, b'K', text)?;
    put_right(rights.white_long, b'Q', text)?;
    put_right(rights.black_short, b'k', text)?;
    put_right(rights.black_long, b'q', text)
}

/// Adds the rights, or a dash where none is held.
#[tactic(auto, unfolding(crate::specs::FenText::rights_text))]
fn put_rights(rights: Rights, text: &mut Text) -> Result<(), NoMemory>
    ensures { PutsText result text.old text.new (spec.rights_text rights) }
{
    if rights.white_short || rights.white_long || rights.black_short || rights.black_long {
        put_held(rights, text)
    } else {
        text.byte(b'-')
    }
}

/// Adds the mark, or a dash where there is none.
fn put_mark(mark: Option<Square>, text: &mut Text) -> Result<(), NoMemory>
    ensures { PutsText result text.old text.new (spec.mark_text mark) }
{
    match mark {
        Some(square) => put_square(square, text),
        None => text.byte(b'-'),
    }
}

/// Adds the side to move, the rights and the mark, each after a space.
#[tactic(auto, unfolding(crate::specs::FenText::state_text))]
fn put_state(
    side: Side,
    rights: Rights,
    mark: Option<Square>,
    text: &mut Text,
) -> Result<(), NoMemory>
    ensures { PutsText result text.old text.new (spec.state_text side rights mark) }
{
    text.byte(b' ')?;
    text.put(side_letter(side))?;
    text.byte(b' ')?;
    put_rights(rights, text)?;
    text.byte(b' ')?;
    put_mark(mark, text)
}

/// Adds the position, of whose board these are the ranks.
#[tactic(auto, unfolding(crate::specs::FenText::position_text))]
pub(crate) fn put_with(p: &Position, ranks: &Ranks, text: &mut Text) -> Result<(), NoMemory>
    requires { ranks.now ≡ p.now.board }
    ensures { PutsText result text.old text.new (position_text p.now) }
{
    text.put(ranks.text().bytes())?;
    put_state(p.side(), p.rights(), p.mark(), text)
}

/// Adds the position in its one written form: the board, the side to move, the rights and the mark,
/// each run of empty squares as one digit (PGN standard, section 16.1, without the two clocks).
pub fn put_position(p: &Position, text: &mut Text) -> Result<(), NoMemory>
    ensures { PutsText result text.old text.new (position_text p.now) }
{
    put_with(p, &Ranks::of(p.bits()), text)
}

/// Appends the position in its one written form, as `put_position` does. Where memory runs out, nothing
/// is appended.
pub fn write_position(p: &Position, text: &mut Vec<u8>) -> Result<(), NoMemory>
    ensures { Appends result text.old.items text.new.items (position_text p.now) }
{
    let mut all = Text::after(text);
    let done = put_position(p, &mut all);
    all.end(done, text)
}
