ghost use Rattle.std.specs.Prelude.{◌≡◌, map, codes, ◌∷◌, []};
ghost use Rattle.krieg_text.specs.Decimals.{number_text};
ghost use Rattle.krieg_fen.specs.Forms as forms;
ghost use Rattle.krieg_fen.specs.ListText as spec;
ghost use Rattle.krieg_text.specs.Writing.{PutsLines, alone};

use crate::board_text::Ranks;
use crate::fen_text::{put_position, put_with};
use crate::forms::side_line;
use krieg_board::{NoMemory, Position, Side};
use krieg_text::{Text, put_number};

/// Adds the line of the side.
pub fn put_side_line(side: Side, text: &mut Text) -> Result<(), NoMemory>
    ensures { PutsLines result text.old text.new (alone (forms.side_line side) ∷ []) }
{
    text.line(side_line(side))
}

/// Adds the line of the number of positions.
pub fn put_list_line(n: usize, text: &mut Text) -> Result<(), NoMemory>
    ensures { PutsLines result text.old text.new ((codes "list " ∷ number_text n ∷ []) ∷ []) }
{
    text.put(b"list ")?;
    put_number(n as u64, text)?;
    text.end_line()
}

/// Adds the lines that stand before `n` positions: whose text it is, and how many are listed.
pub fn put_list_head(side: Side, n: usize, text: &mut Text) -> Result<(), NoMemory>
    ensures { PutsLines result text.old text.new (spec.head_lines side n) }
{
    put_side_line(side, text)?;
    put_list_line(n, text)
}

/// Adds the line of a position in its written form.
pub fn put_listed(p: &Position, text: &mut Text) -> Result<(), NoMemory>
    ensures { PutsLines result text.old text.new (spec.position_line p.now ∷ []) }
{
    put_position(p, text)?;
    text.end_line()
}

/// Adds the line of a position in its written form, as `put_listed` does, after that of another board: of
/// its ranks, only those that differ are spelled.
pub fn put_next(p: &Position, ranks: &mut Ranks, text: &mut Text) -> Result<(), NoMemory>
    ensures line { PutsLines result text.old text.new (spec.position_line p.now ∷ []) }
    ensures ranks { ranks.new ≡ p.now.board }
{
    ranks.renew(p.bits());
    put_with(p, ranks, text)?;
    text.end_line()
}

/// Adds the line of each position in its written form.
#[tactic(auto, using(krieg_text::proofs::Writings::writings))]
pub fn put_list(list: &[Position], text: &mut Text) -> Result<(), NoMemory>
    ensures { PutsLines result text.old text.new (map spec.position_line list.now) }
{
    let mut ranks = Ranks::new();
    for p in list {
        put_next(p, &mut ranks, text)?;
    }
    Ok(())
}

/// Adds the head and the lines of the positions.
#[tactic(auto, using(krieg_text::proofs::Writings::writings))]
pub fn put_listing(side: Side, list: &[Position], text: &mut Text) -> Result<(), NoMemory>
    ensures { PutsLines result text.old text.new (spec.listing_lines side list.now) }
{
    put_list_head(side, list.len(), text)?;
    put_list(list, text)
}
