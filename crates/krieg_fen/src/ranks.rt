ghost use Rattle.std.specs.Prelude.{◌≡◌, ◌<◌, ◌≤◌, ◌-◌, take, drop, replicate, IfSome, IfNone, None, Some};
ghost use Rattle.krieg_fen.specs.FenText.{rank_at};
ghost use Rattle.krieg_fen.specs.Letters as letters;
ghost use Rattle.krieg_fen.specs.Ranks as spec;
ghost use Rattle.krieg_fen.specs.Ranks.{KeepsOthers};

use krieg_board::{Bits, Kind, Man, Side};

fn man(side: Side, kind: Kind) -> Option<Man>
    ensures { result ≡ letters.man_as side (Some kind) }
{
    Some(Man { side, kind })
}

/// The man whose letter this is.
fn man_of(letter: u8) -> Option<Man>
    ensures { result ≡ letters.man_of letter }
{
    match letter {
        b'P' => man(Side::White, Kind::Pawn),
        b'N' => man(Side::White, Kind::Knight),
        b'B' => man(Side::White, Kind::Bishop),
        b'R' => man(Side::White, Kind::Rook),
        b'Q' => man(Side::White, Kind::Queen),
        b'K' => man(Side::White, Kind::King),
        b'p' => man(Side::Black, Kind::Pawn),
        b'n' => man(Side::Black, Kind::Knight),
        b'b' => man(Side::Black, Kind::Bishop),
        b'r' => man(Side::Black, Kind::Rook),
        b'q' => man(Side::Black, Kind::Queen),
        b'k' => man(Side::Black, Kind::King),
        _ => None,
    }
}

/// Puts what the byte stands for after the first `file` squares of the rank, where there is room, and says
/// how many squares are filled then.
fn put(bits: &mut Bits, rank: u8, file: u8, b: u8) -> Option<u8>
    requires rank { rank < 8 }
    requires file { file ≤ 8 }
    requires free { drop file (rank_at bits.old rank) ≡ replicate (8 - file) None }
    ensures others { KeepsOthers bits.old bits.new rank }
    ensures some { IfSome result (λ next. (next ≤ 8)
        × (drop next (rank_at bits.new rank) ≡ replicate (8 - next) None)
        × spec.AddsSquares (spec.squares_at b) (take file (rank_at bits.old rank))
        (take next (rank_at bits.new rank))) }
    ensures none { IfNone result (spec.FailsAbove (8 - file) (spec.squares_at b)) }
{
    if (b'1'..=b'8').contains(&b) {
        let next = file + (b - b'0');
        if next > 8 { None } else { Some(next) }
    } else if file < 8 {
        let man = man_of(b)?;
        bits.put(8 * rank + file, man);
        Some(file + 1)
    } else {
        None
    }
}

/// The board that the first field of a position spells.
pub(crate) fn board_of(field: &[u8]) -> Option<Bits>
    ensures { result ≡ spec.board_of field.now }
{
    let mut bits = Bits::empty();
    let mut rank = 7;
    let mut file = 0;
    for b in field {
        if *b != b'/' {
            file = put(&mut bits, rank, file, *b)?;
        } else if file == 8 && rank > 0 {
            rank -= 1;
            file = 0;
        } else {
            return None;
        }
    }
    if rank == 0 && file == 8 {
        Some(bits)
    } else {
        None
    }
}
