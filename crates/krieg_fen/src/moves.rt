ghost use Rattle.std.specs.Prelude.{◌≡◌, ◌<◌, ℕ, IfOk, IfSome, Ok, Some};
ghost use Rattle.krieg_fen.specs.MoveText as spec;
ghost use Rattle.krieg_fen.specs.MoveText.{move_text, square_text, IsOnBoard};
ghost use Rattle.krieg_text.specs.Outcomes.{Reads};
ghost use Rattle.krieg_text.specs.Writing.{PutsText, Appends};
ghost use Rattle.krieg_board.specs.declared.men.Move.{Move as BoardMove};

use krieg_board::{Move, NoMemory, Promo, Square, square_at};
use krieg_text::Text;
use thiserror::Error;

/// The text is no move text.
#[derive(Clone, Copy, Debug, Error)]
#[error("no move")]
pub struct MoveFault;

/// The square that a letter from `a` to `h` and a digit from `1` to `8` name.
pub fn square_of(file: u8, rank: u8) -> Option<Square>
    ensures { result ≡ spec.square_of file rank }
{
    if (b'a'..=b'h').contains(&file) && (b'1'..=b'8').contains(&rank) {
        Square::new(square_at(file - b'a', rank - b'1'))
    } else {
        None
    }
}

/// The square that the text names.
#[tactic(auto, using(crate::proofs::MoveTexts::named))]
pub fn read_square(text: &[u8]) -> Option<Square>
    ensures exact { result ≡ spec.square_named text.now }
    // What is read is spelled so, and what is spelled so is read.
    ensures found { IfSome result (λ s. (s < 64) × (text.now ≡ square_text s)) }
    ensures only { (s : ℕ) → s < 64 → text.now ≡ square_text s → result ≡ Some s }
{
    match text {
        [file, rank] => square_of(*file, *rank),
        _ => None,
    }
}

fn promo_of(letter: u8) -> Option<Promo>
    ensures { result ≡ spec.promo_of letter }
{
    match letter {
        b'q' => Some(Promo::Queen),
        b'r' => Some(Promo::Rook),
        b'b' => Some(Promo::Bishop),
        b'n' => Some(Promo::Knight),
        _ => None,
    }
}

fn move_with(from: Option<Square>, to: Option<Square>, promo: Option<Promo>) -> Option<Move>
    ensures { result ≡ spec.move_with from to promo }
{
    Some(Move {
        from: from?,
        to: to?,
        promo: promo?,
    })
}

fn move_of(text: &[u8]) -> Option<Move>
    ensures { result ≡ spec.move_of text.now }
{
    match text {
        [a, b, c, d] => move_with(square_of(*a, *b), square_of(*c, *d), Some(Promo::Plain)),
        [a, b, c, d, e] => move_with(square_of(*a, *b), square_of(*c, *d), promo_of(*e)),
        _ => None,
    }
}

/// The move that the text spells: a from-square, a to-square and, where a pawn is promoted, one of the
/// letters `q`, `r`, `b` and `n`. Each such text is a move, also where it is legal nowhere, as `a1a1`.
#[tactic(auto, using(crate::proofs::MoveTexts::moves))]
pub fn read_move(text: &[u8]) -> Result<Move, MoveFault>
    ensures exact { Reads result (spec.move_of text.now) }
    // What is read is spelled so, and what is spelled so is read.
    ensures found { IfOk result (λ m. IsOnBoard m × (text.now ≡ move_text m)) }
    ensures only { (m : BoardMove) → IsOnBoard m → text.now ≡ move_text m → result ≡ Ok m }
{
    move_of(text).ok_or(MoveFault)
}

fn promo_text(promo: Promo) -> &'static [u8]
    ensures { result.now ≡ spec.promo_text promo }
{
    match promo {
        Promo::Plain => b"",
        Promo::Queen => b"q",
        Promo::Rook => b"r",
        Promo::Bishop => b"b",
        Promo::Knight => b"n",
    }
}

/// Adds the name of the square.
pub fn put_square(square: Square, text: &mut Text) -> Result<(), NoMemory>
    ensures { PutsText result text.old text.new (square_text square) }
{
    let number = square.number();
    text.put(&[b'a' + number % 8, b'1' + number / 8])
}

/// Adds the text of the move.
#[tactic(auto, unfolding(crate::specs::MoveText::move_text))]
pub fn put_move(mv: Move, text: &mut Text) -> Result<(), NoMemory>
    ensures { PutsText result text.old text.new (move_text mv) }
{
    put_square(mv.from, text)?;
    put_square(mv.to, text)?;
    text.put(promo_text(mv.promo))
}

/// Appends the text of the move. Where memory runs out, nothing is appended.
pub fn write_move(mv: Move, text: &mut Vec<u8>) -> Result<(), NoMemory>
    ensures { Appends result text.old.items text.new.items (move_text mv) }
{
    let mut all = Text::after(text);
    let done = put_move(mv, &mut all);
    all.end(done, text)
}
