ghost use Rattle.std.specs.Prelude.{◌≡◌, ◌<◌};
ghost use Rattle.krieg_text.specs.Writing.{PutsText};
ghost use Rattle.krieg_record.specs.NotationText as spec;

use crate::notation::{CheckSuffix, Movement, Notation, Officer, OfficerMove, PawnMove};
use krieg_board::{NoMemory, Promo};
use krieg_fen::put_square;
use krieg_moves::Wing;
use krieg_text::Text;

fn letter(officer: Officer) -> u8
    ensures { result ≡ spec.letter officer }
{
    match officer {
        Officer::King => b'K',
        Officer::Queen => b'Q',
        Officer::Rook => b'R',
        Officer::Bishop => b'B',
        Officer::Knight => b'N',
    }
}

fn put_file(file: Option<u8>, text: &mut Text) -> Result<(), NoMemory>
    requires { spec.IsCoordinate file }
    ensures { PutsText result text.old text.new (spec.file_text file) }
{
    match file {
        None => Ok(()),
        Some(file) => text.byte(b'a' + file),
    }
}

fn put_rank(rank: Option<u8>, text: &mut Text) -> Result<(), NoMemory>
    requires { spec.IsCoordinate rank }
    ensures { PutsText result text.old text.new (spec.rank_text rank) }
{
    match rank {
        None => Ok(()),
        Some(rank) => text.byte(b'1' + rank),
    }
}

fn capture_text(captures: bool) -> &'static [u8]
    ensures { result.now ≡ spec.capture_text captures }
{
    if captures { b"x" } else { b"" }
}

/// Adds what stands behind an officer's letter.
fn put_officer(o: &OfficerMove, text: &mut Text) -> Result<(), NoMemory>
    requires file { spec.IsCoordinate o.now.origin.file }
    requires rank { spec.IsCoordinate o.now.origin.rank }
    ensures { PutsText result text.old text.new (spec.officer_text o.now) }
{
    put_file(o.origin.file, text)?;
    put_rank(o.origin.rank, text)?;
    text.put(capture_text(o.captures))?;
    put_square(o.to, text)
}

fn promotion_text(promo: Promo) -> &'static [u8]
    ensures { result.now ≡ spec.promotion_text promo }
{
    match promo {
        Promo::Plain => b"",
        Promo::Queen => b"=Q",
        Promo::Rook => b"=R",
        Promo::Bishop => b"=B",
        Promo::Knight => b"=N",
    }
}

fn put_pawn_capture(file: Option<u8>, text: &mut Text) -> Result<(), NoMemory>
    requires { spec.IsCoordinate file }
    ensures { PutsText result text.old text.new (spec.pawn_capture_text file) }
{
    match file {
        None => Ok(()),
        Some(file) => text.put(&[b'a' + file, b'x']),
    }
}

fn put_pawn(w: &PawnMove, text: &mut Text) -> Result<(), NoMemory>
    requires { spec.IsCoordinate w.now.file }
    ensures { PutsText result text.old text.new (spec.pawn_text w.now) }
{
    put_pawn_capture(w.file, text)?;
    put_square(w.to, text)?;
    text.put(promotion_text(w.promo))
}

fn put_movement(movement: &Movement, text: &mut Text) -> Result<(), NoMemory>
    requires { spec.IsMovement movement.now }
    ensures { PutsText result text.old text.new (spec.movement_text movement.now) }
{
    match movement {
        Movement::Castles(Wing::Short) => text.put(b"O-O"),
        Movement::Castles(Wing::Long) => text.put(b"O-O-O"),
        Movement::ByOfficer(o) => {
            text.byte(letter(o.officer))?;
            put_officer(o, text)
        }
        Movement::ByPawn(w) => put_pawn(w, text),
    }
}

fn ending_text(ending: CheckSuffix) -> &'static [u8]
    ensures { result.now ≡ spec.ending_text ending }
{
    match ending {
        CheckSuffix::Nothing => b"",
        CheckSuffix::Check => b"+",
        CheckSuffix::Mate => b"#",
    }
}

/// Adds the text that says this.
#[tactic(auto, unfolding(crate::specs::NotationText::notation_text))]
pub(crate) fn put_notation(n: &Notation, text: &mut Text) -> Result<(), NoMemory>
    requires { spec.IsMovement n.now.movement }
    ensures { PutsText result text.old text.new (spec.notation_text n.now) }
{
    put_movement(&n.movement, text)?;
    text.put(ending_text(n.ending))
}
