ghost use Rattle.std.specs.Prelude.{◌≡◌};
ghost use Rattle.krieg_make.specs.Start as spec;

use krieg_board::Position;
use krieg_fen::read_position;

/// The position in which a game begins (FIDE Laws, article 2.3).
#[tactic(auto, using(crate::proofs::StartText::reading))]
pub(crate) fn start_position() -> Position
    ensures { result ≡ spec.start_position }
{
    match read_position(b"rnbqkbnr/pppppppp/8/8/8/8/PPPPPPPP/RNBQKBNR w KQkq -") {
        Ok(start) => start,
        Err(_) => unreachable!(),
    }
}
