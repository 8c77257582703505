ghost use Rattle.std.specs.Prelude.{◌≡◌};
ghost use Rattle.krieg_outcome.specs.Parts.{as_whole, as_pieces};

use crate::ending::Ending;
use krieg_refutefile::Pieces;

/// What a command answers.
#[derive(Drop)]
pub enum CommandAnswer {
    /// One text.
    Whole(Vec<u8>),
    /// A text in pieces.
    InPieces(Pieces),
}

/// The text as an answer.
pub(crate) fn whole(text: Result<Vec<u8>, Ending>) -> Result<CommandAnswer, Ending>
    ensures { result ≡ as_whole text }
{
    Ok(CommandAnswer::Whole(text?))
}

/// The text in pieces as an answer.
pub(crate) fn in_pieces(text: Result<Pieces, Ending>) -> Result<CommandAnswer, Ending>
    ensures { result ≡ as_pieces text }
{
    Ok(CommandAnswer::InPieces(text?))
}
