ghost use Rattle.std.specs.Prelude.{◌≡◌};
ghost use Rattle.krieg_text.specs.declared.fault.TextFault.TheVariants.{NoMemory as OutOfMemory};

use krieg_faults::{BadPosition, NoMemory};
use std::alloc::{AllocError, AllocFailed};
use thiserror::Error;

/// What is wrong with a line. Where two kinds hold for one line, the order is: syntax, version, count,
/// large, deep, position, differs, out of place.
#[derive(Clone, Copy, Debug, PartialEq, Eq, Error)]
pub enum TextKind {
    /// The format is the one that is read, and its version is another.
    #[error("another version of the format")]
    Version,
    /// The line has none of the forms that its place has, or a line is missing or one too many.
    #[error("none of the forms that its place has")]
    Syntax,
    /// A number is a plain decimal outside its range.
    #[error("a number outside its range")]
    Count,
    /// The line spells a position that is not valid.
    #[error("{0}")]
    Position(BadPosition),
    /// The position's hand differs from that of the first listed position.
    #[error("a position with another hand than the first")]
    Differs,
    /// The line has a form of the format and may not stand in this place.
    #[error("a form that may not stand in this place")]
    OutOfPlace,
    /// A node has too many nodes above it.
    #[error("too many nodes above a node")]
    Deep,
    /// The text has too many nodes.
    #[error("more than a text may have in all")]
    Large,
}

/// Why a text was not read.
#[derive(Clone, Copy, Debug, PartialEq, Eq, Error)]
pub enum TextFault {
    /// The first line that is not accepted, from 1 on, and what is wrong with it. Where all lines are
    /// accepted and the text is not complete, it is the number of lines plus 1, with `Syntax`.
    #[error("line {line}: {kind}")]
    At { line: usize, kind: TextKind },
    /// Memory was not found.
    #[error("memory was not found")]
    NoMemory,
}

impl From<AllocError> for TextFault {
    ghost from_gives = { λ _ e. e ≡ OutOfMemory };

    fn from(_error: AllocError) -> TextFault {
        TextFault::NoMemory
    }
}

impl<T: Drop> From<AllocFailed<T>> for TextFault {
    ghost from_gives = { λ _ e. e ≡ OutOfMemory };

    fn from(_error: AllocFailed<T>) -> TextFault {
        TextFault::NoMemory
    }
}

impl From<NoMemory> for TextFault {
    ghost from_gives = { λ _ e. e ≡ OutOfMemory };

    fn from(_error: NoMemory) -> TextFault {
        TextFault::NoMemory
    }
}
