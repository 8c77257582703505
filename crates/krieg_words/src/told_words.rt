ghost use Rattle.std.specs.Prelude.{◌≡◌};
ghost use Rattle.krieg_words.specs.ToldWords as spec;

use crate::dialects::{ChecksTold, Dialect, MenTold, TriesTold, dialect_rules};
use crate::kinds::{Kinds, NO_KINDS};
use crate::words::{Took, Words};

/// A check without its kinds is told as one on a file.
pub const SOME_KIND: Kinds = Kinds {
    knight: false,
    short: false,
    long: false,
    rank: false,
    file: true,
};

/// What is told of a capture.
pub(crate) fn took_told(men: MenTold, took: &Took) -> Took
    ensures { result ≡ spec.took_told men took.now }
{
    match (men, took) {
        (MenTold::Alike, Took::Pawn(s)) => Took::Piece(*s),
        _ => *took,
    }
}

/// What is told of checks.
pub(crate) fn checks_told(checks: ChecksTold, kinds: Kinds) -> Kinds
    ensures { result ≡ spec.checks_told checks kinds }
{
    match checks {
        ChecksTold::ByKind => kinds,
        ChecksTold::Bare => {
            if kinds.bits() == 0 {
                NO_KINDS
            } else {
                SOME_KIND
            }
        }
    }
}

/// What is told of pawn tries.
fn tries_told(tries: TriesTold, n: u8) -> u8
    ensures { result ≡ spec.tries_told tries n }
{
    match tries {
        TriesTold::Number => n,
        TriesTold::Any => { if n == 0 { 0 } else { 1 } }
        TriesTold::Untold => 0,
    }
}

fn words_told(d: Dialect, w: Words) -> Words
    ensures { result ≡ spec.told d w }
{
    let dialect = dialect_rules(d);
    Words {
        end: w.end,
        took: took_told(dialect.men, &w.took),
        checks: checks_told(dialect.checks, w.checks),
        tries: tries_told(dialect.tries, w.tries),
    }
}

/// The words as the dialect tells them. Words fit a dialect where this leaves them as they are.
pub fn told(d: Dialect, w: Words) -> Words
    ensures value { result ≡ spec.told d w }
    ensures fits { spec.Fits d result }
{
    words_told(d, w)
}
