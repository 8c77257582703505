ghost use Rattle.std.specs.Prelude.{◌≡◌, IfSome, Some};
ghost use Rattle.krieg_words.specs.Dialects.{dialect_rules, dialect_text, dialect_of};
ghost use Rattle.krieg_words.specs.declared.dialects.Dialect.{Dialect as SomeDialect};

/// How much the umpire tells.
#[derive(Clone, Copy)]
pub enum Dialect {
    /// All of the words.
    Wild16,
    /// Of pawn tries only whether there are any.
    Anytry,
    /// Of a capture only its square, of checks only whether there is one, of pawn tries nothing.
    Plain,
}

/// How the man that was captured is told.
#[derive(Clone, Copy)]
pub enum MenTold {
    /// A pawn is told apart from a piece.
    Apart,
    /// Every man is told alike.
    Alike,
}

/// How checks are told.
#[derive(Clone, Copy)]
pub enum ChecksTold {
    /// With their kinds.
    ByKind,
    /// Only that there is one.
    Bare,
}

/// What is told of pawn tries.
#[derive(Clone, Copy)]
pub enum TriesTold {
    /// Their number.
    Number,
    /// Only that there are any.
    Any,
    /// Nothing.
    Untold,
}

/// The version of the texts in a dialect.
#[derive(Clone, Copy)]
pub enum TextVersion {
    /// Version 1, which names no dialect.
    First,
    /// Version 2, which names the dialect in its second line.
    Second,
}

/// What a dialect tells, and how it is written.
#[derive(Clone, Copy)]
pub struct DialectRules {
    pub men: MenTold,
    pub checks: ChecksTold,
    pub tries: TriesTold,
    pub version: TextVersion,
}

/// The dialect of a text of version 1, which names none.
pub const UNNAMED_DIALECT: Dialect = Dialect::Wild16;

/// What the dialect tells, and how it is written.
pub fn dialect_rules(d: Dialect) -> DialectRules
    ensures { result ≡ dialect_rules d }
{
    match d {
        Dialect::Wild16 => DialectRules {
            men: MenTold::Apart,
            checks: ChecksTold::ByKind,
            tries: TriesTold::Number,
            version: TextVersion::First,
        },
        Dialect::Anytry => DialectRules {
            men: MenTold::Apart,
            checks: ChecksTold::ByKind,
            tries: TriesTold::Any,
            version: TextVersion::Second,
        },
        Dialect::Plain => DialectRules {
            men: MenTold::Alike,
            checks: ChecksTold::Bare,
            tries: TriesTold::Untold,
            version: TextVersion::Second,
        },
    }
}

/// The name of the dialect: `wild16`, `anytry` or `plain`.
pub fn dialect_name(d: Dialect) -> &'static [u8]
    ensures { result.now ≡ dialect_text d }
{
    match d {
        Dialect::Wild16 => b"wild16",
        Dialect::Anytry => b"anytry",
        Dialect::Plain => b"plain",
    }
}

/// The dialect of that name. `None` exactly where the text is no dialect's name.
#[tactic(auto, using(crate::proofs::DialectNames::dialects))]
pub fn read_dialect(text: &[u8]) -> Option<Dialect>
    ensures exact { result ≡ dialect_of text.now }
    // What is read is spelled so, and what is spelled so is read.
    ensures found { IfSome result (λ d. text.now ≡ dialect_text d) }
    ensures only { (d : SomeDialect) → text.now ≡ dialect_text d → result ≡ Some d }
{
    if text == dialect_name(Dialect::Wild16) {
        Some(Dialect::Wild16)
    } else if text == dialect_name(Dialect::Anytry) {
        Some(Dialect::Anytry)
    } else if text == dialect_name(Dialect::Plain) {
        Some(Dialect::Plain)
    } else {
        None
    }
}
