// The marks with which questions begin, in kinds by what stands behind them.

/// What is asked of the position that stands, or of its board, with nothing more.
#[derive(Clone, Copy)]
pub enum PlainMark {
    Moves,
    Listed,
    State,
    Guard,
    Checks,
    Opens,
    Tries,
}

/// What is asked of a move.
#[derive(Clone, Copy)]
pub enum MoveMark {
    Legal,
    After,
    Passed,
    Words,
    San,
}

/// What is asked of a text.
#[derive(Clone, Copy)]
pub enum TextMark {
    Fault,
    Written,
    Said,
    Line,
    ToldLine,
    Unsan,
}

/// Which squares are told by a square alone.
#[derive(Clone, Copy)]
pub enum AloneMark {
    Knight,
    King,
    File,
    Rank,
    Rising,
    Falling,
}

/// Which squares are told by a side and a square.
#[derive(Clone, Copy)]
pub enum SideMark {
    Attackers,
    PawnAttacks,
    PawnSteps,
}

/// Which other squares are asked for.
#[derive(Clone, Copy)]
pub enum SquaresMark {
    Numbered,
    Men,
    Reach,
    Attacked,
    Pinned,
    Between,
    /// On straight lines, or else on diagonals.
    Lines(bool),
}

/// What else is asked.
#[derive(Clone, Copy)]
pub enum OtherMark {
    Set,
    On,
    Longer,
    Kinds,
    Targets,
    /// Each move is made, or the last ones are counted alone.
    Perft(bool),
    SameHand,
    Units,
    Told,
    Ascending,
}

/// What a question asks.
#[derive(Clone, Copy)]
pub enum Mark {
    Plain(PlainMark),
    OfMove(MoveMark),
    OfText(TextMark),
    Alone(AloneMark),
    BySide(SideMark),
    Squares(SquaresMark),
    Other(OtherMark),
    /// How many words the answer of the question behind it has.
    Count,
    /// The question behind it, so many times.
    Times,
    /// It is no mark.
    Unread,
}

static MARKS: [(&str, Mark); 48] = [
    ("count", Mark::Count),
    ("times", Mark::Times),
    ("moves", Mark::Plain(PlainMark::Moves)),
    ("listed", Mark::Plain(PlainMark::Listed)),
    ("state", Mark::Plain(PlainMark::State)),
    ("guard", Mark::Plain(PlainMark::Guard)),
    ("checks", Mark::Plain(PlainMark::Checks)),
    ("opens", Mark::Plain(PlainMark::Opens)),
    ("tries", Mark::Plain(PlainMark::Tries)),
    ("legal", Mark::OfMove(MoveMark::Legal)),
    ("after", Mark::OfMove(MoveMark::After)),
    ("passed", Mark::OfMove(MoveMark::Passed)),
    ("words", Mark::OfMove(MoveMark::Words)),
    ("san", Mark::OfMove(MoveMark::San)),
    ("fault", Mark::OfText(TextMark::Fault)),
    ("written", Mark::OfText(TextMark::Written)),
    ("said", Mark::OfText(TextMark::Said)),
    ("line", Mark::OfText(TextMark::Line)),
    ("told-line", Mark::OfText(TextMark::ToldLine)),
    ("unsan", Mark::OfText(TextMark::Unsan)),
    ("squares", Mark::Squares(SquaresMark::Numbered)),
    ("men", Mark::Squares(SquaresMark::Men)),
    ("reach", Mark::Squares(SquaresMark::Reach)),
    ("attacked", Mark::Squares(SquaresMark::Attacked)),
    ("pinned", Mark::Squares(SquaresMark::Pinned)),
    ("between", Mark::Squares(SquaresMark::Between)),
    ("straight", Mark::Squares(SquaresMark::Lines(true))),
    ("diagonal", Mark::Squares(SquaresMark::Lines(false))),
    ("attackers", Mark::BySide(SideMark::Attackers)),
    ("pawn-attacks", Mark::BySide(SideMark::PawnAttacks)),
    ("pawn-steps", Mark::BySide(SideMark::PawnSteps)),
    ("knight", Mark::Alone(AloneMark::Knight)),
    ("king", Mark::Alone(AloneMark::King)),
    ("file", Mark::Alone(AloneMark::File)),
    ("rank", Mark::Alone(AloneMark::Rank)),
    ("rising", Mark::Alone(AloneMark::Rising)),
    ("falling", Mark::Alone(AloneMark::Falling)),
    ("set", Mark::Other(OtherMark::Set)),
    ("on", Mark::Other(OtherMark::On)),
    ("longer", Mark::Other(OtherMark::Longer)),
    ("kinds", Mark::Other(OtherMark::Kinds)),
    ("targets", Mark::Other(OtherMark::Targets)),
    ("perft", Mark::Other(OtherMark::Perft(false))),
    ("perft-by-count", Mark::Other(OtherMark::Perft(true))),
    ("same-hand", Mark::Other(OtherMark::SameHand)),
    ("units", Mark::Other(OtherMark::Units)),
    ("told", Mark::Other(OtherMark::Told)),
    ("ascending", Mark::Other(OtherMark::Ascending)),
];

/// What the table has beside the word, or nothing where the word is not there.
pub fn found<T: Copy>(table: &[(&str, T)], word: &str) -> Option<T> {
    for (name, what) in table {
        if *name == word {
            return Some(*what);
        }
    }
    None
}

/// What a question asks that begins with this word.
pub fn mark_of(word: &str) -> Mark {
    found(&MARKS, word).unwrap_or(Mark::Unread)
}
