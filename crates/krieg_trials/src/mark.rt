// The marks with which the lines of a case begin.

/// What a line gives to the next run.
#[derive(Clone, Copy)]
pub enum GivenMark {
    Line,
    Part,
    Return,
    Setting,
    White,
    Black,
    Send,
    SendPart,
    SeatFails,
    Dismiss,
}

/// What a line with a number gives to the next run.
#[derive(Clone, Copy)]
pub enum ManyMark {
    Lines,
    Leaves,
    Bushes,
}

/// What a line tells of the last run.
#[derive(Clone, Copy)]
pub enum ToldMark {
    Status,
    Out,
    OutThen,
    OutCut,
    OutInput,
    OutMore,
    Err,
    ErrCut,
    Seats,
}

/// What a line with a number tells of the last answer.
#[derive(Clone, Copy)]
pub enum CountMark {
    Many,
    Last,
    Lines,
    Bytes,
    Over,
    Sum,
    Ending,
}

/// What a line says.
#[derive(Clone, Copy)]
pub enum Mark {
    Nothing,
    Case,
    Run,
    Keep,
    GiveKept,
    GiveAnswer,
    GiveAgain,
    Given(GivenMark),
    GivenMany(ManyMark),
    Told(ToldMark),
    ToldCount(CountMark),
}

static MARKS: [(&str, Mark); 40] = [
    ("", Mark::Nothing),
    ("#", Mark::Nothing),
    ("case", Mark::Case),
    ("run", Mark::Run),
    ("keep", Mark::Keep),
    ("in-kept", Mark::GiveKept),
    ("in-answer", Mark::GiveAnswer),
    ("in-again", Mark::GiveAgain),
    ("in", Mark::Given(GivenMark::Line)),
    ("in-part", Mark::Given(GivenMark::Part)),
    ("in-return", Mark::Given(GivenMark::Return)),
    ("set", Mark::Given(GivenMark::Setting)),
    ("white", Mark::Given(GivenMark::White)),
    ("black", Mark::Given(GivenMark::Black)),
    ("send", Mark::Given(GivenMark::Send)),
    ("send-part", Mark::Given(GivenMark::SendPart)),
    ("seat-fails", Mark::Given(GivenMark::SeatFails)),
    ("dismiss", Mark::Given(GivenMark::Dismiss)),
    ("in-many", Mark::GivenMany(ManyMark::Lines)),
    ("in-leaves", Mark::GivenMany(ManyMark::Leaves)),
    ("in-bushes", Mark::GivenMany(ManyMark::Bushes)),
    ("status", Mark::Told(ToldMark::Status)),
    ("out", Mark::Told(ToldMark::Out)),
    ("out-then", Mark::Told(ToldMark::OutThen)),
    ("out-cut", Mark::Told(ToldMark::OutCut)),
    ("out-input", Mark::Told(ToldMark::OutInput)),
    ("out-more", Mark::Told(ToldMark::OutMore)),
    ("err", Mark::Told(ToldMark::Err)),
    ("err-cut", Mark::Told(ToldMark::ErrCut)),
    ("sits", Mark::Told(ToldMark::Seats)),
    ("waits", Mark::Told(ToldMark::Seats)),
    ("relieved", Mark::Told(ToldMark::Seats)),
    ("heard", Mark::Told(ToldMark::Seats)),
    ("out-many", Mark::ToldCount(CountMark::Many)),
    ("out-last", Mark::ToldCount(CountMark::Last)),
    ("out-lines", Mark::ToldCount(CountMark::Lines)),
    ("out-bytes", Mark::ToldCount(CountMark::Bytes)),
    ("out-over", Mark::ToldCount(CountMark::Over)),
    ("out-sum", Mark::ToldCount(CountMark::Sum)),
    ("out-ending", Mark::ToldCount(CountMark::Ending)),
];

/// What a line says that begins with this word, or none where it is no mark.
pub fn mark_of(word: &str) -> Option<Mark> {
    for (name, mark) in &MARKS {
        if *name == word {
            return Some(*mark);
        }
    }
    None
}
