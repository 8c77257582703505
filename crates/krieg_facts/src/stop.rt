// Why a line is not answered.

use krieg_board::NoMemory;

/// Why a line is not answered.
#[derive(Clone, Copy)]
pub enum LineStop {
    /// Memory was not found.
    Memory,
    /// Part of the line has none of the forms of its place, or what it asks for does not stand.
    Unread,
}

/// The first stop that came, where one came, so that calls which may be stopped need no result.
#[derive(Clone, Copy)]
pub struct FirstStop {
    pub first: Option<LineStop>,
}

impl FirstStop {
    /// Nothing was stopped yet.
    pub fn none() -> FirstStop {
        FirstStop { first: None }
    }

    /// Notes a stop, where one came. The first one stays.
    pub fn note(&mut self, stop: Option<LineStop>) {
        if self.first.is_none() {
            self.first = stop;
        }
    }

    /// Notes that something has none of the forms of its place, does not stand, or differs from what it must agree with.
    pub fn unread(&mut self) {
        self.note(Some(LineStop::Unread));
    }

    /// Notes that memory was not found.
    pub fn lacks_memory(&mut self) {
        self.note(Some(LineStop::Memory));
    }

    /// Notes whether memory was found.
    pub fn took(&mut self, done: Result<(), NoMemory>) {
        if done.is_err() {
            self.lacks_memory();
        }
    }
}

/// What comes of a line.
#[derive(Clone, Copy)]
pub enum LineResult {
    Holds,
    /// It does not hold, or cannot be read.
    Fails,
    /// Memory was not found.
    Short,
}

/// What comes of a line that holds or does not, where nothing stopped it.
pub fn judged(stop: Option<LineStop>, holds: bool) -> LineResult {
    match stop {
        None if holds => LineResult::Holds,
        Some(LineStop::Memory) => LineResult::Short,
        _ => LineResult::Fails,
    }
}
