// What a run came to, as a case tells it.

use crate::line_result::{LineResult, counted};
use crate::mark::{CountMark, ToldMark};
use crate::page::Page;
use std::alloc::Global;

/// What a run came to, and how much of it was told.
#[derive(Drop)]
pub struct RunResult {
    pub status: u8,
    /// Whether the status was told. One that is not is 0.
    is_status_told: bool,
    /// What the run was given to read.
    pub input: Vec<u8>,
    pub out: Page,
    pub err: Page,
    /// Each seat that sits, waits or was relieved, with what it said and heard. Where a line of it is told, all are.
    pub seats: Page,
}

impl RunResult {
    /// No run was made.
    pub fn new(alloc: Global) -> RunResult {
        RunResult {
            status: 0,
            is_status_told: false,
            input: Vec::new(alloc),
            out: Page::new(alloc),
            err: Page::new(alloc),
            seats: Page::new(alloc),
        }
    }

    /// Whether all that must be told was told.
    pub fn is_told(&self) -> bool {
        (self.is_status_told || self.status == 0)
            && self.out.is_told()
            && self.err.is_told()
            && (self.seats.is_untold() || self.seats.is_told())
    }

    fn tell_status(&mut self, text: &str) -> bool {
        self.is_status_told = true;
        match counted(text) {
            Some((status, _)) => status == usize::from(self.status),
            None => false,
        }
    }

    /// Takes a line that tells what the run came to.
    pub fn take(&mut self, mark: ToldMark, text: &str, line: &str) -> LineResult {
        LineResult::of(match mark {
            ToldMark::Status => self.tell_status(text),
            ToldMark::Out => self.out.goes_on(text),
            ToldMark::OutThen => self.out.comes(text),
            ToldMark::OutCut => self.out.ends(text.as_bytes()),
            ToldMark::OutInput => self.out.ends(&self.input),
            ToldMark::OutMore => self.out.pass(),
            ToldMark::Err => self.err.goes_on(text),
            ToldMark::ErrCut => self.err.ends(text.as_bytes()),
            ToldMark::Seats => self.seats.goes_on(line),
        })
    }

    /// Takes a line with a number that tells something of the answer.
    pub fn take_count(&mut self, mark: CountMark, text: &str) -> LineResult {
        match counted(text) {
            Some((number, rest)) => LineResult::of(self.out.counts(mark, number, rest)),
            None => LineResult::Fails,
        }
    }
}
