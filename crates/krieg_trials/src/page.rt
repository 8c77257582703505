// A text that a run wrote, which a case tells part by part.

use crate::mark::CountMark;
use krieg_text::lines_of;
use std::alloc::Global;

/// A text, and how much of it was told.
#[derive(Drop)]
pub struct Page {
    pub text: Vec<u8>,
    told: usize,
}

/// Where the line ends that comes first with this text: behind its line feed.
fn end_of(text: &[u8], line: &str) -> Option<usize> {
    let mut end = 0usize;
    for other in lines_of(text) {
        end = end.saturating_add(other.len()).saturating_add(1);
        if other == line.as_bytes() {
            return Some(end);
        }
    }
    None
}

/// Where so many lines end.
fn end_of_lines(text: &[u8], count: usize) -> usize {
    let mut end = 0usize;
    for line in lines_of(text).take(count) {
        end = end.saturating_add(line.len()).saturating_add(1);
    }
    end
}

/// How many line feeds the text has.
fn line_count(text: &[u8]) -> usize {
    let mut count = 0usize;
    for byte in text {
        if *byte == b'\n' {
            count = count.saturating_add(1);
        }
    }
    count
}

/// How many lines of the text end so.
fn ending_count(text: &[u8], end: &str) -> usize {
    let mut count = 0usize;
    for line in lines_of(text) {
        if line.ends_with(end.as_bytes()) {
            count = count.saturating_add(1);
        }
    }
    count
}

/// The sum of the text, as `bench/made-text sums` prints it.
fn sum(text: &[u8]) -> u32 {
    let mut sum = 0u32;
    for byte in text {
        sum = sum.wrapping_mul(31).wrapping_add(u32::from(*byte));
    }
    sum
}

impl Page {
    /// A text without bytes.
    pub fn new(alloc: Global) -> Page {
        Page {
            text: Vec::new(alloc),
            told: 0,
        }
    }

    /// Adds these bytes. It tells whether there was memory.
    pub fn add(&mut self, bytes: &[u8]) -> bool {
        self.text.extend_from_slice(bytes).is_ok()
    }

    /// Whether nothing was told.
    pub fn is_untold(&self) -> bool {
        self.told == 0
    }

    /// Whether all was told.
    pub fn is_told(&self) -> bool {
        self.told == self.text.len()
    }

    fn rest(&self) -> &[u8] {
        self.text.get(self.told..).unwrap_or_default()
    }

    /// Tells all that is left, whatever it is.
    pub fn pass(&mut self) -> bool {
        self.told = self.text.len();
        true
    }

    /// Tells the next line, and whether it is this one.
    pub fn goes_on(&mut self, line: &str) -> bool {
        let holds = match self.rest().strip_prefix(line.as_bytes()) {
            Some(rest) => rest.starts_with(b"\n"),
            None => false,
        };
        self.told = self.told.saturating_add(line.len()).saturating_add(1);
        holds
    }

    /// Tells the next lines, and whether they are so many times this one.
    fn goes_on_many(&mut self, times: usize, line: &str) -> bool {
        for _ in 0..times {
            if !self.goes_on(line) {
                return false;
            }
        }
        true
    }

    /// Tells all up to the next line with this text, and whether there is one.
    pub fn comes(&mut self, line: &str) -> bool {
        match end_of(self.rest(), line) {
            Some(end) => {
                self.told = self.told.saturating_add(end);
                true
            }
            None => false,
        }
    }

    /// Tells all but so many lines of the end, and whether there are as many.
    fn pass_to_last(&mut self, lines: usize) -> bool {
        let count = line_count(&self.text);
        self.told = end_of_lines(&self.text, count.saturating_sub(lines));
        lines <= count
    }

    /// Tells what is left, and whether it is this.
    pub fn ends(&mut self, text: &[u8]) -> bool {
        let holds = self.rest() == text;
        self.pass() && holds
    }

    /// Tells what a line of this mark and number says of the text, and whether it is so.
    pub fn counts(&mut self, mark: CountMark, number: usize, rest: &str) -> bool {
        match mark {
            CountMark::Many => self.goes_on_many(number, rest),
            CountMark::Last => self.pass_to_last(number),
            CountMark::Lines => line_count(&self.text) == number,
            CountMark::Bytes => self.text.len() == number,
            CountMark::Over => self.text.len() > number,
            CountMark::Sum => sum(&self.text) as usize == number,
            CountMark::Ending => ending_count(&self.text, rest) == number,
        }
    }
}
