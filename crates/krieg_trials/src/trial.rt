// A file of cases, whose lines are taken one after another.

use crate::line_result::{LineResult, counted, parted};
use crate::made::add_line;
use crate::mark::{Mark, mark_of};
use crate::run_input::RunInput;
use crate::run_result::RunResult;
use crate::running::come;
use std::alloc::Global;

/// How far the lines hold.
#[derive(Clone, Copy)]
pub enum Progress {
    /// All of them, with so many runs.
    Runs(u64),
    /// The line of this number is the first that does not hold.
    Wrong(u64),
    /// There was no memory for one of them.
    Short,
}

/// A case as far as it was taken.
#[derive(Drop)]
struct Trial {
    /// Lines that the runs of the case may be given again and again.
    kept: Vec<u8>,
    given: RunInput,
    came: RunResult,
}

/// Adds the word. It tells whether there was memory.
fn add_word(alloc: Global, word: &str, words: &mut Vec<String>) -> bool {
    match String::from_str(alloc, word) {
        Ok(word) => words.push(word).is_ok(),
        Err(_) => false,
    }
}

/// Adds the words behind the mark of a line: single spaces part them, so that a word may be empty. It tells whether there was memory.
fn add_words(alloc: Global, line: &str, words: &mut Vec<String>) -> bool {
    let mut all = line.split(' ');
    let _mark = all.next();
    for word in all {
        if !add_word(alloc, word, words) {
            return false;
        }
    }
    true
}

impl Trial {
    fn new(alloc: Global) -> Trial {
        Trial {
            kept: Vec::new(alloc),
            given: RunInput::new(alloc),
            came: RunResult::new(alloc),
        }
    }

    /// Whether the last run was told, and all that was given was taken.
    fn is_done(&self) -> bool {
        self.came.is_told() && self.given.is_empty()
    }

    /// Begins another case. It holds where the last one was done.
    fn begin(&mut self, alloc: Global) -> LineResult {
        let is_done = self.is_done();
        *self = Trial::new(alloc);
        LineResult::of(is_done)
    }

    /// Runs these words, and tells whether there was memory. Nothing is given to the next run.
    fn run_words(&mut self, alloc: Global, words: &[String]) -> bool {
        self.came = RunResult::new(alloc);
        let is_kept = come(alloc, words, &mut self.given, &mut self.came);
        self.given = RunInput::new(alloc);
        is_kept
    }

    /// Runs the words of the line. It holds where the last run was told.
    fn run(&mut self, alloc: Global, line: &str) -> LineResult {
        let is_told = self.came.is_told();
        let mut words = Vec::new(alloc);
        if add_words(alloc, line, &mut words) && self.run_words(alloc, &words) {
            LineResult::of(is_told)
        } else {
            LineResult::Short
        }
    }

    /// Gives the next run the kept lines so many times. It tells whether there was memory.
    fn add_kept(&mut self, times: usize) -> bool {
        for _ in 0..times {
            if self.given.text.extend_from_slice(&self.kept).is_err() {
                return false;
            }
        }
        true
    }

    /// Gives the next run the kept lines as often as the text says, or once.
    fn give_kept(&mut self, text: &str) -> LineResult {
        match counted(if text.is_empty() { "1" } else { text }) {
            Some((times, _)) => LineResult::kept(self.add_kept(times)),
            None => LineResult::Fails,
        }
    }

    /// Takes the next line.
    fn take(&mut self, alloc: Global, line: &str) -> LineResult {
        let (word, text) = parted(line);
        let Some(mark) = mark_of(word) else {
            return LineResult::Fails;
        };
        match mark {
            Mark::Nothing => LineResult::Holds,
            Mark::Case => self.begin(alloc),
            Mark::Run => self.run(alloc, line),
            Mark::Keep => LineResult::kept(add_line(text, &mut self.kept)),
            Mark::GiveKept => self.give_kept(text),
            Mark::GiveAnswer => LineResult::kept(self.given.add(&self.came.out.text)),
            Mark::GiveAgain => LineResult::kept(self.given.add(&self.came.input)),
            Mark::Given(mark) => self.given.take(alloc, mark, text),
            Mark::GivenMany(mark) => self.given.take_many(mark, text),
            Mark::Told(mark) => self.came.take(mark, text, line),
            Mark::ToldCount(mark) => self.came.take_count(mark, text),
        }
    }

    /// Takes the lines of the text, up to the first that does not hold. A last case that is not done does not hold behind the last line.
    fn take_lines(&mut self, alloc: Global, text: &str) -> Progress {
        let mut runs = 0u64;
        let mut number = 1u64;
        for line in text.split('\n') {
            match self.take(alloc, line) {
                LineResult::Holds => {}
                LineResult::Short => return Progress::Short,
                LineResult::Fails => return Progress::Wrong(number),
            }
            if line.starts_with("run") {
                runs = runs.saturating_add(1);
            }
            number = number.saturating_add(1);
        }
        if self.is_done() {
            Progress::Runs(runs)
        } else {
            Progress::Wrong(number)
        }
    }
}

/// Takes the lines of the text, and tells how far they hold.
pub fn judge(alloc: Global, text: &str) -> Progress {
    let mut trial = Trial::new(alloc);
    trial.take_lines(alloc, text)
}
