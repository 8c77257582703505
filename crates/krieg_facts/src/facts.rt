// Lines of facts, and whether they hold.

use crate::answer::AnswerText;
use crate::asking::ask;
use crate::given::Given;
use crate::mark::Mark;
use crate::scene::{START, Scene};
use crate::stop::{LineResult, judged};
use krieg_fen::read_position;
use std::alloc::Global;

/// How many facts there are where all hold, or the number of the first line that does not.
#[derive(Clone, Copy)]
pub enum Progress {
    Facts(u64),
    Wrong(u64),
    /// Memory was not found.
    Short,
}

/// What stands, and how many facts held.
#[derive(Drop)]
struct FactState {
    scene: Scene,
    facts: u64,
}

impl FactState {
    /// Answers by how many words the answer of the question has.
    fn ask_count(&self, given: &mut Given, answer: &mut AnswerText) {
        ask(&self.scene, given.mark(), given, answer);
        let count = words_in(answer.told());
        answer.text.clear();
        answer.number(count);
    }

    /// Asks the question so many times, and answers as it was answered last.
    fn ask_times(&self, given: &mut Given, answer: &mut AnswerText) {
        let times = given.count();
        let asked = given.rest();
        for _ in 0..times {
            given.go_on(asked);
            answer.text.clear();
            ask(&self.scene, given.mark(), given, answer);
        }
    }

    /// Answers what is asked.
    fn answer(&self, given: &mut Given, answer: &mut AnswerText) {
        match given.mark() {
            Mark::Count => self.ask_count(given, answer),
            Mark::Times => self.ask_times(given, answer),
            mark => ask(&self.scene, mark, given, answer),
        }
    }

    /// Whether the answer of the question is what is told.
    fn holds(&mut self, asked: &str, told: &str) -> LineResult {
        let mut given = Given::new(asked);
        let mut answer = AnswerText::new(self.scene.alloc);
        self.answer(&mut given, &mut answer);
        self.facts = self.facts.saturating_add(1);
        is_told(self.scene.alloc, &given, &answer, told)
    }

    /// Takes a line, and tells what comes of it.
    fn take(&mut self, line: &str) -> LineResult {
        match line.split_once(" = ") {
            Some((asked, told)) => self.holds(asked, told),
            None => {
                let mut given = Given::new(line);
                self.scene.set(&mut given);
                judged(given.end(), true)
            }
        }
    }
}

/// Whether the question was read and answered, and the answer is what is told.
fn is_told(alloc: Global, given: &Given, answer: &AnswerText, told: &str) -> LineResult {
    let mut wanted = Given::new(told);
    let told = wanted.bytes(alloc);
    let mut stop = answer.stop;
    stop.note(given.end());
    stop.note(wanted.end());
    judged(stop.first, answer.told() == told.as_slice())
}

/// How many words a text has.
fn words_in(text: &[u8]) -> u64 {
    let mut count = 1u64;
    for byte in text {
        if *byte == b' ' {
            count = count.saturating_add(1);
        }
    }
    count
}

/// Goes through the lines, up to the first that does not hold.
fn judge_by(state: &mut FactState, text: &str) -> Progress {
    let mut number = 1u64;
    for line in text.split('\n') {
        match state.take(line) {
            LineResult::Holds => {}
            LineResult::Fails => return Progress::Wrong(number),
            LineResult::Short => return Progress::Short,
        }
        number = number.saturating_add(1);
    }
    Progress::Facts(state.facts)
}

/// How far the facts of a text hold. The start of a game stands at first.
pub fn judge(alloc: Global, text: &str) -> Progress {
    match read_position(START) {
        Ok(start) => {
            let scene = Scene::new(alloc, start);
            judge_by(&mut FactState { scene, facts: 0 }, text)
        }
        Err(_) => Progress::Short,
    }
}
