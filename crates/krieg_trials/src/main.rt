//! Runs cases of data through `krieg_cli::run`, or `krieg_cli::run_find`, over streams and seats in memory, and tells of each file how many runs
//! hold.
//!
//! A case says line by line what a run is given and what must come of it. `docs/CASES.md` has the marks with which
//! these lines begin, and `mark` their table. `run_input` gathers what the next run gets: its text, how its streams behave
//! (`stream`), who plays (`player`), and plans that are too long to be written out (`made`). `running` makes the run, and
//! `run_result` compares what it came to, page by page (`page`). `trial` goes through the lines of a file, of each of which
//! `line_result` says what comes.
//!
//! ```
//! case a rook mates in one
//! in krieg sheet 1
//! in side w
//! in list 1
//! in 1k6/8/1K6/8/8/8/8/7R w - -
//! in end
//! run solve 1 37 1
//! status 8
//! err krieg: budget spent
//! ```
#![tactic(auto)]

mod line_result;
mod made;
mod mark;
mod page;
mod player;
mod run_input;
mod run_result;
mod running;
mod stream;
mod trial;

use std::process::ExitCode;
use std::{env, fs};
use trial::{Progress, judge};

/// The status with which the program ends where a file, or the names of the files, could not be read, or memory was not found.
const UNREAD: u8 = 2;

/// The status where a line could not be printed.
const UNPRINTED: u8 = 3;

/// How far the lines of the file hold, as if memory was short where it could not be read.
fn progress_of(rt: &HostRuntime, name: &str) -> Progress {
    match fs::read_to_string(rt, name) {
        Ok(text) => judge(rt.alloc(), text.as_str()),
        Err(_) => Progress::Short,
    }
}

/// Prints the line, and is this status where it could.
fn printed(rt: &HostRuntime, name: &str, front: &str, number: u64, end: &str, status: u8) -> u8 {
    match println!(rt; "{name}: {front}{number} {end}") {
        Ok(()) => status,
        Err(_) => UNPRINTED,
    }
}

/// Goes through the file, prints what it finds, and is the status: 0 where all holds, and 1 where a line does not.
fn judge_file(rt: &HostRuntime, name: &str) -> u8 {
    match progress_of(rt, name) {
        Progress::Runs(runs) => printed(rt, name, "", runs, "runs hold", 0),
        Progress::Wrong(line) => printed(rt, name, "line ", line, "does not hold", 1),
        Progress::Short => UNREAD,
    }
}

/// Goes through all files that the words name, and is the greatest status.
fn judge_files(rt: &HostRuntime) -> u8 {
    let Ok(mut words) = env::args(rt) else {
        return UNREAD;
    };
    let mut status = 0;
    let _program = words.next();
    for name in words {
        status = status.max(judge_file(rt, name.as_str()));
    }
    status
}

fn main(rt: HostRuntime) -> ExitCode {
    ExitCode::from(judge_files(&rt))
}
