//! Facts from outside about the layers below the commands, as files of lines: `docs/CASES.md` tells which lines
//! there are.
//!
//! `krieg_facts FILE..` tells of each file how many facts hold, or the first line that does not.
//!
//! ```
//! krieg_facts moves.facts   # moves.facts: 120 facts hold
//! ```
#![tactic(auto)]

mod answer;
mod asking;
mod boards;
mod facts;
mod given;
mod mark;
mod moves;
mod positions;
mod san;
mod scene;
mod stop;
mod terms;
mod words;

use facts::{Progress, judge};
use std::process::ExitCode;
use std::{env, fs, io};

/// The status with which the program ends where a file, or the names of the files, could not be read, or memory was not found.
const UNREAD: u8 = 2;

/// The status where a line could not be printed.
const UNPRINTED: u8 = 3;

/// How far the facts of the file hold, as if memory was short where it could not be read.
fn progress_of(rt: &HostRuntime, name: &str) -> Progress {
    match fs::read_to_string(rt, name) {
        Ok(text) => judge(rt.alloc(), text.as_str()),
        Err(_) => Progress::Short,
    }
}

/// This status, where the line could be printed.
fn printed(done: io::Result<()>, status: u8) -> u8 {
    match done {
        Ok(()) => status,
        Err(_) => UNPRINTED,
    }
}

/// Goes through the file, prints what it finds, and is the status: 0 where all holds, and 1 where a line does not.
fn judge_file(rt: &HostRuntime, name: &str) -> u8 {
    match progress_of(rt, name) {
        Progress::Facts(count) => printed(println!(rt; "{name}: {count} facts hold"), 0),
        Progress::Wrong(line) => printed(println!(rt; "{name}: line {line} does not hold"), 1),
        Progress::Short => printed(println!(rt; "{name}: cannot be read"), UNREAD),
    }
}

/// Goes through all files that the words name, and is the greatest status.
fn judge_files(rt: &HostRuntime) -> u8 {
    let Ok(mut words) = env::args(rt) else {
        return UNREAD;
    };
    let mut status = 0;
    let _program = words.next();
    for name in words {
        status = status.max(judge_file(rt, name.as_str()));
    }
    status
}

fn main(rt: HostRuntime) -> ExitCode {
    ExitCode::from(judge_files(&rt))
}
