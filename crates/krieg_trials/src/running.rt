// The run itself, and what the seats said and heard. What adds to a text tells whether there was memory.

use crate::player::{Manner, forgetful};
use crate::run_input::RunInput;
use crate::run_result::RunResult;
use crate::stream::Streams;
use krieg_board::{Move, NoMemory, Side};
use krieg_cli::{Bench, run, run_find};
use krieg_fen::write_move;
use krieg_ports::{Sink, Source};
use krieg_seats::Seat;
use krieg_wordtext::{Line, write_line};
use std::alloc::Global;

/// Adds the moves, a space before each.
fn add_said(moves: &[Move], text: &mut Vec<u8>) -> bool {
    for mv in moves {
        if text.push(b' ').is_err() || write_move(*mv, text).is_err() {
            return false;
        }
    }
    true
}

/// Adds a line for each of these lines.
fn add_heard(lines: &[Line], text: &mut Vec<u8>) -> bool {
    for line in lines {
        if text.extend_from_slice(b"\nheard ").is_err() || write_line(*line, text).is_err() {
            return false;
        }
    }
    true
}

/// Adds a line with the moves that the seat said, behind these words, and one for each line that it heard.
fn add_seat(words: &str, seat: &Box<dyn Seat>, text: &mut Vec<u8>) -> bool {
    let said = seat.said();
    let heard = seat.heard();
    text.extend_from_slice(words.as_bytes()).is_ok()
        && add_said(said, text)
        && add_heard(heard, text)
        && text.push(b'\n').is_ok()
}

/// Adds all seats of a list, the first one behind words of its own.
fn add_seats(first: &str, others: &str, seats: &[Box<dyn Seat>], text: &mut Vec<u8>) -> bool {
    let mut words = first;
    for seat in seats {
        if !add_seat(words, seat, text) {
            return false;
        }
        words = others;
    }
    true
}

/// Adds the seats of both sides: the one that sits, those that wait behind it, and those that were relieved.
fn add_bench(bench: &Bench, text: &mut Vec<u8>) -> bool {
    let white_out = "relieved white";
    let black_out = "relieved black";
    add_seats("sits white", "waits white", &bench.white, text)
        && add_seats(white_out, white_out, &bench.white_out, text)
        && add_seats("sits black", "waits black", &bench.black, text)
        && add_seats(black_out, black_out, &bench.black_out, text)
}

/// The first words of the commands of the program `krieg_find`.
static FIND_WORDS: [&str; 6] = ["find", "keys", "share", "judge", "advise", "conduct"];

fn is_for_find(word: &str) -> bool {
    for name in &FIND_WORDS {
        if *name == word {
            return true;
        }
    }
    false
}

/// Whether these words are those of the program `krieg_find`, by the first of them.
fn are_for_find(words: &[String]) -> bool {
    match words.first() {
        Some(first) => is_for_find(first.as_str()),
        None => false,
    }
}

/// Keeps what the run is given to read, and makes the places to which it writes. It tells whether there was memory.
fn prepare(given: &mut RunInput, came: &mut RunResult) -> bool {
    came.input.extend_from_slice(&given.text).is_ok()
        && given.out.make_room()
        && given.err.make_room()
}

fn seats_of(who: Side, bench: &mut Bench) -> &mut Vec<Box<dyn Seat>> {
    match who {
        Side::White => &mut bench.white,
        Side::Black => &mut bench.black,
    }
}

/// Has the seat stand behind the others. It tells whether there was memory.
fn sit(seat: Box<dyn Seat>, seats: &mut Vec<Box<dyn Seat>>) -> bool {
    seats.push(seat).is_ok()
}

/// Runs the words over these streams, with the players that are given, by the program whose words they are, and keeps its status and
/// what the seats said and heard. It tells whether there was memory.
fn come_over<S: Source, O: Sink>(
    alloc: Global,
    words: &[String],
    given: &mut RunInput,
    streams: &mut Streams<S, O>,
    came: &mut RunResult,
) -> bool {
    let mut bench = Bench::new(alloc);
    let mut is_kept = true;
    for player in &mut given.players {
        let seats = seats_of(player.who, &mut bench);
        is_kept &= match player.manner {
            Manner::Tries => match player.scripted(alloc) {
                Some(seat) => sit(seat, seats),
                None => false,
            },
            Manner::Sends => match player.sending(alloc) {
                Some(seat) => sit(seat, seats),
                None => false,
            },
            Manner::Follows => match player.guided(alloc) {
                Ok(Some(seat)) => sit(seat, seats),
                Ok(None) => true,
                Err(NoMemory) => false,
            },
            Manner::Forgets => match forgetful(alloc) {
                Some(seat) => sit(seat, seats),
                None => false,
            },
        };
    }
    let Streams { input, out, err } = streams;
    came.status = if are_for_find(words) {
        run_find(alloc, words, input, out, err, &mut bench)
    } else {
        run(alloc, words, input, out, err, &mut bench)
    };
    if given.dismisses {
        bench.dismiss();
    }
    is_kept && add_bench(&bench, &mut came.seats.text)
}

/// Runs the words with what is given, and keeps what the run came to. It tells whether there was memory.
pub fn come(alloc: Global, words: &[String], given: &mut RunInput, came: &mut RunResult) -> bool {
    if !prepare(given, came) {
        return false;
    }
    let mut streams = given.streams(alloc);
    come_over(alloc, words, given, &mut streams, came)
        && came.out.add(streams.out.bytes())
        && came.err.add(streams.err.bytes())
}
