// Parts of plan files that are too long to be written out: nodes behind words that ascend. What adds a part tells whether there was
// memory.

use krieg_board::Square;
use krieg_words::{End, Kinds, Took, Words};
use krieg_wordtext::write_words;

/// What is captured for a number below 129: nothing, then a pawn and then a piece on each square.
fn took_at(number: usize) -> Took {
    let square = Square::new((number.saturating_sub(1) % 64) as u8).unwrap_or_default();
    match number {
        0 => Took::Nothing,
        1..=64 => Took::Pawn(square),
        _ => Took::Piece(square),
    }
}

/// The words of a number below 140,352. Those of a smaller number come before them.
fn words_at(number: usize) -> Words {
    let checks = number / 17 % 32;
    Words {
        end: if number < 70_176 {
            End::Goes
        } else {
            End::Mate
        },
        took: took_at(number / 544 % 129),
        checks: Kinds {
            knight: checks / 16 % 2 == 1,
            short: checks / 8 % 2 == 1,
            long: checks / 4 % 2 == 1,
            rank: checks / 2 % 2 == 1,
            file: checks % 2 == 1,
        },
        tries: (number % 17) as u8,
    }
}

/// Adds the line, with a line feed.
pub fn add_line(line: &str, text: &mut Vec<u8>) -> bool {
    text.extend_from_slice(line.as_bytes()).is_ok() && text.push(b'\n').is_ok()
}

/// Adds the line so many times, each with a line feed.
pub fn add_lines(times: usize, line: &str, text: &mut Vec<u8>) -> bool {
    for _ in 0..times {
        if !add_line(line, text) {
            return false;
        }
    }
    true
}

/// Adds the line that leads to a node: these front words, and those of the number.
fn add_key(front: &str, number: usize, text: &mut Vec<u8>) -> bool {
    text.extend_from_slice(front.as_bytes()).is_ok()
        && text.push(b' ').is_ok()
        && write_words(words_at(number), text).is_ok()
        && text.push(b'\n').is_ok()
}

/// Adds a node without edges, which has this try.
fn add_leaf(tried: &str, text: &mut Vec<u8>) -> bool {
    text.extend_from_slice(b"play ").is_ok()
        && text.extend_from_slice(tried.as_bytes()).is_ok()
        && text.extend_from_slice(b" 0\n").is_ok()
}

/// Adds so many nodes without edges, each with this try, and the line that leads to it.
pub fn add_leaves(count: usize, tried: &str, front: &str, text: &mut Vec<u8>) -> bool {
    for number in 0..count {
        if !add_key(front, number, text) || !add_leaf(tried, text) {
            return false;
        }
    }
    true
}

/// Adds so many nodes with this line, each with so many edges to nodes without edges.
pub fn add_bushes(count: usize, edges: usize, line: &str, text: &mut Vec<u8>) -> bool {
    let front = "on silent /";
    for number in 0..count {
        let is_added = add_key(front, number, text)
            && add_line(line, text)
            && add_leaves(edges, "a1a1", front, text);
        if !is_added {
            return false;
        }
    }
    true
}
