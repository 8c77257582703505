// Facts of moves in Standard Algebraic Notation.

use crate::answer::AnswerText;
use krieg_board::{Move, Position};
use krieg_moves::is_legal;
use krieg_record::{SanFault, read_san, write_san};

/// The text of the move, where it is legal.
pub fn say_san(p: &Position, mv: &Move, answer: &mut AnswerText) {
    if is_legal(p, *mv) {
        let done = write_san(p, *mv, &mut answer.text);
        answer.stop.took(done);
    } else {
        answer.put(b"illegal");
    }
}

/// The move that the text means.
pub fn say_unsan(p: &Position, text: &[u8], answer: &mut AnswerText) {
    match read_san(p, text) {
        Ok(mv) => answer.put_move(mv),
        Err(SanFault::Syntax) => answer.put(b"syntax"),
        Err(SanFault::Unknown) => answer.put(b"unknown"),
        Err(SanFault::Several) => answer.put(b"several"),
        Err(SanFault::NoMemory) => answer.stop.lacks_memory(),
    }
}
