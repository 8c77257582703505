// Facts of moves: which are legal, what they change, how many games there are, and how one ends.

use crate::answer::AnswerText;
use krieg_board::{Move, NoMemory, Position, Promo, Square, only};
use krieg_moves::{
    Guard, after, after_if_legal, count_moves, has_move, has_move_by, in_check, is_en_passant,
    is_legal, is_mate, is_stalemate, legal_moves, passed_square, targets,
};
use krieg_pack::order;
use krieg_words::make_move;
use std::alloc::Global;
use std::cmp::Ordering;

/// How many games of that many moves there are. Each move is made, or the last ones are counted alone.
pub fn perft(alloc: Global, p: &Position, depth: u8, is_counted: bool) -> Result<u64, NoMemory> {
    if depth == 0 {
        return Ok(1);
    }
    if depth == 1 && is_counted {
        return Ok(count_moves(p) as u64);
    }
    let mut total = 0u64;
    for mv in legal_moves(alloc, p)?.as_slice() {
        if is_legal(p, *mv) {
            total = total.saturating_add(perft(alloc, &after(p, *mv), depth - 1, is_counted)?);
        }
    }
    Ok(total)
}

static PROMOS: [Promo; 5] = [
    Promo::Plain,
    Promo::Queen,
    Promo::Rook,
    Promo::Bishop,
    Promo::Knight,
];

/// The square of that number, which counts on from the last one to the first.
fn nth_square(number: usize) -> Square {
    Square::new((number % 64) as u8).unwrap_or_default()
}

/// The move with that number among all 64 times 64 times 5 moves, in their order.
fn nth_move(number: u16) -> Move {
    Move {
        from: nth_square((number / 320) as usize),
        to: nth_square((number / 5) as usize),
        promo: PROMOS[(number % 5) as usize],
    }
}

/// Whether the list is that of the legal ones of all moves, in their order.
fn has_the_legal_moves(p: &Position, listed: &[Move]) -> bool {
    let mut rest = listed.iter();
    for number in 0..20480u16 {
        let mv = nth_move(number);
        if is_legal(p, mv) && rest.next() != Some(&mv) {
            return false;
        }
    }
    rest.next().is_none()
}

/// Moves as words.
fn say_moves(moves: &[Move], answer: &mut AnswerText) {
    for mv in moves {
        answer.word(b"");
        answer.put_move(*mv);
    }
}

/// The legal moves, where they are the legal ones of all moves.
pub fn say_listed(alloc: Global, p: &Position, answer: &mut AnswerText) {
    match legal_moves(alloc, p) {
        Ok(moves) => {
            answer.only_if(has_the_legal_moves(p, moves.as_slice()));
            say_moves(moves.as_slice(), answer);
        }
        Err(_) => answer.stop.lacks_memory(),
    }
}

/// Whether the legal move leads there, in each of the other ways to make it.
fn leads_to(p: &Position, mv: &Move, found: &Position) -> bool {
    is_legal(p, *mv)
        && order(&make_move(p, *mv).position, found) == Ordering::Equal
        && order(&after(p, *mv), found) == Ordering::Equal
}

/// The position after the move, where each way to make it gives the same.
pub fn say_after(p: &Position, mv: &Move, answer: &mut AnswerText) {
    match after_if_legal(p, *mv) {
        Some(found) => {
            answer.only_if(leads_to(p, mv, &found));
            answer.position(&found);
        }
        None => answer.put(b"illegal"),
    }
}

/// The square of the pawn that the move would capture in passing.
pub fn passed_by(p: &Position, mv: &Move) -> u64 {
    match p.man_at(mv.from) {
        Some(man) if is_en_passant(&p.mark(), man, mv) => only(passed_square(mv).number()),
        _ => 0,
    }
}

/// What holds of the side to move.
pub fn say_state(p: &Position, answer: &mut AnswerText) {
    answer.word_if(has_move(p), b"moves");
    answer.word_if(in_check(p), b"check");
    answer.word_if(is_mate(p), b"mate");
    answer.word_if(is_stalemate(p), b"stalemate");
}

/// The king's square and then those of his pinned men.
pub fn say_guard(p: &Position, answer: &mut AnswerText) {
    let guard = Guard::of(p);
    match Square::new(guard.king) {
        Some(king) => answer.square(king),
        None => answer.stop.unread(),
    }
    answer.squares(guard.pinned);
}

/// Where a man may go, where the guard and the list agree about whether there is a move.
pub fn say_targets(p: &Position, from: Square, answer: &mut AnswerText) {
    let guard = Guard::of(p);
    answer.only_if(has_move_by(p, &guard) == has_move(p));
    answer.squares(targets(p, &guard, from));
}
