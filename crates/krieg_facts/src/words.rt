// Facts of what the umpire says, in the dialect that stands.

use crate::answer::AnswerText;
use crate::given::Given;
use crate::scene::Scene;
use krieg_board::{Move, Position};
use krieg_moves::is_legal;
use krieg_pack::order;
use krieg_words::{
    Dialect, Words, after_told, after_told_if_legal, compare, make_if_legal, make_move, opening,
    told, tries, words_of,
};
use krieg_wordtext::{
    read_line, read_line_in, read_words_in, told_line, write_line_in, write_words_in,
};
use std::cmp::Ordering;

/// Words as the dialect tells them.
pub fn say_told(d: Dialect, words: Words, answer: &mut AnswerText) {
    let done = write_words_in(d, told(d, words), &mut answer.text);
    answer.stop.took(done);
}

/// Whether these are the words of the legal move, in each of the other ways to find them.
fn are_words_of(p: &Position, mv: &Move, words: Words) -> bool {
    is_legal(p, *mv) && make_move(p, *mv).words == words && words_of(p, *mv) == words
}

/// What is heard of the move.
pub fn say_move(d: Dialect, p: &Position, mv: &Move, answer: &mut AnswerText) {
    match make_if_legal(p, *mv) {
        Some(made) => {
            answer.only_if(are_words_of(p, mv, made.words));
            say_told(d, made.words, answer);
        }
        None => answer.put(b"illegal"),
    }
}

/// One position, where it was found in two ways alike, or nothing.
fn say_same(next: &Option<Position>, again: &Option<Position>, answer: &mut AnswerText) {
    match (next, again) {
        (Some(next), Some(again)) => {
            answer.only_if(order(next, again) == Ordering::Equal);
            answer.position(next);
        }
        (None, None) => {}
        _ => answer.stop.unread(),
    }
}

/// The position after the move, where those words are told of it. Nothing may come of an illegal move.
fn say_after_told(scene: &Scene, mv: &Move, words: &Words, answer: &mut AnswerText) {
    let p = &scene.position;
    let tried = after_told_if_legal(scene.dialect, words, p, *mv);
    if is_legal(p, *mv) {
        say_same(&after_told(scene.dialect, words, p, *mv), &tried, answer);
    } else {
        answer.only_if(tried.is_none());
        answer.put(b"illegal");
    }
}

/// The words that the text spells, written again.
pub fn say_words(d: Dialect, text: &[u8], answer: &mut AnswerText) {
    match read_words_in(d, text) {
        Ok(words) => {
            let done = write_words_in(d, words, &mut answer.text);
            answer.stop.took(done);
        }
        Err(_) => answer.put(b"refused"),
    }
}

/// The line that the text spells, written again.
pub fn say_line(d: Dialect, text: &[u8], answer: &mut AnswerText) {
    match read_line_in(d, text) {
        Ok(line) => {
            let done = write_line_in(d, line, &mut answer.text);
            answer.stop.took(done);
        }
        Err(_) => answer.put(b"refused"),
    }
}

/// A line in wild16, as the dialect tells it.
pub fn say_told_line(d: Dialect, text: &[u8], answer: &mut AnswerText) {
    match read_line(text) {
        Ok(line) => {
            let done = write_line_in(d, told_line(d, line), &mut answer.text);
            answer.stop.took(done);
        }
        Err(_) => answer.stop.unread(),
    }
}

/// Whether the words at the place stand in their order with all of the list.
fn is_in_place(place: usize, words: &Words, list: &[Words]) -> bool {
    for (other, listed) in list.iter().enumerate() {
        if compare(words, listed) != place.cmp(&other) {
            return false;
        }
    }
    true
}

/// Whether each of the words comes before all that stand behind it.
fn do_ascend(list: &[Words]) -> bool {
    for (place, words) in list.iter().enumerate() {
        if !is_in_place(place, words, list) {
            return false;
        }
    }
    true
}

/// Adds words with semicolons between.
fn add_listed(d: Dialect, given: &mut Given, list: &mut Vec<Words>) {
    for _ in 0..given.parts("; ") {
        let words = given.until("; ");
        if list.push(given.words_of(d, words)).is_err() {
            given.stop.lacks_memory();
        }
    }
}

/// Whether words with semicolons between are in their order.
pub fn say_ascending(scene: &Scene, given: &mut Given, answer: &mut AnswerText) {
    let mut list = Vec::new(scene.alloc);
    add_listed(scene.dialect, given, &mut list);
    answer.yes_or_no(do_ascend(&list));
}

/// The position after a move, where certain words are told of it.
pub fn say_told_after(scene: &Scene, given: &mut Given, answer: &mut AnswerText) {
    let mv = given.try_move();
    let words = given.rest();
    let words = given.words_of(scene.dialect, words);
    say_after_told(scene, &mv, &words, answer);
}
