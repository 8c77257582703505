// Questions about what stands, by what stands behind their marks.

use crate::answer::AnswerText;
use crate::boards::{alone, by_side, say_kinds, say_kinds_by, say_longer, say_man, squares_asked};
use crate::given::Given;
use crate::mark::{Mark, MoveMark, OtherMark, PlainMark, TextMark};
use crate::moves::{passed_by, perft, say_after, say_guard, say_listed, say_state, say_targets};
use crate::positions::{say_fault, say_hand_of, say_units, say_written};
use crate::san::{say_san, say_unsan};
use crate::scene::Scene;
use crate::words::{
    say_ascending, say_line, say_move, say_told, say_told_after, say_told_line, say_words,
};
use krieg_board::Move;
use krieg_moves::{count_moves, is_legal};
use krieg_words::{kinds_of, opening, tries};

/// Answers a question about the position alone.
fn ask_plain(scene: &Scene, mark: PlainMark, answer: &mut AnswerText) {
    let p = &scene.position;
    match mark {
        PlainMark::Moves => answer.number(count_moves(p) as u64),
        PlainMark::Listed => say_listed(scene.alloc, p, answer),
        PlainMark::State => say_state(p, answer),
        PlainMark::Guard => say_guard(p, answer),
        PlainMark::Checks => say_kinds(kinds_of(p), answer),
        PlainMark::Opens => say_told(scene.dialect, opening(p), answer),
        PlainMark::Tries => answer.number(u64::from(tries(p))),
    }
}

/// Answers a question about a move.
fn ask_of_move(scene: &Scene, mark: MoveMark, mv: &Move, answer: &mut AnswerText) {
    let p = &scene.position;
    match mark {
        MoveMark::Legal => answer.yes_or_no(is_legal(p, *mv)),
        MoveMark::After => say_after(p, mv, answer),
        MoveMark::Passed => answer.squares(passed_by(p, mv)),
        MoveMark::Words => say_move(scene.dialect, p, mv, answer),
        MoveMark::San => say_san(p, mv, answer),
    }
}

/// Answers a question about a text.
fn ask_of_text(scene: &Scene, mark: TextMark, text: &[u8], answer: &mut AnswerText) {
    match mark {
        TextMark::Fault => say_fault(text, answer),
        TextMark::Written => say_written(text, answer),
        TextMark::Said => say_words(scene.dialect, text, answer),
        TextMark::Line => say_line(scene.dialect, text, answer),
        TextMark::ToldLine => say_told_line(scene.dialect, text, answer),
        TextMark::Unsan => say_unsan(&scene.position, text, answer),
    }
}

/// Answers another question.
fn ask_other(scene: &Scene, mark: OtherMark, given: &mut Given, answer: &mut AnswerText) {
    let p = &scene.position;
    match mark {
        OtherMark::Set => answer.number(given.squares()),
        OtherMark::On => say_man(scene.bits.man_at(given.square().number()), answer),
        OtherMark::Longer => say_longer(given.square(), given.square(), answer),
        OtherMark::Kinds => say_kinds_by(given.small(), answer),
        OtherMark::Targets => say_targets(p, given.square(), answer),
        OtherMark::Perft(is_counted) => {
            answer.number_found(perft(scene.alloc, p, given.small(), is_counted));
        }
        OtherMark::SameHand => say_hand_of(scene, given, answer),
        OtherMark::Units => say_units(given, answer),
        OtherMark::Told => say_told_after(scene, given, answer),
        OtherMark::Ascending => say_ascending(scene, given, answer),
    }
}

/// Answers the question with this mark.
pub fn ask(scene: &Scene, mark: Mark, given: &mut Given, answer: &mut AnswerText) {
    match mark {
        Mark::Plain(mark) => ask_plain(scene, mark, answer),
        Mark::OfMove(mark) => ask_of_move(scene, mark, &given.try_move(), answer),
        Mark::OfText(mark) => ask_of_text(scene, mark, &given.bytes(scene.alloc), answer),
        Mark::Alone(mark) => answer.squares(alone(mark, given.square())),
        Mark::BySide(mark) => {
            answer.squares_found(by_side(&scene.bits, mark, given.side(), given.square()));
        }
        Mark::Squares(mark) => answer.squares_found(squares_asked(scene, mark, given)),
        Mark::Other(mark) => ask_other(scene, mark, given, answer),
        Mark::Count | Mark::Times | Mark::Unread => answer.stop.unread(),
    }
}
