// Facts of positions: which are valid, how they are written, their hands, and units of work.

use crate::answer::{AnswerText, fault_name};
use crate::given::Given;
use crate::scene::Scene;
use krieg_board::{Position, Side, Units, same_hand};
use krieg_fen::{FenFault, read_position};

/// What is wrong with the text of a position, or nothing.
pub fn say_fault(text: &[u8], answer: &mut AnswerText) {
    match read_position(text) {
        Ok(_) => {}
        Err(FenFault::Fields) => answer.put(b"fields"),
        Err(FenFault::Field(number)) => {
            answer.put(b"field ");
            answer.digits(u64::from(number));
        }
        Err(FenFault::Bad(bad)) => answer.put(fault_name(bad)),
    }
}

/// The position that the text spells, written again.
pub fn say_written(text: &[u8], answer: &mut AnswerText) {
    match read_position(text) {
        Ok(p) => answer.position(&p),
        Err(_) => answer.stop.unread(),
    }
}

/// Whether two positions have one hand of a side, which each of them tells of the other.
fn say_hand(who: Side, p: &Position, other: &Position, answer: &mut AnswerText) {
    let is_same = same_hand(p, other, who);
    answer.only_if(same_hand(other, p, who) == is_same);
    answer.yes_or_no(is_same);
}

/// What is left after so many units, or `no` where there are not so many.
fn say_taken(units: &mut Units, number: u64, answer: &mut AnswerText) {
    match units.take(number) {
        Ok(()) => answer.number(units.left()),
        Err(_) => answer.word(b"no"),
    }
}

/// The same after each of these numbers.
pub fn say_units(given: &mut Given, answer: &mut AnswerText) {
    let mut units = Units::new(given.number());
    for _ in 0..given.words() {
        say_taken(&mut units, given.number(), answer);
    }
}

/// Whether the position and the one that is given have one hand.
pub fn say_hand_of(scene: &Scene, given: &mut Given, answer: &mut AnswerText) {
    let who = given.side();
    let other = scene.position_in(given);
    say_hand(who, &scene.position, &other, answer);
}
