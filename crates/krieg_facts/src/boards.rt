// Facts of boards and of sets of squares.

use crate::answer::AnswerText;
use crate::given::Given;
use crate::mark::{AloneMark, SideMark, SquaresMark, found};
use crate::scene::Scene;
use crate::terms::{letter_of, placed_of};
use krieg_board::{
    Bits, Man, Position, Side, Square, apart, attacks, file_of, has, is_of, only, rank_of,
};
use krieg_rays::{
    attacked_by, attacked_from, attackers, between, between_at, diagonal_from, falling_through,
    file_through, king_attacks, knight_attacks, pawn_attacks, pawn_steps, pinned, rank_through,
    rising_through, straight_from,
};
use krieg_words::{Kinds, kinds_of, long_diagonal};

/// The set, where it was told twice alike.
fn agreed(set: u64, again: u64) -> Option<u64> {
    if set == again { Some(set) } else { None }
}

/// Which men are asked for.
#[derive(Clone, Copy)]
enum MenMark {
    White,
    Black,
    Pawns,
    Knights,
    Bishops,
    Rooks,
    Queens,
    Kings,
    All,
}

static MEN: [(&str, MenMark); 9] = [
    ("white", MenMark::White),
    ("black", MenMark::Black),
    ("pawns", MenMark::Pawns),
    ("knights", MenMark::Knights),
    ("bishops", MenMark::Bishops),
    ("rooks", MenMark::Rooks),
    ("queens", MenMark::Queens),
    ("kings", MenMark::Kings),
    ("all", MenMark::All),
];

/// The set of these men.
fn men_of(bits: &Bits, mark: MenMark) -> u64 {
    let sets = bits.sets();
    match mark {
        MenMark::White => sets.white,
        MenMark::Black => sets.black,
        MenMark::Pawns => sets.pawns,
        MenMark::Knights => sets.knights,
        MenMark::Bishops => sets.bishops,
        MenMark::Rooks => sets.rooks,
        MenMark::Queens => sets.queens,
        MenMark::Kings => sets.kings,
        MenMark::All => bits.occupied(),
    }
}

/// The same of the board by sets and of the board square by square.
fn men_of_both(bits: &Bits, name: &str) -> Option<u64> {
    let again = Bits::from_board(&bits.to_board());
    match found(&MEN, name) {
        Some(mark) => agreed(men_of(bits, mark), men_of(&again, mark)),
        None => None,
    }
}

/// The men of the side that attack the square, each asked by the rule alone.
fn attackers_by_rule(bits: &Bits, by: Side, to: Square) -> u64 {
    let board = bits.to_board();
    let mut set = 0;
    for from in 0..64u8 {
        if is_of(by, board[from as usize]) && attacks(&board, from, to.number()) {
            set |= only(from);
        }
    }
    set
}

/// The squares that the side attacks, where each square is told alike.
fn attacked_of(bits: &Bits, by: Side) -> Option<u64> {
    let board = bits.to_board();
    let set = attacked_by(bits, by);
    for s in 0..64u8 {
        let is_attacked = krieg_board::is_attacked(&board, s, by);
        if is_attacked != has(set, s) || is_attacked != krieg_rays::is_attacked(bits, s, by) {
            return None;
        }
    }
    Some(set)
}

/// The squares between two, also where the two are exchanged.
fn between_of(a: Square, c: Square) -> Option<u64> {
    let set = between(a, c);
    if set == between(c, a) {
        agreed(set, between_at(a.number(), c.number()))
    } else {
        None
    }
}

/// The pinned men of the side.
fn pinned_of(p: &Position, who: Side) -> u64 {
    pinned(p.bits(), who)
}

/// The squares that a man on a square attacks.
fn reach_of(bits: &Bits, text: &str) -> Option<u64> {
    match placed_of(text) {
        Some((man, from)) => Some(attacked_from(bits, man, from.number())),
        None => None,
    }
}

/// The squares that are told by a square alone.
pub fn alone(mark: AloneMark, square: Square) -> u64 {
    let number = square.number();
    match mark {
        AloneMark::Knight => knight_attacks(number),
        AloneMark::King => king_attacks(number),
        AloneMark::File => file_through(number),
        AloneMark::Rank => rank_through(number),
        AloneMark::Rising => rising_through(number),
        AloneMark::Falling => falling_through(number),
    }
}

/// The men of the side that attack a square, by lines of squares and by the rule, and the squares that its pawn attacks or steps to.
pub fn by_side(bits: &Bits, mark: SideMark, who: Side, square: Square) -> Option<u64> {
    match mark {
        SideMark::Attackers => agreed(
            attackers(bits, square, who),
            attackers_by_rule(bits, who, square),
        ),
        SideMark::PawnAttacks => Some(pawn_attacks(who, square.number())),
        SideMark::PawnSteps => Some(pawn_steps(who, square.number())),
    }
}

/// The squares on the lines from a square, as far as none of the squares that are given stands before them.
fn lines_from(is_straight: bool, square: Square, others: u64) -> u64 {
    if is_straight {
        straight_from(square.number(), others)
    } else {
        diagonal_from(square.number(), others)
    }
}

/// The squares that answer the question.
pub fn squares_asked(scene: &Scene, mark: SquaresMark, given: &mut Given) -> Option<u64> {
    match mark {
        SquaresMark::Numbered => Some(given.number()),
        SquaresMark::Men => men_of_both(&scene.bits, given.word()),
        SquaresMark::Reach => reach_of(&scene.bits, given.word()),
        SquaresMark::Attacked => attacked_of(&scene.bits, given.side()),
        SquaresMark::Pinned => Some(pinned_of(&scene.position, given.side())),
        SquaresMark::Between => between_of(given.square(), given.square()),
        SquaresMark::Lines(is_straight) => {
            Some(lines_from(is_straight, given.square(), given.squares()))
        }
    }
}

/// Whether the diagonal through both squares is the longer one through the first.
pub fn say_longer(king: Square, other: Square, answer: &mut AnswerText) {
    let files = apart(file_of(king.number()), file_of(other.number()));
    let ranks = apart(rank_of(king.number()), rank_of(other.number()));
    if files == ranks && king.number() != other.number() {
        answer.yes_or_no(long_diagonal(king, other));
    } else {
        answer.stop.unread();
    }
}

/// The letter of a man, or nothing where there is none.
pub fn say_man(man: Option<Man>, answer: &mut AnswerText) {
    if let Some(man) = man {
        answer.put(letter_of(man).as_bytes());
    }
}

/// The names of the kinds of check.
pub fn say_kinds(kinds: Kinds, answer: &mut AnswerText) {
    answer.word_if(kinds.file, b"file");
    answer.word_if(kinds.rank, b"rank");
    answer.word_if(kinds.long, b"long");
    answer.word_if(kinds.short, b"short");
    answer.word_if(kinds.knight, b"knight");
}

/// The kinds of check of a number.
pub fn say_kinds_by(number: u8, answer: &mut AnswerText) {
    match Kinds::new(number) {
        Some(kinds) => {
            answer.only_if(kinds.bits() == number);
            say_kinds(kinds, answer);
        }
        None => answer.put(b"no kinds"),
    }
}
