// What the facts are about.

use crate::given::Given;
use crate::mark::found;
use crate::terms::with_men;
use krieg_board::{Bits, Position};
use krieg_fen::read_position;
use krieg_words::{Dialect, read_dialect};
use std::alloc::Global;

/// Where a game begins.
pub const START: &[u8] = b"rnbqkbnr/pppppppp/8/8/8/8/PPPPPPPP/RNBQKBNR w KQkq -";

/// What stands: each line that sets it changes it for the facts below.
#[derive(Drop)]
pub struct Scene {
    pub alloc: Global,
    pub dialect: Dialect,
    /// The board, which may lack kings.
    pub bits: Bits,
    pub position: Position,
}

/// What a line sets.
#[derive(Clone, Copy)]
enum LineMark {
    /// Nothing: it says in words what follows.
    Title,
    Dialect,
    Position,
    Board,
    Put,
    Take,
    /// It has no mark.
    Unread,
}

static LINES: [(&str, LineMark); 7] = [
    ("", LineMark::Title),
    ("case", LineMark::Title),
    ("dialect", LineMark::Dialect),
    ("position", LineMark::Position),
    ("board", LineMark::Board),
    ("put", LineMark::Put),
    ("take", LineMark::Take),
];

fn dialect_of(given: &mut Given) -> Dialect {
    let found = read_dialect(given.rest().as_bytes());
    given.or_unread(found, Dialect::Wild16)
}

impl Scene {
    /// The position alone, in wild16.
    pub fn new(alloc: Global, position: Position) -> Scene {
        Scene {
            alloc,
            dialect: Dialect::Wild16,
            bits: *position.bits(),
            position,
        }
    }

    /// The position that the rest spells.
    pub fn position_in(&self, given: &mut Given) -> Position {
        let found = read_position(given.rest().as_bytes()).ok();
        given.or_unread(found, self.position)
    }

    fn set_position(&mut self, given: &mut Given) {
        self.position = self.position_in(given);
        self.bits = *self.position.bits();
    }

    /// Takes a line that sets what stands, or says nothing.
    pub fn set(&mut self, given: &mut Given) {
        match found(&LINES, given.word()).unwrap_or(LineMark::Unread) {
            LineMark::Title => {
                let _title = given.rest();
            }
            LineMark::Dialect => self.dialect = dialect_of(given),
            LineMark::Position => self.set_position(given),
            LineMark::Board => self.bits = with_men(&Bits::from_board(&[None; 64]), given),
            LineMark::Put => self.bits = with_men(&self.bits, given),
            LineMark::Take => self.bits = self.bits.with(given.square().number(), None),
            LineMark::Unread => given.stop.unread(),
        }
    }
}
