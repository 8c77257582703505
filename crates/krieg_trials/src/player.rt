// Who plays a game, and a player who finds no memory.

use crate::line_result::{LineResult, counted, parted};
use krieg_board::{Move, NoMemory, Side};
use krieg_fen::read_move;
use krieg_plan::PlanFile;
use krieg_planfile::read_plan;
use krieg_robot::GuidedSeat;
use krieg_seats::{Say, ScriptSeat, Seat, SeatFault, StreamSeat};
use krieg_text::TextFault;
use krieg_wordtext::Line;
use std::alloc::Global;
use std::io::Cursor;
use std::mem;

/// What a player does when he is asked.
#[derive(Clone, Copy)]
pub enum Manner {
    /// He tries moves one after another, and leaves.
    Tries,
    /// He sends a text, a line each time.
    Sends,
    /// He follows a plan file.
    Follows,
    /// He finds no memory.
    Forgets,
}

/// What a player does of `tries MOVES`, `sends`, `follows` or `forgets`, or none for other words.
pub fn manner_of(words: &str) -> Option<Manner> {
    Some(match parted(words).0 {
        "tries" => Manner::Tries,
        "sends" => Manner::Sends,
        "follows" => Manner::Follows,
        "forgets" => Manner::Forgets,
        _ => return None,
    })
}

/// A player who is to sit down, behind those of his side who were named before.
#[derive(Drop)]
pub struct NamedPlayer {
    pub who: Side,
    pub manner: Manner,
    /// What he tries.
    moves: Vec<Move>,
    /// Which of his calls fail, where he tries.
    fails: Vec<u64>,
    /// What he sends, or his plan file.
    text: Vec<u8>,
}

impl NamedPlayer {
    /// A player without moves and without a text, whose calls do not fail.
    pub fn new(alloc: Global, who: Side, manner: Manner) -> NamedPlayer {
        NamedPlayer {
            who,
            manner,
            moves: Vec::new(alloc),
            fails: Vec::new(alloc),
            text: Vec::new(alloc),
        }
    }

    /// Adds the moves behind the first of the words, where he is one who tries.
    pub fn add_moves(&mut self, words: &str) -> LineResult {
        if !matches!(self.manner, Manner::Tries) {
            return LineResult::Holds;
        }
        let mut all = words.split(' ');
        let _manner = all.next();
        for word in all {
            match read_move(word.as_bytes()) {
                Ok(mv) => {
                    if self.moves.push(mv).is_err() {
                        return LineResult::Short;
                    }
                }
                Err(_) => return LineResult::Fails,
            }
        }
        LineResult::Holds
    }

    /// Adds a text, and how it ends, to what he sends or to his plan file, where he is one who has a text.
    pub fn send(&mut self, text: &str, end: &[u8]) -> LineResult {
        if !matches!(self.manner, Manner::Sends | Manner::Follows) {
            return LineResult::Fails;
        }
        let is_kept = self.text.extend_from_slice(text.as_bytes()).is_ok()
            && self.text.extend_from_slice(end).is_ok();
        LineResult::kept(is_kept)
    }

    /// Has his call of the number that stands first in the text fail, where he is one who tries.
    pub fn fail(&mut self, text: &str) -> LineResult {
        match (self.manner, counted(text)) {
            (Manner::Tries, Some((call, _))) => {
                LineResult::kept(self.fails.push(call as u64).is_ok())
            }
            _ => LineResult::Fails,
        }
    }

    /// A seat that says his moves and fails at his calls, or none where there is no memory. He has none of them then.
    pub fn scripted(&mut self, alloc: Global) -> Option<Box<ScriptSeat>> {
        let moves = mem::replace(&mut self.moves, Vec::new(alloc));
        let fails = mem::replace(&mut self.fails, Vec::new(alloc));
        Box::new(alloc, ScriptSeat::new(alloc, moves, fails)).ok()
    }

    /// A seat behind his text, which is told into memory, or none where there is no memory. He has no text then.
    pub fn sending(&mut self, alloc: Global) -> Option<Box<StreamSeat<Cursor<Vec<u8>>, Vec<u8>>>> {
        let from = Cursor::new(mem::replace(&mut self.text, Vec::new(alloc)));
        let told = Vec::new(alloc);
        Box::new(alloc, StreamSeat::new(alloc, Some(from), Some(told))).ok()
    }

    /// A seat that follows the plan file of his text, or none where it spells none.
    ///
    /// # Errors
    ///
    /// Memory was not found.
    pub fn guided(&self, alloc: Global) -> Result<Option<Box<GuidedSeat<PlanFile>>>, NoMemory> {
        match read_plan(alloc, &self.text) {
            Ok(file) => boxed(alloc, file),
            Err(TextFault::At { .. }) => Ok(None),
            Err(TextFault::NoMemory) => Err(NoMemory),
        }
    }
}

/// A seat that follows the plan file.
fn boxed(alloc: Global, file: PlanFile) -> Result<Option<Box<GuidedSeat<PlanFile>>>, NoMemory> {
    match Box::new(alloc, GuidedSeat::new(alloc, file)) {
        Ok(seat) => Ok(Some(seat)),
        Err(_) => Err(NoMemory),
    }
}

/// A seat that finds no memory when it is asked.
#[derive(Drop)]
pub struct ForgetfulSeat {
    said: Vec<Move>,
    heard: Vec<Line>,
    asks: u64,
}

/// Such a seat, which has heard nothing, or none where there is no memory.
pub fn forgetful(alloc: Global) -> Option<Box<ForgetfulSeat>> {
    let seat = ForgetfulSeat {
        said: Vec::new(alloc),
        heard: Vec::new(alloc),
        asks: 0,
    };
    Box::new(alloc, seat).ok()
}

impl Seat for ForgetfulSeat {
    ghost account = { λ s. record { said = s.said.items; heard = s.heard.items; asks = s.asks; faults = 0; leaves = 0 } };

    fn ask(&mut self) -> Result<Say, SeatFault> {
        self.asks = self.asks.saturating_add(1);
        Err(SeatFault::NoMemory)
    }

    fn tell(&mut self, line: Line) -> Result<(), SeatFault> {
        match self.heard.push(line) {
            Ok(()) => Ok(()),
            Err(_) => Err(SeatFault::NoMemory),
        }
    }

    fn said(&self) -> &[Move] {
        &self.said
    }

    fn heard(&self) -> &[Line] {
        &self.heard
    }
}
