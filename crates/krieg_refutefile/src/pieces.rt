ghost use Rattle.std.specs.Prelude.{◌≡◌, ◌++◌, [], IfOk};
ghost use Rattle.krieg_refutefile.specs.InPieces.{all_of, IsTaken};

use krieg_board::NoMemory;
use krieg_text::Text;
use std::alloc::Global;
use std::marker::Model;

/// A piece has room for so many bytes: in smaller ones more is lost at their ends, and larger ones fit into fewer of the gaps that
/// come free.
const PIECE: usize = 8_192;

/// A piece with so many bytes is full: most lines fit behind fewer.
const FULL: usize = PIECE - 128;

/// A text in pieces of 8 KiB, each with memory of its own: a text that grows is never copied, and takes the memory that comes free
/// meanwhile.
///
/// In contracts it is the text.
#[derive(Drop)]
pub struct Pieces {
    pieces: Vec<Vec<u8>>,
}

impl Model for Pieces {
    ghost use Rattle.std.specs.Prelude.{ℕ, List};
    ghost use Rattle.krieg_refutefile.specs.InPieces.{all_of};

    ghost Value = { List ℕ };

    ghost view = { λ p. all_of p.pieces.items };
}

impl Pieces {
    /// No text yet.
    pub(crate) fn new(alloc: Global) -> Pieces
        ensures { result ≡ [] }
    {
        Pieces {
            pieces: Vec::new(alloc),
        }
    }

    /// The pieces, in order.
    pub fn pieces(&self) -> &[Vec<u8>]
        ensures { all_of result.now ≡ self.now }
    {
        &self.pieces
    }

    /// Takes the last piece out, to write a line after it. Where it is full, it stays, and a new one is begun.
    pub(crate) fn take_last(&mut self) -> Result<Text, NoMemory>
        ensures { IfOk result (IsTaken self.old self.new) }
    {
        if let Some(mut last) = self.pieces.pop() {
            if last.len() < FULL {
                return Ok(Text::after(&mut last));
            }
            self.pieces.push(last)?;
        }
        let mut next = Vec::with_capacity(*self.pieces.allocator(), PIECE)?;
        Ok(Text::after(&mut next))
    }

    /// Puts the last piece back, with what was written after it. The result is that of the writing, where memory is found.
    pub(crate) fn put_back(
        &mut self,
        text: Text,
        done: Result<(), NoMemory>,
    ) -> Result<(), NoMemory>
        ensures { IfOk result (λ u. (done ≡ Ok tt)
            × (self.new ≡ self.old ++ (text.before ++ text.written))) }
    {
        let mut piece = Vec::new(*self.pieces.allocator());
        text.end(done, &mut piece)?;
        self.pieces.push(piece)?;
        Ok(())
    }
}
