ghost use Rattle.std.specs.Prelude.{◌≡◌, ◌∷◌, []};
ghost use Rattle.krieg_text.specs.Writing.{PutsText, PutsLines, alone, closed};

use krieg_faults::NoMemory;
use std::marker::Model;
use std::mem;

/// A text that is being written: the content that was there before, and what is written after it.
///
/// `Text::after` takes the content of a byte vector, the writers named `put_*` add to it, and `end` gives
/// it back: with all that was written, or, where memory ran out, as it was, with nothing of it.
#[derive(Drop)]
pub struct Text {
    bytes: Vec<u8>,
    from: usize,
}

impl Model for Text {
    ghost use Rattle.std.specs.Prelude.{◌≤◌, take, drop, length};
    ghost use Rattle.krieg_text.specs.Writing.{Written};

    ghost Value = { Written };

    ghost view = { λ t. record { before = take t.from t.bytes.items; written = drop t.from t.bytes.items } };

    ghost invariant = { λ t. t.from ≤ length t.bytes.items };
}

impl Text {
    /// Takes the content out of the vector, to write after it. Nothing is copied.
    pub fn after(text: &mut Vec<u8>) -> Text
        ensures before { result.before ≡ text.old.items }
        ensures nothing { result.written ≡ [] }
    {
        let none = Vec::new(*text.allocator());
        let bytes = mem::replace(text, none);
        let from = bytes.len();
        Text { bytes, from }
    }

    /// Gives the content back to the vector: with all that was written after it, or, where memory ran
    /// out, as it was before. The result is that of the writing.
    pub fn end(self, done: Result<(), NoMemory>, text: &mut Vec<u8>) -> Result<(), NoMemory>
        ensures same { result ≡ done }
        ensures all { text.new.items ≡ closed done self }
    {
        let Text { mut bytes, from } = self;
        if done.is_err() {
            bytes.truncate(from);
        }
        *text = bytes;
        done
    }

    /// Adds the bytes.
    pub fn put(&mut self, bytes: &[u8]) -> Result<(), NoMemory>
        ensures { PutsText result self.old self.new bytes.now }
    {
        self.bytes.extend_from_slice(bytes)?;
        Ok(())
    }

    /// Adds one byte.
    pub fn byte(&mut self, byte: u8) -> Result<(), NoMemory>
        ensures { PutsText result self.old self.new (byte ∷ []) }
    {
        self.bytes.push(byte)?;
        Ok(())
    }

    /// Adds a line feed.
    pub fn end_line(&mut self) -> Result<(), NoMemory>
        ensures { PutsText result self.old self.new (10 ∷ []) }
    {
        self.byte(b'\n')
    }

    /// Adds the line and its line feed.
    pub fn line(&mut self, line: &[u8]) -> Result<(), NoMemory>
        ensures { PutsLines result self.old self.new (alone line.now ∷ []) }
    {
        self.put(line)?;
        self.end_line()
    }
}
