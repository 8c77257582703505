// A word and a number: lines of which an answer has one or more.
ghost use Rattle.std.specs.Prelude.{◌≡◌, ◌∷◌, [], IfOk};
ghost use Rattle.krieg_text.specs.Decimals.{number_text};
ghost use Rattle.krieg_text.specs.Writing.{PutsPieces, PutsLines, put_lines};

use krieg_board::NoMemory;
use krieg_text::{Text, put_number};
use std::alloc::Global;

/// Adds what is counted, and how many there are.
pub(crate) fn put_count(name: &[u8], count: usize, text: &mut Text) -> Result<(), NoMemory>
    ensures { PutsPieces result text.old text.new (name.now ∷ number_text count ∷ []) }
{
    text.put(name)?;
    put_number(count as u64, text)
}

/// Adds a line with one number.
pub(crate) fn put_counted(name: &[u8], count: usize, text: &mut Text) -> Result<(), NoMemory>
    ensures { PutsLines result text.old text.new ((name.now ∷ number_text count ∷ []) ∷ []) }
{
    put_count(name, count, text)?;
    text.end_line()
}

/// The text of that line alone.
pub(crate) fn counted(alloc: Global, name: &[u8], count: usize) -> Result<Vec<u8>, NoMemory>
    ensures { IfOk result (λ text. text.items
        ≡ put_lines [] ((name.now ∷ number_text count ∷ []) ∷ [])) }
{
    let mut answer = Vec::new(alloc);
    let mut text = Text::after(&mut answer);
    let done = put_counted(name, count, &mut text);
    text.end(done, &mut answer)?;
    Ok(answer)
}
