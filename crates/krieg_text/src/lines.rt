ghost use Rattle.std.specs.Prelude.{◌≡◌, ◌<◌, ◌≤◌, ◌∷◌, ◌==◌, ◌↔◌, ℕ, List, [], length, IfNone, IfSome, IsTrue, true, false, slice_index, slice_get};
ghost use Rattle.std.specs.Iterator.{YieldsFirstRef, item_count};
ghost use Rattle.std.specs.Option.{option_copied};
ghost use Rattle.krieg_text.specs.Lines.{lines, with_ends, AreLines, EndsLines};

use memchr::memchr;
use std::marker::Model;

/// The lines of a text that are left, each without its line feed.
///
/// In contracts it is the list of these lines.
#[derive(Drop)]
pub struct Lines<'a> {
    rest: &'a [u8],
}

impl<'a> Model for Lines<'a> {
    ghost use Rattle.std.specs.Prelude.{ℕ, List};
    ghost use Rattle.krieg_text.specs.Lines.{lines};

    ghost Value = { List (List ℕ) };

    ghost view = { λ s. lines s.rest.now };
}

/// The lines of the text: it is cut at each line feed, and a last piece that is empty is dropped, so the
/// last line feed may be absent. A carriage return is a byte like others.
#[tactic(auto, using(crate::proofs::LineCuts::sizes, crate::proofs::LineTexts::again))]
pub fn lines_of<'a>(text: &'a [u8]) -> Lines<'a>
    ensures value { result ≡ lines text.now }
    // The lines with their line feeds are the text, and lines that were written so are read again.
    ensures found { AreLines result × EndsLines text.now result }
    ensures only { (ls : List (List ℕ)) → AreLines ls → text.now ≡ with_ends ls → result ≡ ls }
    ensures short { length result ≤ length text.now }
{
    Lines { rest: text }
}

impl<'a> Iterator for Lines<'a> {
    type Item = &'a [u8];

    ghost next_gives = { YieldsFirstRef (λ s. s) };

    ghost remaining = { item_count (λ s. s) };

    fn next(&mut self) -> Option<&'a [u8]> {
        if self.rest.is_empty() {
            return None;
        }
        let (line, rest) = cut_line(self.rest);
        self.rest = rest;
        Some(line)
    }
}

impl<'a> Lines<'a> {
    /// The next line, which stays.
    pub fn peek(&self) -> Option<&'a [u8]>
        ensures { option_copied result ≡ slice_get self.now 0 }
    {
        if self.rest.is_empty() {
            return None;
        }
        let (line, _) = cut_line(self.rest);
        Some(line)
    }

    /// Whether no line is left.
    #[tactic(auto, using(crate::proofs::LineCuts::ends))]
    pub fn is_empty(&self) -> bool
        ensures { IsTrue result ↔ (self.now ≡ []) }
    {
        self.rest.is_empty()
    }
}

/// Where the first line feed stands.
fn line_end(text: &[u8]) -> Option<usize>
    ensures none { IfNone result ((k : ℕ) → k < length text.now →
        (slice_index text.now k == 10) ≡ false) }
    ensures some { IfSome result (λ i. (i < length text.now)
        × ((slice_index text.now i == 10) ≡ true)
        × ((k : ℕ) → k < i → (slice_index text.now k == 10) ≡ false)) }
{
    memchr(b'\n', text)
}

/// The first line, and what stands after its line feed.
#[tactic(auto, using(crate::proofs::LineCuts::cuts))]
fn cut_line(text: &[u8]) -> (&[u8], &[u8])
    requires { 0 < length text.now }
    ensures { lines text.now ≡ result.0.now ∷ lines result.1.now }
{
    match line_end(text) {
        None => (text, &[]),
        Some(i) => (&text[..i], &text[i + 1..]),
    }
}
