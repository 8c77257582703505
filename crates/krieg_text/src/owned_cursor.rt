ghost use Rattle.std.specs.Prelude.{◌≡◌, ◌<◌, ◌≤◌, ◌-◌, ◌≢◌, ◌++◌, length, take, drop, IfOk, IfErr, IfSome, Ok, Err};
ghost use Rattle.krieg_text.specs.Lines.{lines};
ghost use Rattle.krieg_text.specs.Reading.{begin, line_at};
ghost use Rattle.krieg_text.specs.declared.fault.TextFault.TheVariants.{NoMemory as OutOfMemory};
ghost use Rattle.krieg_text.specs.OwnedLines.{behind_line};

use crate::fault::{TextFault, TextKind};
use crate::lines::lines_of;
use crate::source::{LineSource, at_line};
use krieg_faults::NoMemory;
use memchr::{memchr, memrchr};
use std::alloc::Global;
use std::marker::Model;

/// Each piece of a text but the first has at least so many bytes: for as many the C library maps memory of its own, which goes back to
/// the system when the piece is let go, whatever was allocated meanwhile.
const LEAST_PIECE: usize = 131_072;

/// A reader of a text line by line that owns it: the text stands in pieces, each of which is let go once its lines are read.
///
/// In contracts it is a `Place`, as a `Cursor` is.
#[derive(Drop)]
pub struct OwnedCursor {
    /// The piece with the next line, and where that begins in it.
    piece: Vec<u8>,
    at: usize,
    /// The pieces after it, the last one first. Each piece but the last of the text ends behind a line feed.
    later: Vec<Vec<u8>>,
    /// The number of the next line.
    number: usize,
}

impl Model for OwnedCursor {
    ghost use Rattle.std.specs.Prelude.{◌≡◌, ◌⊎◌, ◌<◌, ◌≤◌, ◌+◌, ◌^◌, ◌++◌, [], length, drop};
    ghost use Rattle.krieg_text.specs.Lines.{lines};
    ghost use Rattle.krieg_text.specs.Reading.{Place, place};
    ghost use Rattle.krieg_text.specs.OwnedLines.{lines_back, HaveBytes};

    ghost Value = { Place };

    ghost view = { λ c. place c.number (lines (drop c.at c.piece.items) ++ lines_back c.later.items) };

    ghost invariant = { λ c. (c.at ≤ length c.piece.items)
        × ((c.at < length c.piece.items) ⊎ (c.later.items ≡ []))
        × HaveBytes c.later.items
        × (c.number + length (lines (drop c.at c.piece.items) ++ lines_back c.later.items) ≤ 2 ^ 63 + 1) };
}

/// How many bytes the first line has with its line feed.
#[tactic(auto, using(crate::proofs::OwnedLines::firsts))]
fn line_length(text: &[u8]) -> usize
    ensures bound { result ≤ length text.now }
    ensures line { lines (take result text.now) ≡ take 1 (lines text.now) }
    ensures rest { lines (drop result text.now) ≡ drop 1 (lines text.now) }
{
    match memchr(b'\n', text) {
        None => text.len(),
        Some(i) => i + 1,
    }
}

/// Where the line begins that stands after the one at `at`.
#[tactic(auto, using(crate::proofs::OwnedLines::begins))]
fn next_begin(text: &[u8], at: usize) -> usize
    requires { at ≤ length text.now }
    ensures bound { (at ≤ result) × (result ≤ length text.now) }
    ensures line { lines (take (result - at) (drop at text.now))
        ≡ take 1 (lines (drop at text.now)) }
    ensures rest { lines (drop result text.now) ≡ drop 1 (lines (drop at text.now)) }
{
    at + line_length(&text[at..])
}

/// Where the last piece of a text begins: behind a line feed, with at least `LEAST_PIECE` bytes after it.
fn last_begin(text: &[u8]) -> Option<usize>
    ensures { IfSome result (λ i. (0 < i) × (i < length text.now)
        × (lines text.now ≡ lines (take i text.now) ++ lines (drop i text.now))) }
{
    let most = text.len().checked_sub(LEAST_PIECE)?;
    let end = memrchr(b'\n', &text[..most])?;
    Some(end + 1)
}

/// Cuts off what stands from `begin` on, and gives its memory back.
fn cut_off(alloc: Global, text: &mut Vec<u8>, begin: usize) -> Result<Vec<u8>, NoMemory>
    requires { begin ≤ length text.old.items }
    ensures { IfOk result (λ end. (text.new.items ≡ take begin text.old.items)
        × (end.items ≡ drop begin text.old.items)) }
{
    let end = text[begin..].to_vec(alloc)?;
    text.truncate(begin);
    text.shrink_to_fit();
    Ok(end)
}

impl OwnedCursor {
    /// Stands before the first line, which has number 1.
    pub fn new(alloc: Global, text: Vec<u8>) -> Result<OwnedCursor, NoMemory>
        ensures { IfOk result (λ c. c ≡ begin text.items) }
    {
        let mut piece = text;
        let mut later: Vec<Vec<u8>> = Vec::new(alloc);
        while let Some(begin) = last_begin(&piece) {
            later.push(cut_off(alloc, &mut piece, begin)?)?;
        }
        Ok(OwnedCursor {
            piece,
            at: 0,
            later,
            number: 1,
        })
    }

    /// The next line, which stays. Where none is left, the text is not complete.
    fn line(&self) -> Result<&[u8], TextFault>
        ensures ok { IfOk result (λ l. line_at self.now ≡ Ok (l.now, behind_line self.now)) }
        ensures err { IfErr result (λ e. (line_at self.now ≡ Err e) × (e ≢ OutOfMemory)) }
    {
        lines_of(&self.piece[self.at..])
            .peek()
            .ok_or(TextFault::At {
                line: self.number,
                kind: TextKind::Syntax,
            })
    }

    /// Leaves the next line behind, if there is one.
    fn pass(&mut self)
        ensures { self.new ≡ behind_line self.old }
    {
        if self.at == self.piece.len() {
            return;
        }
        self.at = next_begin(&self.piece, self.at);
        self.number += 1;
        if self.at == self.piece.len() {
            if let Some(next) = self.later.pop() {
                self.piece = next;
                self.at = 0;
            }
        }
    }
}

impl LineSource for OwnedCursor {
    ghost place = { λ c. c };

    #[tactic(auto, using(crate::proofs::ReadingLemmas::formed))]
    fn next<A, F: FnOnce(&[u8]) -> Result<A, TextKind> + Drop>(
        &mut self,
        form: F,
    ) -> Result<A, TextFault> {
        let line = self.number;
        let read = form(self.line()?);
        self.pass();
        at_line(line, read)
    }

    #[tactic(auto, using(crate::proofs::ReadingLemmas::ends))]
    fn end(&self) -> Result<(), TextFault> {
        if self.at < self.piece.len() {
            Err(TextFault::At {
                line: self.number,
                kind: TextKind::Syntax,
            })
        } else {
            Ok(())
        }
    }
}
