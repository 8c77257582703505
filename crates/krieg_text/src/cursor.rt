ghost use Rattle.std.specs.Prelude.{◌≡◌, ◌+◌, ◌≢◌, IfOk, IfErr, OnOk, OnErr, Ok, Err, length};
ghost use Rattle.krieg_text.specs.Reading.{begin, line_at, Passed};
ghost use Rattle.krieg_text.specs.declared.fault.TextFault.TheVariants.{NoMemory as OutOfMemory};

use crate::fault::{TextFault, TextKind};
use crate::lines::{Lines, lines_of};
use crate::source::{LineSource, at_line};
use std::marker::Model;

/// A reader of a text line by line: the lines that are left, and the number of the first of them.
///
/// In contracts it is a `Place`.
#[derive(Drop)]
pub struct Cursor<'a> {
    source: Lines<'a>,
    number: usize,
}

impl<'a> Model for Cursor<'a> {
    ghost use Rattle.std.specs.Prelude.{◌≤◌, ◌+◌, ◌^◌, length};
    ghost use Rattle.krieg_text.specs.Reading.{Place, place};

    ghost Value = { Place };

    ghost view = { λ c. place c.number c.source };

    ghost invariant = { λ c. c.number + length c.source ≤ 2 ^ 63 + 1 };
}

impl<'a> Cursor<'a> {
    /// Stands before the first line, which has number 1.
    pub fn new(text: &'a [u8]) -> Cursor<'a>
        ensures { result ≡ begin text.now }
    {
        Cursor {
            source: lines_of(text),
            number: 1,
        }
    }

    /// The next line. Where none is left, the text is not complete.
    #[tactic(auto, using(crate::proofs::ReadingLemmas::passed))]
    fn line(&mut self) -> Result<&'a [u8], TextFault>
        ensures ok { IfOk result (λ l. line_at self.old ≡ Ok (l.now, self.new)) }
        ensures err { IfErr result (λ e. (line_at self.old ≡ Err e) × (e ≢ OutOfMemory)) }
        ensures fewer { OnOk result (length self.new.left + 1 ≡ length self.old.left) }
        ensures same { OnErr result (self.new ≡ self.old) }
        ensures rest { Passed self.old self.new }
    {
        match self.source.next() {
            Some(line) => {
                self.number += 1;
                Ok(line)
            }
            None => Err(TextFault::At {
                line: self.number,
                kind: TextKind::Syntax,
            }),
        }
    }
}

impl<'a> LineSource for Cursor<'a> {
    ghost place = { λ c. c };

    #[tactic(auto, using(crate::proofs::ReadingLemmas::formed))]
    fn next<A, F: FnOnce(&[u8]) -> Result<A, TextKind> + Drop>(
        &mut self,
        form: F,
    ) -> Result<A, TextFault> {
        let line = self.number;
        at_line(line, form(self.line()?))
    }

    #[tactic(auto, using(crate::proofs::ReadingLemmas::ends))]
    fn end(&self) -> Result<(), TextFault> {
        if self.source.is_empty() {
            Ok(())
        } else {
            Err(TextFault::At {
                line: self.number,
                kind: TextKind::Syntax,
            })
        }
    }
}
