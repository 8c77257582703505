ghost use Rattle.std.specs.Prelude.{◌≡◌, ◌≢◌, ◌+◌, ℕ, List, IfOk, IfErr, OnOk, Ok, length};
ghost use Rattle.std.specs.Fn.{FnOnceReturnsAt};
ghost use Rattle.krieg_text.specs.Reading.{on, ended, Passed, GivesTaken};
ghost use Rattle.krieg_text.specs.declared.fault.TextFault.TheVariants.{NoMemory as OutOfMemory};

use crate::fault::{TextFault, TextKind};

/// The lines of a text, which readers take one after another.
pub trait LineSource {
    ghost use Rattle.krieg_text.specs.Reading.{Place};

    /// The lines that are left, and the number of the first of them.
    ghost place: { Self → Place };

    /// The next line, read by the form. A kind of fault of the form is told with the number of the line. Where no line is
    /// left, the text is not complete.
    fn next<A, F: FnOnce(&[u8]) -> Result<A, TextKind> + Drop>(
        &mut self,
        form: F,
    ) -> Result<A, TextFault>
        requires { F.IsAlwaysCallable form }
        ensures value { GivesTaken (FnOnceReturnsAt F.FnOnce form) result (place self.old)
            (place self.new) }
        // The value is what the form made of some line.
        ensures made { IfOk result (λ x. (l : List ℕ) × FnOnceReturnsAt F.FnOnce form l (Ok x)) }
        ensures fewer { OnOk result
            (length (place self.new).left + 1 ≡ length (place self.old).left) }
        ensures rest { Passed (place self.old) (place self.new) }
        ensures memory { IfErr result (λ e. e ≢ OutOfMemory) };

    /// That no line is left: one that is there is a fault of kind `Syntax`.
    fn end(&self) -> Result<(), TextFault>
        ensures { result ≡ ended tt (place self.now).number (place self.now).left };
}

/// What a form made of the line with that number.
pub(crate) fn at_line<A>(line: usize, read: Result<A, TextKind>) -> Result<A, TextFault>
    ensures { result ≡ on line read }
{
    read.map_err(|kind| TextFault::At { line, kind })
}
