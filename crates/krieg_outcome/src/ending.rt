ghost use Rattle.std.specs.Prelude.{◌≡◌, codes};
ghost use Rattle.krieg_outcome.specs.Ending as spec;

use crate::refusal::Refusal;
use krieg_board::NoMemory;
use krieg_parting::PartStop;
use krieg_ports::{ReadEnd, WriteFault};
use krieg_search::SearchStop;
use krieg_text::TextFault;

/// How a run ends.
#[derive(Clone, Copy)]
pub enum Ending {
    /// The answer was written.
    Answered,
    /// The words are no command.
    Usage,
    /// The input has too many bytes.
    TooLong,
    /// A read of the input failed.
    ReadFault,
    /// A write of the answer failed.
    WriteFault,
    /// Memory was not found.
    NoMemory,
    /// The command refuses its input.
    Refused(Refusal),
}

impl From<NoMemory> for Ending {
    ghost use Rattle.krieg_outcome.specs.declared.ending.Ending.TheVariants as ending;

    ghost from_gives = { λ _ e. e ≡ ending.NoMemory };

    fn from(_error: NoMemory) -> Ending {
        Ending::NoMemory
    }
}

impl From<TextFault> for Ending {
    ghost use Rattle.krieg_outcome.specs.Parts.{of_text};

    ghost from_gives = { λ fault e. e ≡ of_text fault };

    fn from(fault: TextFault) -> Ending {
        match fault {
            TextFault::At { line, kind } => Ending::Refused(Refusal::BadText(line, kind)),
            TextFault::NoMemory => Ending::NoMemory,
        }
    }
}

impl From<ReadEnd> for Ending {
    ghost use Rattle.krieg_outcome.specs.Parts.{of_read};

    ghost from_gives = { λ why e. e ≡ of_read why };

    fn from(why: ReadEnd) -> Ending {
        match why {
            ReadEnd::TooLong => Ending::TooLong,
            ReadEnd::ReadFault => Ending::ReadFault,
            ReadEnd::NoMemory => Ending::NoMemory,
        }
    }
}

impl From<PartStop> for Ending {
    ghost use Rattle.krieg_outcome.specs.Parts.{of_part};

    ghost from_gives = { λ stop e. e ≡ of_part stop };

    fn from(stop: PartStop) -> Ending {
        match stop {
            PartStop::Spent => Ending::Refused(Refusal::BudgetSpent),
            PartStop::NoMemory => Ending::NoMemory,
        }
    }
}

impl From<SearchStop> for Ending {
    ghost use Rattle.krieg_outcome.specs.Parts.{of_search};

    ghost from_gives = { λ stop e. e ≡ of_search stop };

    fn from(stop: SearchStop) -> Ending {
        match stop {
            SearchStop::Spent => Ending::Refused(Refusal::BudgetSpent),
            SearchStop::Large => Ending::Refused(Refusal::PlanTooLarge),
            SearchStop::NoMemory => Ending::NoMemory,
        }
    }
}

impl From<WriteFault> for Ending {
    ghost use Rattle.krieg_outcome.specs.declared.ending.Ending.TheVariants as ending;

    ghost from_gives = { λ _ e. e ≡ ending.WriteFault };

    fn from(_error: WriteFault) -> Ending {
        Ending::WriteFault
    }
}

impl Ending {
    /// The status with which the program ends.
    pub fn status(&self) -> u8
        ensures { result ≡ spec.status self.now }
    {
        match self {
            Ending::Answered => 0,
            Ending::Usage => 1,
            Ending::TooLong => 2,
            Ending::ReadFault => 9,
            Ending::WriteFault => 10,
            Ending::NoMemory => 11,
            Ending::Refused(refusal) => refusal.status(),
        }
    }

    /// The line of the input at which it is, where it is at one, and what it is. An answer has no reason.
    pub fn reason(&self) -> (Option<usize>, &'static [u8])
        ensures place { result.0 ≡ (spec.reason self.now).0 }
        ensures what { result.1.now ≡ (spec.reason self.now).1 }
    {
        match self {
            Ending::Answered => (None, b""),
            Ending::Usage => (None, b"usage"),
            Ending::TooLong => (None, b"input too long"),
            Ending::ReadFault => (None, b"read fault"),
            Ending::WriteFault => (None, b"write fault"),
            Ending::NoMemory => (None, b"want of memory"),
            Ending::Refused(refusal) => refusal.reason(),
        }
    }
}
