ghost use Rattle.std.specs.Prelude.{◌≡◌, codes};
ghost use Rattle.krieg_outcome.specs.Refusal as spec;

use krieg_board::{BadPosition, Side};
use krieg_text::TextKind;

/// What is refused of an input.
#[derive(Clone, Copy)]
pub enum Refusal {
    /// That line is the first bad one.
    BadText(usize, TextKind),
    /// More positions are possible than the limit allows, first at that line of the sheet as it is written.
    TooMany(usize),
    /// No position is consistent with the sheet.
    NonePossible,
    /// It is not the player's turn: the game of the sheet is over, or claims are asked for and the opponent is to move.
    NotThePlayersTurn,
    /// The budget is less than the work takes.
    BudgetSpent,
    /// The plan does not mate every listed position within the number that its file claims.
    PlanFails,
    /// The best plan has more nodes than a plan file may have, or the claims are more than a refutation file may have.
    PlanTooLarge,
    /// Some plan mates within the number of moves for which a refutation is asked.
    PlanExists,
    /// The refutation does not hold.
    RefutationFails,
    /// The answer has more bytes than an input may have.
    AnswerTooLong,
    /// The plan file lists fewer positions than the number that was asked for.
    NoSuchPosition,
    /// No seat plays for the side.
    NoSeat(Side),
    /// The last seat of the side failed.
    SeatFault(Side),
}

fn text_status(kind: &TextKind) -> u8
    ensures { result ≡ spec.text_status kind.now }
{
    match kind {
        TextKind::Position(_) | TextKind::Differs => 4,
        TextKind::Version
        | TextKind::Syntax
        | TextKind::Count
        | TextKind::OutOfPlace
        | TextKind::Deep
        | TextKind::Large => 3,
    }
}

fn position_reason(fault: BadPosition) -> &'static [u8]
    ensures { result.now ≡ spec.position_reason fault }
{
    match fault {
        BadPosition::Kings => b"kings",
        BadPosition::PawnRank => b"pawn rank",
        BadPosition::TooManyMen => b"too many men",
        BadPosition::IdleInCheck => b"idle side in check",
        BadPosition::Rights => b"rights",
        BadPosition::Mark => b"mark",
    }
}

fn text_reason(kind: &TextKind) -> &'static [u8]
    ensures { result.now ≡ spec.text_reason kind.now }
{
    match kind {
        TextKind::Position(fault) => position_reason(*fault),
        TextKind::Differs => b"differs",
        TextKind::Version => b"version",
        TextKind::Syntax => b"syntax",
        TextKind::Count => b"count",
        TextKind::OutOfPlace => b"out of place",
        TextKind::Deep => b"deep",
        TextKind::Large => b"large",
    }
}

impl Refusal {
    /// The status with which the program ends.
    pub(crate) fn status(&self) -> u8
        ensures { result ≡ spec.refusal_status self.now }
    {
        match self {
            Refusal::BadText(_, kind) => text_status(kind),
            Refusal::TooMany(_) => 7,
            Refusal::NonePossible => 5,
            Refusal::NotThePlayersTurn => 6,
            Refusal::BudgetSpent => 8,
            Refusal::PlanFails => 13,
            Refusal::PlanTooLarge => 14,
            Refusal::PlanExists => 17,
            Refusal::RefutationFails => 18,
            Refusal::NoSeat(_) | Refusal::SeatFault(_) => 12,
            Refusal::AnswerTooLong => 19,
            Refusal::NoSuchPosition => 20,
        }
    }

    /// The line of the input at which it is, where it is at one, and what it is.
    pub(crate) fn reason(&self) -> (Option<usize>, &'static [u8])
        ensures place { result.0 ≡ (spec.refusal_reason self.now).0 }
        ensures what { result.1.now ≡ (spec.refusal_reason self.now).1 }
    {
        match self {
            Refusal::BadText(line, kind) => (Some(*line), text_reason(kind)),
            Refusal::TooMany(line) => (Some(*line), b"too many positions"),
            Refusal::NonePossible => (None, b"no consistent position"),
            Refusal::NotThePlayersTurn => (None, b"not the player's turn"),
            Refusal::BudgetSpent => (None, b"budget spent"),
            Refusal::PlanFails => (None, b"plan fails"),
            Refusal::PlanTooLarge => (None, b"plan too large"),
            Refusal::PlanExists => (None, b"a plan exists"),
            Refusal::RefutationFails => (None, b"refutation fails"),
            Refusal::AnswerTooLong => (None, b"answer too long"),
            Refusal::NoSuchPosition => (None, b"no such position"),
            Refusal::NoSeat(Side::White) => (None, b"no seat w"),
            Refusal::NoSeat(Side::Black) => (None, b"no seat b"),
            Refusal::SeatFault(Side::White) => (None, b"seat fault w"),
            Refusal::SeatFault(Side::Black) => (None, b"seat fault b"),
        }
    }
}
