// The trait of players.
ghost use Rattle.std.specs.Prelude.{◌≡◌};
ghost use Rattle.krieg_seats.specs.Accounts.{Account, Asked, Told};

use krieg_board::Move;
use krieg_wordtext::Line;

/// What a player says when he is asked.
#[derive(Clone, Copy)]
pub enum Say {
    /// He tries a move.
    Try(Move),
    /// He leaves the game.
    Leave,
}

/// Why a call of a seat gave no answer.
#[derive(Clone, Copy)]
pub enum SeatFault {
    /// The seat failed: its count of faults rose in that call, or stands at its last value.
    Failed,
    /// There was no memory. Nothing was said or heard in that call.
    NoMemory,
}

/// A player, or what stands for one. In contracts it is an `Account`: the moves that it has said and the lines
/// that it has heard, in order, how often it was asked, how many of its calls failed, and how often it left. No
/// call lets any of these fall.
pub trait Seat: Drop {
    // What the seat has said and heard, and its counts.
    ghost account: { Self → Account };

    /// Asks for a try. The count of asks rises by one in each of these calls, whatever comes of it, and in no other. A
    /// move that is said is added to those that it has said; the count of leaves rises where it leaves, and in no
    /// other call.
    ///
    /// # Errors
    ///
    /// `Failed` is a fault of the seat, and its count rose. After `NoMemory` the count of faults may have risen.
    /// Nothing was said.
    fn ask(&mut self) -> Result<Say, SeatFault>
        ensures { Asked result (account self.old) (account self.new) };

    /// Tells a line, which is added to those that it has heard.
    ///
    /// # Errors
    ///
    /// `Failed` is a fault of the seat, and its count rose. After `NoMemory` the count of faults may have risen.
    /// The line is not among those that it has heard.
    fn tell(&mut self, line: Line) -> Result<(), SeatFault>
        ensures { Told line result (account self.old) (account self.new) };

    /// The moves that it has said, in order.
    fn said(&self) -> &[Move]
        ensures { result.now ≡ (account self.now).said };

    /// The lines that it has heard, in order.
    fn heard(&self) -> &[Line]
        ensures { result.now ≡ (account self.now).heard };
}
