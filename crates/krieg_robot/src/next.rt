// What a player does next.
use krieg_board::Move;

/// What a player does next who follows a guide.
#[derive(Clone, Copy)]
pub enum Next {
    /// He tries a move.
    Try(Move),
    /// He waits for a line.
    Wait,
    /// His last try has mated.
    Mated,
    /// He heard a line that the plan does not know.
    Lost,
}
