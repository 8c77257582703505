use krieg_board::Move;

/// What is known of a set of positions with a number of own moves.
#[derive(Clone, Copy)]
pub enum SetResult {
    /// The set can be won within the number, by this try first.
    Wins(Move),
    /// It cannot.
    Loses,
}

/// With how many own moves a set is won, from 1 on, and by which try first.
#[derive(Clone, Copy)]
pub struct Win {
    pub moves: u8,
    pub mv: Move,
}
