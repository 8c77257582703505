use krieg_board::Position;
use krieg_umpire::Event;

/// A hidden game: the position in which it stands, where it began, and the tries of both players.
///
/// In contracts it is a `ShownState`.
#[derive(Drop)]
pub struct Shown {
    /// Where it stands.
    pub last: Position,
    /// Where it began.
    pub start: Position,
    /// The tries of both players, in the order in which they came.
    pub events: Vec<Event>,
}
