/// The most own moves that a plan may be asked for.
pub const MOST_MOVES: u8 = 6;

/// The most units of work that a command may be given.
pub const MOST_UNITS: u64 = 50_000_000;
