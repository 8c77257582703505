/// The most nodes of a strategy.
pub const MOST_NODES: usize = 100_000;

/// The most edges of all its nodes together.
pub const MOST_EDGES: usize = 250_000;

/// The most roots: with more its text could be too long for an input.
pub const MOST_ROOTS: usize = 50_000;

/// The greatest worst case that a strategy may claim.
pub const MOST_WORST: u16 = 2_500;
