/// The most nodes of a plan.
pub const MOST_NODES: usize = 100_000;

/// The most nodes on a path of a plan, and so the most own moves that it can take.
pub const MOST_ON_PATH: usize = 2_500;
