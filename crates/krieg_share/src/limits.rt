/// Nodes are looked for so many levels deep at most: each level stands for a node that leads to the next.
pub(crate) const MOST_LEVELS: u16 = 5_000;
