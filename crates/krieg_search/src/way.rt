use krieg_words::Dialect;
use std::alloc::Global;

/// How a search works, which stays the same throughout.
#[derive(Clone, Copy)]
pub struct Way {
    pub alloc: Global,
    pub d: Dialect,
    /// Whether tries may be cut: such a try fails at once where some reply is found to leave a position that is no mate
    /// in time even for a player who sees it.
    pub cut: bool,
    /// How many notes of what blocks tries are kept at most.
    pub noted: usize,
}
