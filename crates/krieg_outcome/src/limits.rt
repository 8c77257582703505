/// The most bytes that an input may have: 64 MiB.
pub const MOST_INPUT: usize = 67_108_864;

/// Within how many own moves the plan of a job is to mate.
pub const JOB_MOVES: u8 = 1;
