ghost use Rattle.std.specs.Prelude.{◌≡◌, map, string_bytes};
ghost use Rattle.krieg_args.specs.Command as spec;

use krieg_board::{MOST_MOVES, MOST_UNITS, Side};
use krieg_fen::MOST_LISTED;
use krieg_text::{is_name, read_number_between};

/// How often the players of a game may be asked at most.
pub const MOST_ASKS: u64 = 4_096;

/// The greatest number of a made input and of a made job.
pub const MOST_SEED: u64 = 4_294_967_295;

/// The most own moves that `find`, `keys` and `share` may be asked for.
pub const MOST_FIND_MOVES: u8 = 100;

/// The most units of work that `find`, `keys`, `share` and `judge` may be given.
pub const MOST_FIND_UNITS: u64 = 4_000_000_000;

/// What a made input is.
#[derive(Clone, Copy)]
pub enum MadeInput {
    /// A session.
    Session,
    /// A sheet.
    Sheet,
}

/// What the words after the program's name ask for.
#[derive(Clone, Copy)]
pub enum Command {
    /// `solve MOVES BUDGET LIMIT`: a plan for a sheet within so many moves, with so many units of work
    /// and sets of so many positions at most.
    Solve {
        /// From 1 to [`MOST_MOVES`].
        moves: u64,
        /// From 1 to [`MOST_UNITS`].
        budget: u64,
        /// From 1 to [`MOST_LISTED`].
        limit: u64,
    },
    /// `check BUDGET`: the check of a plan file, with so many units.
    Check {
        /// From 1 to [`MOST_UNITS`].
        budget: u64,
    },
    /// `refute MOVES BUDGET LIMIT`: a refutation for a sheet, that no plan mates within so many moves, with so many units of
    /// work and sets of so many positions at most.
    Refute {
        /// From 1 to [`MOST_MOVES`].
        moves: u64,
        /// From 1 to [`MOST_UNITS`].
        budget: u64,
        /// From 1 to [`MOST_LISTED`].
        limit: u64,
    },
    /// `deny BUDGET`: the check of a refutation, with so many units.
    Deny {
        /// From 1 to [`MOST_UNITS`].
        budget: u64,
    },
    /// `believe LIMIT`: the positions that a sheet leaves possible, of which there may be so many.
    Believe {
        /// From 1 to [`MOST_LISTED`].
        limit: u64,
    },
    /// `why LIMIT`: a hidden game for each position that a sheet leaves possible, of which there may be so many.
    Why {
        /// From 1 to [`MOST_LISTED`].
        limit: u64,
    },
    /// `umpire w`, `umpire b`, `umpire all`: what one player hears of a session, as a sheet, or what both
    /// hear.
    Umpire {
        /// The player, or none for both.
        who: Option<Side>,
    },
    /// `san`: the record of a session, with the moves that were made in algebraic notation.
    San,
    /// `unsan`: the session of a record.
    Unsan,
    /// `play ASKS WIN WOUT BIN BOUT`: a game from a position between the players of four files, with so
    /// many asks at most.
    Play {
        /// From 1 to [`MOST_ASKS`].
        asks: u64,
    },
    /// `lead ASKS NUMBER IN OUT`: a game that a plan leads from the listed position with that number, against the
    /// player of two files, with so many tries at most.
    Lead {
        /// From 1 to [`MOST_ASKS`].
        asks: u64,
        /// From 1 to [`MOST_LISTED`].
        number: u64,
    },
    /// `next`: what a player does next who follows a plan and heard these lines.
    Next,
    /// `find MOVES BUDGET LIMIT`, words of the program `krieg_find`: a plan for a sheet as for `solve`, within more moves if it is
    /// asked for, and mostly with far fewer units of work. The three numbers alone ask for the same.
    Find {
        /// From 1 to [`MOST_FIND_MOVES`].
        moves: u64,
        /// From 1 to [`MOST_FIND_UNITS`].
        budget: u64,
        /// From 1 to [`MOST_LISTED`].
        limit: u64,
    },
    /// `keys MOVES BUDGET LIMIT`, words of the program `krieg_find`: each first try of a sheet that is as fast as any, with the
    /// numbers of `find`.
    Keys {
        /// From 1 to [`MOST_FIND_MOVES`].
        moves: u64,
        /// From 1 to [`MOST_FIND_UNITS`].
        budget: u64,
        /// From 1 to [`MOST_LISTED`].
        limit: u64,
    },
    /// `share MOVES BUDGET LIMIT`, words of the program `krieg_find`: the plan of `find` as a strategy, with the numbers of `find`.
    Share {
        /// From 1 to [`MOST_FIND_MOVES`].
        moves: u64,
        /// From 1 to [`MOST_FIND_UNITS`].
        budget: u64,
        /// From 1 to [`MOST_LISTED`].
        limit: u64,
    },
    /// `judge BUDGET`, words of the program `krieg_find`: the judgement of a strategy, with so many units.
    Judge {
        /// From 1 to [`MOST_FIND_UNITS`].
        budget: u64,
    },
    /// `advise`, a word of the program `krieg_find`: what a player does next who follows a strategy and heard these lines.
    Advise,
    /// `conduct ASKS NUMBER IN OUT`, words of the program `krieg_find`: a game that a strategy leads from the listed position with that
    /// number, against the player of two files, with so many tries at most.
    Conduct {
        /// From 1 to [`MOST_ASKS`].
        asks: u64,
        /// From 1 to [`MOST_LISTED`].
        number: u64,
    },
    /// `make session NUMBER`, `make sheet NUMBER`: a made input with that number.
    Make {
        /// Its kind.
        what: MadeInput,
        /// From 0 to [`MOST_SEED`].
        number: u64,
    },
    /// `job NUMBER`: the summary of the made job with that number.
    Job {
        /// From 0 to [`MOST_SEED`].
        number: u64,
    },
}

impl Command {
    /// Whether the command reads an input. A made input is not read.
    pub fn takes_input(&self) -> bool
        ensures { result ≡ spec.takes_input self.now }
    {
        !matches!(self, Command::Make { .. } | Command::Job { .. })
    }
}
