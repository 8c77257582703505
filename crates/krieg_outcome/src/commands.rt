//! What each command makes of its text, one file each, and one for `solve` and `find`. `asked`, `search`, `counted` and
//! `recorded` have what several of them share.

pub(crate) mod advise;
pub(crate) mod asked;
pub(crate) mod believe;
pub(crate) mod check;
pub(crate) mod conduct;
pub(crate) mod counted;
pub(crate) mod deny;
pub(crate) mod job;
pub(crate) mod judge;
pub(crate) mod keys;
pub(crate) mod lead;
pub(crate) mod make;
pub(crate) mod next;
pub(crate) mod play;
pub(crate) mod recorded;
pub(crate) mod refute;
pub(crate) mod san;
pub(crate) mod search;
pub(crate) mod share;
pub(crate) mod solve;
pub(crate) mod umpire;
pub(crate) mod unsan;
pub(crate) mod why;
