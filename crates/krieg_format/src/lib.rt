//! Text formats described once: what is proved of a description holds of every format.
//!
//! A `Format` of `specs/Descriptions` says which lines stand in a text, in which order, and what they say. Three things
//! are read off it: the reader (`Readers`), the table of the lines that say a value (`Tables`), and the written form
//! (`Written`). Its grammar, by which the first bad line is judged, is the index of its type. `Lines` has the lines and
//! parts that descriptions are made of.
//!
//! The laws stand in `proofs/`: a reader answers exactly what the table says, and its fault is the first bad line
//! (`Reading`); what is written says the value, so it is read as it again (`Writing`); and what lines say may be written
//! (`Fitting`). They are proved by induction over all descriptions. A format owes the laws of its own lines alone (`Leaves`,
//! `LeafTexts`). `Repeats` helps code that reads one item after another in a loop.
//!
//! This crate has no code: it is definitions and laws, for crates of texts.
#![tactic(auto)]
