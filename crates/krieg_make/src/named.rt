//! The squares that are called by their names.

pub(crate) const C1: u8 = 2;

pub(crate) const G1: u8 = 6;

pub(crate) const F3: u8 = 21;

pub(crate) const F6: u8 = 45;

pub(crate) const H7: u8 = 55;

pub(crate) const G8: u8 = 62;
