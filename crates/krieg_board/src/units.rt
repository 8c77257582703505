ghost use Rattle.std.specs.Prelude.{◌≡◌, ◌<◌, ◌+◌, ℕ, OnOk, OnErr, IsErr, ◌↔◌};

use std::marker::Model;

/// There are fewer units left than were to be taken.
#[derive(Clone, Copy)]
pub struct NoUnits;

/// A number of units of work that may still be done.
///
/// In contracts it is the number that is left.
#[derive(Drop)]
pub struct Units {
    left: u64,
}

impl Model for Units {
    ghost Value = { ℕ };

    ghost view = { λ u. u.left };
}

impl Units {
    /// `n` units.
    pub fn new(n: u64) -> Units
        ensures { result ≡ n }
    {
        Units { left: n }
    }

    /// How many units are left.
    pub fn left(&self) -> u64
        ensures { result ≡ self.now }
    {
        self.left
    }

    /// Takes `n` units, or none: `NoUnits` comes exactly where fewer than `n` are left.
    pub fn take(&mut self, n: u64) -> Result<(), NoUnits>
        ensures ok { OnOk result (self.new + n ≡ self.old) }
        ensures err { OnErr result (self.new ≡ self.old) }
        ensures refused { IsErr result ↔ (self.old < n) }
    {
        if self.left < n {
            return Err(NoUnits);
        }
        self.left -= n;
        Ok(())
    }
}
