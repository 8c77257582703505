ghost use Rattle.std.specs.Prelude.{◌≡◌, ◌∷◌, [], vec_len, IfOk, OnOk, OnErr};
ghost use Rattle.krieg_game.specs.Classes.{class_pair};
ghost use Rattle.krieg_game.specs.Buckets.{bucket_class, Gains, IsAsBefore, IsTrimmed};

use crate::classes::Class;
use crate::heard::Heard;
use krieg_board::NoMemory;
use krieg_pack::{Belief, Packed};
use std::alloc::Global;

/// The positions that are possible once that was heard, in any order and perhaps more than once.
#[derive(Drop)]
pub(crate) struct Bucket {
    pub heard: Heard,
    pub positions: Vec<Packed>,
}

impl Bucket {
    /// A bucket of one position, with room for so many.
    pub fn of(alloc: Global, heard: Heard, first: Packed, room: usize) -> Result<Bucket, NoMemory>
        ensures heard { IfOk result (λ b. b.heard ≡ heard) }
        ensures positions { IfOk result (λ b. b.positions.items ≡ first ∷ []) }
    {
        let mut positions = Vec::with_capacity(alloc, room)?;
        positions.push(first)?;
        Ok(Bucket { heard, positions })
    }

    /// Adds a position. With an error nothing is added.
    pub fn push(&mut self, position: Packed) -> Result<(), NoMemory>
        ensures added { OnOk result (Gains self.old self.new position) }
        ensures same { OnErr result (IsAsBefore self.old self.new) }
    {
        self.positions.push(position)?;
        Ok(())
    }

    /// Drops repeats, and tells how many positions are left. It takes no memory.
    pub fn trim(&mut self) -> usize
        ensures trimmed { IsTrimmed self.old self.new }
        ensures left { result ≡ vec_len self.new.positions }
    {
        self.positions.sort_unstable();
        self.positions.dedup();
        self.positions.len()
    }

    /// The positions as a class: they are sorted in their place, and spare room is given back.
    pub fn into_class(self) -> Class
        ensures { class_pair result ≡ bucket_class self }
    {
        let Bucket { heard, positions } = self;
        Class {
            own: heard.own(),
            reply: heard.reply(),
            belief: Belief::from_packed(positions),
        }
    }
}
