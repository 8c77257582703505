ghost use Rattle.std.specs.Prelude.{◌≡◌, ◌∷◌, ◌++◌, [], List, max, map, IfOk, OnOk};
ghost use Rattle.krieg_game.specs.Outcomes.{KeyedPosition};
ghost use Rattle.krieg_game.specs.Classes.{class_pair, classes_in};
ghost use Rattle.krieg_game.specs.Buckets.{AreBuckets, IsPlace, Holds, bucket_class, outcomes_in, wanted_room};

use crate::bucket::Bucket;
use crate::classes::Class;
use crate::heard::Heard;
use krieg_board::NoMemory;
use krieg_pack::Packed;
use std::alloc::Global;
use std::marker::Model;

/// With more than four times as many outcomes, repeats are dropped for the first time.
const FIRST_ROOM: usize = 16_384;

/// Outcomes, in a bucket for each thing that may be heard. Repeats are dropped whenever they have become many.
///
/// In contracts it is the list of the outcomes that it keeps, bucket by bucket.
#[derive(Drop)]
pub(crate) struct KeptOutcomes {
    /// They ascend by what is heard.
    buckets: Vec<Bucket>,
    /// The place of the bucket that was used last.
    last: usize,
    /// How many outcomes it keeps.
    kept: usize,
    /// With more than four times as many, repeats are dropped.
    room: usize,
    /// How many positions the first bucket gets room for at once.
    first_room: usize,
}

impl Model for KeptOutcomes {
    ghost use Rattle.std.specs.Prelude.{List};
    ghost use Rattle.krieg_game.specs.Outcomes.{KeyedPosition};
    ghost use Rattle.krieg_game.specs.Buckets.{AreBuckets, outcomes_in};

    ghost Value = { List KeyedPosition };

    ghost view = { λ p. outcomes_in p.buckets.items };

    ghost invariant = { λ p. AreBuckets p.buckets.items };
}

/// The place of the bucket for what is heard, or else where it would stand. The bucket that was used last is tried
/// first.
fn place_of(buckets: &[Bucket], last: usize, heard: &Heard) -> Result<usize, usize>
    requires { AreBuckets buckets.now }
    ensures { IsPlace buckets.now heard.now result }
{
    if last < buckets.len() && buckets[last].heard.is(heard) {
        return Ok(last);
    }
    buckets.binary_search_by(|bucket| bucket.heard.compare(heard))
}

/// Adds a position to the bucket at the place, or begins one there with so much room. With an error nothing is added.
fn put_at(
    alloc: Global,
    buckets: &mut Vec<Bucket>,
    place: Result<usize, usize>,
    heard: Heard,
    position: Packed,
    room: usize,
) -> Result<(), NoMemory>
    requires are { AreBuckets buckets.old.items }
    requires place { IsPlace buckets.old.items heard place }
    ensures are { AreBuckets buckets.new.items }
    ensures added { OnOk result (Holds (outcomes_in buckets.new.items)
        (outcomes_in buckets.old.items ++ (heard, position) ∷ [])) }
{
    match place {
        Ok(at) => buckets[at].push(position)?,
        Err(at) => buckets.insert(at, Bucket::of(alloc, heard, position, room)?)?,
    }
    Ok(())
}

/// The room for the next time, where so many are left of all after repeats were dropped: the same, but at least so much
/// that before the next time at least as many outcomes come as were kept, and three times as many where fewer than one in
/// eight was a repeat, since a sort does little there.
fn next_room(all: usize, left: usize, room: usize) -> usize
    ensures { result ≡ max room (wanted_room all left) }
{
    let few = all.saturating_sub(left) < all / 8;
    room.max(if few { left } else { left / 2 })
}

/// Drops repeats in all buckets, and tells how many outcomes are left. It takes no memory.
fn trim_all(buckets: &mut Vec<Bucket>) -> usize
    requires { AreBuckets buckets.old.items }
    ensures are { AreBuckets buckets.new.items }
    ensures same { Holds (outcomes_in buckets.new.items) (outcomes_in buckets.old.items) }
{
    let mut left = 0usize;
    for i in 0..buckets.len() {
        left = left.saturating_add(buckets[i].trim());
    }
    left
}

/// A class for each bucket.
fn classes_of(alloc: Global, buckets: Vec<Bucket>) -> Result<Vec<Class>, NoMemory>
    ensures { IfOk result (λ v. map class_pair v.items ≡ map bucket_class buckets.items) }
{
    let mut classes = Vec::with_capacity(alloc, buckets.len())?;
    for bucket in buckets {
        classes.push(bucket.into_class())?;
    }
    Ok(classes)
}

impl KeptOutcomes {
    /// No outcomes. The first bucket that is begun gets room for so many positions at once, which is best where mostly the
    /// same is heard: a bucket that outgrows its room leaves a gap in the memory.
    pub fn with_room(alloc: Global, first_room: usize) -> KeptOutcomes
        ensures { result ≡ [] }
    {
        KeptOutcomes {
            buckets: Vec::new(alloc),
            last: 0,
            kept: 0,
            room: FIRST_ROOM,
            first_room,
        }
    }

    /// Adds a position to the bucket for what is heard.
    pub fn put(&mut self, alloc: Global, heard: Heard, position: Packed) -> Result<(), NoMemory>
        ensures { OnOk result (Holds self.new (self.old ++ (heard, position) ∷ [])) }
    {
        let place = place_of(self.buckets.as_slice(), self.last, &heard);
        self.last = match place {
            Ok(at) | Err(at) => at,
        };
        self.kept = self.kept.saturating_add(1);
        let room = std::mem::take(&mut self.first_room);
        put_at(alloc, &mut self.buckets, place, heard, position, room)
    }

    /// Drops repeats where they may be many.
    pub fn trim(&mut self)
        ensures { Holds self.new self.old }
    {
        if self.kept / 4 <= self.room {
            return;
        }
        let left = trim_all(&mut self.buckets);
        self.room = next_room(self.kept, left, self.room);
        self.kept = left;
    }

    /// The classes of the outcomes, ascending.
    pub fn into_classes(self, alloc: Global) -> Result<Vec<Class>, NoMemory>
        ensures { IfOk result (λ v. (os : List KeyedPosition) → Holds self os →
            map class_pair v.items ≡ classes_in os) }
    {
        classes_of(alloc, self.buckets)
    }
}
