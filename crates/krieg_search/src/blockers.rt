ghost use Rattle.std.specs.Prelude.{◌≡◌, ◌<◌, ◌⊎◌, ◌++◌, ◌∷◌, [], true, false, Some, IfSome};
ghost use Rattle.krieg_theory.specs.Sets.{In};
ghost use Rattle.krieg_search.specs.declared.blockers.Blocker.{Blocker};
ghost use Rattle.krieg_search.specs.Blockers.{moves_for};

use crate::try_list::is_same;
use crate::way::Way;
use krieg_board::Move;
use std::alloc::Global;
use std::marker::Model;

/// So many are kept: some 180 MB.
const MOST_KEPT: usize = 8_000_000;

/// So many are looked through for one try of a set.
const MOST_OF_SET: usize = 500;

/// The part of a set that a try left, and that could not be won, when the try was split last. 16 bytes in memory.
#[derive(Clone, Copy)]
pub(crate) struct Blocker {
    /// The set, by its number.
    pub set: u32,
    pub mv: Move,
    /// Whether it is the part that refuses the try. Else it is a class.
    pub refuses: bool,
    /// The part, by its number.
    pub part: u32,
    /// What the split took.
    pub made: u32,
}

// A search may keep millions of them.
const _: () = prove!(size_of::<Blocker>() <= 16);

impl Blocker {
    /// What is to be kept of a try that was split: nothing where the split took more than 32 bits count.
    pub(crate) fn new(set: u32, mv: Move, refuses: bool, part: u32, made: u64) -> Option<Blocker>
        ensures { IfSome result (λ b. b
            ≡ record { set = set; mv = mv; refuses = refuses; part = part; made = made }) }
    {
        let made = u32::try_from(made).ok()?;
        Some(Blocker {
            set,
            mv,
            refuses,
            part,
            made,
        })
    }

    /// With how many moves the part is to be won where the try is to win with so many.
    pub(crate) fn moves_for(&self, moves: u8) -> u8
        requires { 0 < moves }
        ensures { result ≡ moves_for self.now.refuses moves }
    {
        if self.refuses { moves } else { moves - 1 }
    }
}

/// One that is kept. 20 bytes in memory.
#[derive(Clone, Copy)]
struct Link {
    blocker: Blocker,
    /// The number of the one before it of the same set: one more than its place, and 0 where there is none.
    before: u32,
}

const _: () = prove!(size_of::<Link>() <= 20);

/// For sets by their numbers, what blocked their tries last, where tries may be cut.
///
/// With more moves the same part mostly blocks the try again. So it is asked first, and the try is split again only where that part is
/// won meanwhile.
#[derive(Drop)]
pub(crate) struct Blockers {
    found: Vec<Link>,
    /// The number of the last one of each set. Nothing is claimed of these numbers: whatever they lead to is compared.
    last: Vec<u32>,
}

impl Model for Blockers {
    ghost use Rattle.std.specs.Prelude.{List, map};
    ghost use Rattle.krieg_search.specs.declared.blockers.Blocker.{Blocker};

    ghost Value = { List Blocker };

    ghost view = { λ b. map (λ l. l.blocker) b.found.items };
}

impl Blockers {
    /// There are none. It takes no memory.
    pub(crate) fn new(alloc: Global) -> Blockers
        ensures { result ≡ [] }
    {
        Blockers {
            found: Vec::new(alloc),
            last: Vec::new(alloc),
        }
    }

    /// The one with that number.
    fn numbered(&self, number: u32) -> Option<Link>
        ensures { IfSome result (λ l. In l.blocker self.now) }
    {
        let place = (number as usize).checked_sub(1)?;
        if place < self.found.len() {
            return Some(self.found[place]);
        }
        None
    }

    /// What blocked the try of the set with that number last.
    #[inline(never)]
    pub(crate) fn of(&self, set: u32, mv: &Move) -> Option<Blocker>
        ensures there { IfSome result (λ b. In b self.now) }
        ensures set { IfSome result (λ b. b.set ≡ set) }
        ensures mv { IfSome result (λ b. b.mv ≡ mv.now) }
    {
        let mut number = *self.last.get(set as usize)?;
        for _ in 0..MOST_OF_SET {
            let Link { blocker, before } = self.numbered(number)?;
            if blocker.set == set && is_same(&blocker.mv, mv) {
                return Some(blocker);
            }
            number = before;
        }
        None
    }

    /// Puts it behind all others, with the number of the one before it of its set, where there is memory for it.
    fn push(&mut self, blocker: Blocker, before: u32) -> bool
        ensures ok { result ≡ true → self.new ≡ self.old ++ blocker ∷ [] }
        ensures err { result ≡ false → self.new ≡ self.old }
    {
        self.found.push(Link { blocker, before }).is_ok()
    }

    /// Makes the one that came last the last of the set with that number.
    fn set_last(&mut self, set: u32)
        ensures { self.new ≡ self.old }
    {
        if let Ok(number) = u32::try_from(self.found.len())
            && let Some(last) = self.last.get_mut(set as usize)
        {
            *last = number;
        }
    }

    /// The number of the last one of the set with that number; nothing where there is no memory for one.
    fn last_of(&mut self, set: u32) -> Option<u32>
        ensures { self.new ≡ self.old }
    {
        let place = set as usize;
        if self.last.len() <= place && self.last.resize(place + 1, 0).is_err() {
            return None;
        }
        self.last.get(place).copied()
    }

    /// Adds it, where there is room and memory for it.
    fn add(&mut self, blocker: Blocker)
        ensures { (self.new ≡ self.old) ⊎ (self.new ≡ self.old ++ blocker ∷ []) }
    {
        if self.found.len() >= MOST_KEPT {
            return;
        }
        let set = blocker.set;
        let Some(before) = self.last_of(set) else {
            return;
        };
        if self.push(blocker, before) {
            self.set_last(set);
        }
    }

    /// Keeps it, if there is one, where tries may be cut and there is room and memory for it.
    #[inline(never)]
    pub(crate) fn keep(&mut self, way: Way, blocker: Option<Blocker>)
        ensures { (self.new ≡ self.old) ⊎ ((b : Blocker) × (blocker ≡ Some b)
            × (way.cut ≡ true) × (self.new ≡ self.old ++ b ∷ [])) }
    {
        if way.cut
            && let Some(kept) = blocker
        {
            self.add(kept);
        }
    }
}
