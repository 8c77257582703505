ghost use Rattle.std.specs.Prelude.{◌≡◌, ◌<◌, ◌↔◌, true, All, IfOk, IfSome, IsTrue};
ghost use Rattle.krieg_pack.specs.OneMan as spec;
ghost use Rattle.krieg_pack.specs.Packing.{IsPacked, packed, unpacked};

use crate::packed::Packed;
use krieg_board::{NoMemory, lowest, without_lowest};
use std::alloc::Global;

/// A set of so many positions at most can be kept by one man.
const MOST_PLACES: usize = 64;

/// Positions that differ in the square of one man alone, in the room of a few words.
#[derive(Clone, Copy, PartialEq, Eq)]
pub(crate) struct OneMan {
    /// All other men, as four sets, and the rest of the position: as a `Packed` has them.
    pub ones: u64,
    pub twos: u64,
    pub fours: u64,
    pub eights: u64,
    pub rights: u8,
    pub mark: u8,
    pub side: u8,
    /// The code of the man, or 0 where one position alone is meant.
    pub man: u8,
    /// Where he stands: bit 0 for h8, and so on down to a1, since the positions ascend then.
    pub places: u64,
}

/// The squares of the men of a position, from its four sets.
#[inline]
fn men(ones: u64, twos: u64, fours: u64, eights: u64) -> u64
    ensures { result ≡ spec.men ones twos fours eights }
{
    (ones | twos) | (fours | eights)
}

/// The squares of the men of a member.
#[inline]
fn men_of(m: &Packed) -> u64
    ensures { result ≡ spec.men_of (packed m.now) }
{
    men(m.ones, m.twos, m.fours, m.eights)
}

/// The place of the highest of the squares, as a set: that of a1 where there is none.
#[inline]
fn place_of(squares: u64) -> u64
    ensures { result ≡ spec.place_of squares }
{
    1u64.wrapping_shl((squares | 1).leading_zeros())
}

/// The places where the members have men that are not among the squares.
#[tactic(auto, unfolding(crate::specs::OneMan::places_over))]
fn places_over(squares: u64, members: &[Packed]) -> u64
    ensures { result ≡ spec.places_over squares members.now }
{
    let mut places = 0;
    for m in members {
        places |= place_of(squares ^ men_of(m));
    }
    places
}

/// The part of a code, where two sets differ.
#[inline]
fn part(a: u64, b: u64, n: u8) -> u8
    ensures { result ≡ spec.part a b n }
{
    if a == b { 0 } else { n }
}

/// What the first and the last of the members have in common, and where the members have one man more.
fn common(first: &Packed, last: &Packed, members: &[Packed]) -> OneMan
    ensures { result ≡ spec.common (packed first.now) (packed last.now) members.now }
{
    let ones = first.ones & last.ones;
    let twos = first.twos & last.twos;
    let fours = first.fours & last.fours;
    let eights = first.eights & last.eights;
    let low = part(first.ones, last.ones, 1) | part(first.twos, last.twos, 2);
    let high = part(first.fours, last.fours, 4) | part(first.eights, last.eights, 8);
    OneMan {
        ones,
        twos,
        fours,
        eights,
        rights: first.rights,
        mark: first.mark,
        side: first.side,
        man: low | high,
        places: places_over(men(ones, twos, fours, eights), members),
    }
}

/// The set with the square, where the part of a code is not 0.
#[inline]
fn with_man(set: u64, part: u8, square: u64) -> u64
    ensures { result ≡ spec.with_man set part square }
{
    if part == 0 { set } else { set | square }
}

impl OneMan {
    /// The members as positions that differ in the square of one man alone, where they do.
    #[tactic(auto, unfolding(crate::specs::OneMan::one_man))]
    pub(crate) fn of(members: &[Packed]) -> Option<OneMan>
        ensures value { result ≡ spec.one_man members.now }
        ensures packed { IfSome result (λ h. All IsPacked (spec.fields_of h)) }
        ensures same { IfSome result (λ h. spec.members_of h ≡ members.now) }
    {
        if MOST_PLACES < members.len() {
            return None;
        }
        let first = members.first()?;
        let last = members.last()?;
        let found = common(first, last, members);
        if found.are(members) {
            Some(found)
        } else {
            None
        }
    }

    /// Whether both are the same, part by part.
    pub(crate) fn same(&self, other: &OneMan) -> bool
        ensures { IsTrue result ↔ (self.now ≡ other.now) }
    {
        self == other
    }

    /// Whether the position is that with the man at the place.
    #[inline]
    fn is_at(&self, place: u8, m: &Packed) -> bool
        requires { place < 64 }
        ensures value { result ≡ spec.same_fields (spec.at self.now place) (packed m.now) }
        ensures packed { result ≡ true → IsPacked (spec.at self.now place) }
        ensures same { result ≡ true → unpacked (spec.at self.now place) ≡ m.now }
    {
        let square = 0x8000_0000_0000_0000u64 >> place;
        with_man(self.ones, self.man & 1, square) == m.ones
            && with_man(self.twos, self.man & 2, square) == m.twos
            && with_man(self.fours, self.man & 4, square) == m.fours
            && with_man(self.eights, self.man & 8, square) == m.eights
            && self.rights == m.rights
            && self.mark == m.mark
            && self.side == m.side
    }

    /// Whether they are just these positions, in this order.
    fn are(&self, members: &[Packed]) -> bool
        ensures value { result ≡ spec.are self.now members.now }
        ensures packed { result ≡ true → All IsPacked (spec.fields_of self.now) }
        ensures same { result ≡ true → spec.members_of self.now ≡ members.now }
    {
        let mut rest = self.places;
        for m in members {
            if rest == 0 {
                return false;
            }
            let place = lowest(rest).number();
            rest = without_lowest(rest);
            if !self.is_at(place, m) {
                return false;
            }
        }
        rest == 0
    }

    /// The position with the man at the place.
    #[inline]
    fn at(&self, place: u8) -> Packed
        requires within { place < 64 }
        requires packed { IsPacked (spec.at self.now place) }
        ensures { result ≡ unpacked (spec.at self.now place) }
    {
        let square = 0x8000_0000_0000_0000u64 >> place;
        Packed {
            ones: with_man(self.ones, self.man & 1, square),
            twos: with_man(self.twos, self.man & 2, square),
            fours: with_man(self.fours, self.man & 4, square),
            eights: with_man(self.eights, self.man & 8, square),
            rights: self.rights,
            mark: self.mark,
            side: self.side,
        }
    }

    /// The positions, one by one.
    pub(crate) fn members(&self, alloc: Global) -> Result<Vec<Packed>, NoMemory>
        requires { All IsPacked (spec.fields_of self.now) }
        ensures { IfOk result (λ v. v.items ≡ spec.members_of self.now) }
    {
        let mut members = Vec::with_capacity(alloc, self.places.count_ones() as usize)?;
        let mut rest = self.places;
        while rest != 0 {
            let place = lowest(rest).number();
            rest = without_lowest(rest);
            members.push(self.at(place))?;
        }
        Ok(members)
    }
}
