ghost use Rattle.std.specs.Prelude.{◌≡◌, ◌<◌, ◌↔◌, IsTrue, IfOk, Some, [], length, slice_get};
ghost use Rattle.std.specs.Cmp.Lexicographic.{pointwise};
ghost use Rattle.std.specs.Hash as fed;
ghost use Rattle.krieg_board.specs.Validity.{IsValid};
ghost use Rattle.krieg_theory.specs.Sets.{In};
ghost use Rattle.krieg_pack.specs.Order.{position_eq};
ghost use Rattle.krieg_pack.specs.OrderLaws.{sets_equiv, sets_partial_equiv};
ghost use Rattle.krieg_pack.specs.Hashing.{fed_by, sets_fed};
ghost use Rattle.krieg_pack.specs.Members.{IsAscending, IsSetOf, set_of};

use crate::buffer::make_ascending;
use crate::packed::{Packed, pack, unpack};
use krieg_board::{NoMemory, Position};
use std::alloc::Global;
use std::hash::{Hash, Hasher};
use std::marker::Model;

/// A set of positions: strictly ascending in the order of positions, so each stands once.
///
/// In contracts a `Belief` is the list of its members. Two that hold the same positions are equal, and
/// feed a hasher the same.
#[derive(Drop)]
pub struct Belief {
    members: Vec<Packed>,
}

impl Model for Belief {
    ghost use Rattle.std.specs.Prelude.{List};
    ghost use Rattle.krieg_board.specs.Pos.{Pos};
    ghost use Rattle.krieg_pack.specs.Members.{IsAscending};

    ghost Value = { List Pos };

    ghost view = { λ b. b.members.items };

    ghost invariant = { λ b. IsAscending b.members.items };
}

impl PartialEq for Belief {
    ghost eq = { pointwise position_eq };

    ghost laws = { sets_partial_equiv };

    fn eq(&self, other: &Belief) -> bool {
        self.members.as_slice() == other.members.as_slice()
    }
}

impl Eq for Belief {
    ghost laws = { sets_equiv };
}

impl Hash for Belief {
    ghost hash_input = { fed.slice fed_by };

    ghost respects_eq = { sets_fed.fed };

    fn hash<H: Hasher>(&self, state: &mut H) {
        self.members.hash(state);
    }
}

impl Belief {
    /// The set of the packed positions, which may come in any order and more than once. It takes no
    /// memory: they are sorted in their place, and spare room is given back.
    pub fn from_packed(packed: Vec<Packed>) -> Belief
        ensures value { result ≡ set_of packed.items }
        ensures set { IsSetOf result packed.items }
    {
        let mut members = packed;
        make_ascending(&mut members);
        members.shrink_to_fit();
        Belief { members }
    }

    /// The set of the listed positions, which may come in any order and more than once.
    pub fn from_positions(alloc: Global, list: &[Position]) -> Result<Belief, NoMemory>
        ensures value { IfOk result (λ b. b ≡ set_of list.now) }
        ensures set { IfOk result (λ b. IsSetOf b list.now) }
    {
        let mut packed = Vec::with_capacity(alloc, list.len())?;
        for p in list {
            packed.push(pack(p))?;
        }
        Ok(Belief::from_packed(packed))
    }

    /// The set of the packed positions, which ascend.
    pub(crate) fn ascending(members: Vec<Packed>) -> Belief
        requires { IsAscending members.items }
        ensures { result ≡ members.items }
    {
        Belief { members }
    }

    /// The same set once more.
    pub fn copy(&self) -> Result<Belief, NoMemory>
        ensures { IfOk result (λ b. b ≡ self.now) }
    {
        let members = self.members.clone()?;
        Ok(Belief { members })
    }

    /// How many positions the set holds.
    pub fn len(&self) -> usize
        ensures value { result ≡ length self.now }
        ensures ascending { IsAscending self.now }
    {
        self.members.len()
    }

    /// Whether the set holds no position.
    pub fn is_empty(&self) -> bool
        ensures { IsTrue result ↔ (self.now ≡ []) }
    {
        self.members.is_empty()
    }

    /// The members, ascending.
    pub fn members(&self) -> &[Packed]
        ensures value { result.now ≡ self.now }
        ensures ascending { IsAscending self.now }
    {
        self.members.as_slice()
    }

    /// The member at place `i`, from 0 on.
    pub fn get(&self, i: usize) -> Position
        requires { i < length self.now }
        ensures value { slice_get self.now i ≡ Some result }
        ensures valid { IsValid result }
    {
        unpack(&self.members[i])
    }

    /// Whether the position is a member.
    pub fn holds(&self, p: &Position) -> bool
        ensures { IsTrue result ↔ In p.now self.now }
    {
        let key = pack(p);
        self.members.as_slice().binary_search(&key).is_ok()
    }

    /// Whether both sets hold the same positions.
    pub fn same(&self, other: &Belief) -> bool
        ensures { IsTrue result ↔ (self.now ≡ other.now) }
    {
        self == other
    }
}
