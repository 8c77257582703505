ghost use Rattle.std.specs.Prelude.{◌≡◌};
ghost use Rattle.std.specs.List.{list_any};
ghost use Rattle.krieg_pack.specs.Order.{position_lt};
ghost use Rattle.krieg_theory.specs.Sets.{same};
ghost use Rattle.krieg_costs.specs.Refutation as theory;

use krieg_pack::{Belief, Packed, unpack};

/// Whether a packed position is a member.
fn is_member(member: &Packed, set: &Belief) -> bool
    ensures { result ≡ list_any (same position_lt member.now) set.now }
{
    set.holds(&unpack(member))
}

/// Whether each of the positions is a member.
fn are_members(members: &[Packed], set: &Belief) -> bool
    ensures { result ≡ theory.is_within position_lt members.now set.now }
{
    for member in members {
        if !is_member(member, set) {
            return false;
        }
    }
    true
}

/// Whether each member of one set is one of another.
pub fn is_within(small: &Belief, set: &Belief) -> bool
    ensures { result ≡ theory.is_within position_lt small.now set.now }
{
    small.same(set) || are_members(small.members(), set)
}
