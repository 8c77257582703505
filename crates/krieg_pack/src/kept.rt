ghost use Rattle.std.specs.Prelude.{◌≡◌, IfOk, IfSome, is_some, not};
ghost use Rattle.std.specs.Cmp.Lexicographic.{pointwise};
ghost use Rattle.krieg_pack.specs.Order.{position_eq};
ghost use Rattle.krieg_pack.specs.OrderLaws.{sets_equiv, sets_partial_equiv};
ghost use Rattle.krieg_pack.specs.Kept.{fed_kept, kept_fed, is_listed};

use crate::belief::Belief;
use crate::one_man::OneMan;
use krieg_board::NoMemory;
use std::alloc::Global;
use std::hash::{Hash, Hasher};
use std::marker::Model;

/// How a set is kept.
#[derive(Drop)]
enum Form {
    Listed(Belief),
    OneMan(OneMan),
}

/// A set of positions as a table keeps it: where its members differ in the square of one man alone, as those of a king of
/// whom nothing was seen, it takes the room of a few words, and else it is kept as a list.
///
/// In contracts a `KeptSet` is the list of its members, as a `Belief` is.
#[derive(Drop)]
pub struct KeptSet {
    form: Form,
}

impl Model for KeptSet {
    ghost use Rattle.std.specs.Prelude.{List};
    ghost use Rattle.krieg_board.specs.Pos.{Pos};
    ghost use Rattle.krieg_pack.specs.Kept.{IsKept, set_in};

    ghost Value = { List Pos };

    ghost view = { λ k. set_in k.form };

    ghost invariant = { λ k. IsKept k.form };
}

impl PartialEq for KeptSet {
    ghost eq = { pointwise position_eq };

    ghost laws = { sets_partial_equiv };

    fn eq(&self, other: &KeptSet) -> bool {
        match (&self.form, &other.form) {
            (Form::Listed(a), Form::Listed(b)) => a == b,
            (Form::OneMan(a), Form::OneMan(b)) => a.same(b),
            _ => false,
        }
    }
}

impl Eq for KeptSet {
    ghost laws = { sets_equiv };
}

impl Hash for KeptSet {
    ghost hash_input = { fed_kept };

    ghost respects_eq = { kept_fed.fed };

    #[tactic(auto, unfolding(crate::specs::Kept::fed_kept))]
    fn hash<H: Hasher>(&self, state: &mut H) {
        match &self.form {
            Form::Listed(b) => b.hash(state),
            Form::OneMan(h) => {
                state.write_u64(h.ones);
                state.write_u64(h.twos);
                state.write_u64(h.fours);
                state.write_u64(h.eights);
                state.write_u64(h.places);
                state.write(&[h.rights, h.mark, h.side, h.man]);
            }
        }
    }
}

impl KeptSet {
    /// The set, to be kept. It takes no memory.
    pub fn of(b: Belief) -> KeptSet
        ensures { result ≡ b }
    {
        let form = match OneMan::of(b.members()) {
            Some(h) => Form::OneMan(h),
            None => Form::Listed(b),
        };
        KeptSet { form }
    }

    /// The set, where it is kept as a list.
    pub fn listed(&self) -> Option<&Belief>
        ensures value { IfSome result (λ b. b.now ≡ self.now) }
        ensures there { is_some result ≡ is_listed self.now }
    {
        match &self.form {
            Form::Listed(b) => Some(b),
            Form::OneMan(_) => None,
        }
    }

    /// The set as a list, where it is not kept as one.
    pub fn made(&self, alloc: Global) -> Result<Option<Belief>, NoMemory>
        ensures value { IfOk result (λ o. IfSome o (λ b. b ≡ self.now)) }
        ensures there { IfOk result (λ o. is_some o ≡ not (is_listed self.now)) }
    {
        match &self.form {
            Form::Listed(_) => Ok(None),
            Form::OneMan(h) => Ok(Some(Belief::ascending(h.members(alloc)?))),
        }
    }

    /// The set as a list, of which nothing is kept any more.
    pub fn open(self, alloc: Global) -> Result<Belief, NoMemory>
        ensures { IfOk result (λ b. b ≡ self) }
    {
        match self.form {
            Form::Listed(b) => Ok(b),
            Form::OneMan(h) => Ok(Belief::ascending(h.members(alloc)?)),
        }
    }
}
