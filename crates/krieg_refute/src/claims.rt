ghost use Rattle.std.specs.Prelude.{◌≡◌, ◌<◌, ◌++◌, ◌∷◌, [], true, Some, IfOk, OnOk, length, map, is_some};
ghost use Rattle.krieg_table.specs.SetRows.{SetRows, sets};
ghost use Rattle.krieg_refute.specs.Drafts.{claim_over, claims_over, AreWithin, HaveSets, set_in};
ghost use Rattle.krieg_refute.specs.declared.claims.SetPlace.TheVariants as SetPlace;

use krieg_board::NoMemory;
use krieg_pack::Belief;
use krieg_refutation::{Claim, Reason};
use krieg_table::Table;
use std::alloc::Global;
use std::mem;

/// A claim whose set is known by its number in a table.
#[derive(Drop)]
pub(crate) struct Draft {
    pub moves: u8,
    pub set: u32,
    pub reasons: Vec<Reason>,
}

/// Where a set of a table is.
#[derive(Drop)]
pub(crate) enum SetPlace {
    /// No claim has it yet.
    Here(Belief),
    /// The claim at this place has it.
    In(usize),
}

/// The sets of the table, of which the rest is let go.
fn slots_of(alloc: Global, table: Table) -> Result<Vec<SetPlace>, NoMemory>
    ensures { IfOk result (λ slots. slots.items ≡ map (λ B. SetPlace.Here B) (sets table)) }
{
    let sets = table.into_sets(alloc)?;
    Ok(
        sets.into_iter()
            .map(|set| SetPlace::Here(set))
            .collect(alloc)?,
    )
}

/// The set of the slot, which is in the next claim from now on. Only where an earlier claim has the same set it is copied.
fn take_set(slot: &mut SetPlace, claims: &[Claim]) -> Result<Belief, NoMemory>
    requires { is_some (set_in claims.now slot.old) ≡ true }
    ensures set { IfOk result (λ set. set_in claims.now slot.old ≡ Some set) }
    ensures slot { slot.new ≡ SetPlace.In (length claims.now) }
{
    match mem::replace(slot, SetPlace::In(claims.len())) {
        SetPlace::Here(set) => Ok(set),
        SetPlace::In(place) => claims[place].set.copy(),
    }
}

/// Adds the claim with a set of its own, which comes from its slot.
fn add_claim(
    slots: &mut Vec<SetPlace>,
    claims: &mut Vec<Claim>,
    draft: Draft,
) -> Result<(), NoMemory>
    requires { (T : SetRows) × HaveSets claims.old.items slots.old.items T
        × (draft.set < length T) }
    ensures { OnOk result ((T : SetRows) → HaveSets claims.old.items slots.old.items T
        → draft.set < length T → (claims.new.items ≡ claims.old.items ++ claim_over T draft ∷ [])
        × HaveSets claims.new.items slots.new.items T) }
{
    let Draft {
        moves,
        set,
        reasons,
    } = draft;
    let set = take_set(&mut slots[set as usize], claims)?;
    claims.push(Claim {
        moves,
        set,
        reasons,
    })?;
    Ok(())
}

/// The claims with sets of their own, which are moved out of the table.
pub(crate) fn claims_of(
    alloc: Global,
    table: Table,
    drafts: Vec<Draft>,
) -> Result<Vec<Claim>, NoMemory>
    requires { AreWithin table drafts.items }
    ensures { IfOk result (λ claims. claims.items ≡ claims_over table drafts.items) }
{
    let mut slots = slots_of(alloc, table)?;
    let mut claims = Vec::with_capacity(alloc, drafts.len())?;
    for draft in drafts {
        add_claim(&mut slots, &mut claims, draft)?;
    }
    Ok(claims)
}
