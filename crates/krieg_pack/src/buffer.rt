ghost use Rattle.std.specs.Prelude.{◌≡◌, ◌<◌, ◌≤◌, ◌+◌, ◌*◌, IsErr, OnOk, length, vec_len};
ghost use Rattle.krieg_pack.specs.Members.{set_of, trimmed};

use crate::packed::Packed;

/// There are more different positions than a limit allows.
#[derive(Clone, Copy)]
pub struct TooMany;

/// Sorts in place and drops repeats. It takes no memory.
pub(crate) fn make_ascending(packed: &mut Vec<Packed>)
    ensures { packed.new.items ≡ set_of packed.old.items }
{
    packed.sort_unstable();
    packed.dedup();
}

/// Keeps a buffer small in which a set of at most `limit` positions is gathered: where it holds more
/// than twice as many and 64, repeats are dropped, and otherwise nothing is done. It takes no memory.
/// After a sort at most `limit` are left, so before the next one more than as many come.
///
/// The set of what is in the buffer stays, also with an error. `TooMany` comes only where this set is
/// greater than the limit. It need not come as soon as it is, so a caller looks at the set's length
/// at the end.
pub fn trim(packed: &mut Vec<Packed>, limit: usize) -> Result<(), TooMany>
    ensures value { packed.new.items ≡ trimmed packed.old.items limit }
    ensures same { set_of packed.new.items ≡ set_of packed.old.items }
    ensures too_many { IsErr result → limit < length (set_of packed.old.items) }
    ensures small { OnOk result (vec_len packed.new ≤ 2 * limit + 64) }
    ensures sorted { OnOk result (2 * limit + 64 < vec_len packed.old →
        vec_len packed.new ≤ limit) }
{
    if packed.len() <= limit.saturating_mul(2).saturating_add(64) {
        return Ok(());
    }
    make_ascending(packed);
    if packed.len() > limit {
        return Err(TooMany);
    }
    Ok(())
}
