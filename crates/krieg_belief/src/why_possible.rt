ghost use Rattle.std.specs.Prelude.{◌≡◌, ◌≤◌, ◌<◌, ◌+◌, ◌^◌, ℕ, [], IfOk, OnOk, IfErr, length, map, take};
ghost use Rattle.krieg_pack.specs.Members.{set_of};
ghost use Rattle.krieg_belief.specs.Limits.{AllWithin, IsLateStop, IsStop};
ghost use Rattle.krieg_belief.specs.Steps.{run};
ghost use Rattle.krieg_belief.specs.Explained.{AreShown};
ghost use Rattle.krieg_belief.specs.Links.{AreKept, entry_at, place_of, tales_of};
ghost use Rattle.krieg_belief.specs.Tales.{begun, tell_all};

use crate::beliefs::{BeliefStop, line_before_entries, starts_of};
use crate::games::{Games, numbered, positions};
use crate::links::{Link, Setting, Tales, begin, tell};
use krieg_board::NoMemory;
use krieg_pack::Packed;
use krieg_sheet::Sheet;
use krieg_wordtext::Line;
use std::alloc::Global;

/// The games after all entries, where after none of them they stand in more positions than the limit allows. The first
/// entry has the number after `behind`.
fn tell_lines(
    alloc: Global,
    setting: &Setting,
    entries: &[Line],
    behind: usize,
    links: &mut Vec<Link>,
) -> Result<Tales, BeliefStop>
    requires none { links.old.items ≡ [] }
    requires fits { length setting.now.starts ≤ setting.now.limit }
    requires room { behind + length entries.now < 2 ^ 64 }
    ensures kept { IfOk result (λ t. AreKept setting.now.starts links.new.items t.entries) }
    ensures tales { IfOk result (λ t. tales_of setting.now.starts links.new.items t.entries
        ≡ tell_all setting.now.dialect setting.now.who entries.now
        (map begun setting.now.starts)) }
    ensures within { OnOk result ((n : ℕ) → n ≤ length entries.now →
        length (run setting.now.dialect setting.now.who (take n entries.now) setting.now.starts)
        ≤ setting.now.limit) }
    ensures stop { IfErr result (IsLateStop setting.now.dialect setting.now.who entries.now
        setting.now.starts setting.now.limit behind) }
{
    let mut tales = match begin(alloc, &setting.starts) {
        Ok(tales) => tales,
        Err(NoMemory) => return Err(BeliefStop::NoMemory),
    };
    for i in 0..entries.len() {
        tales = tell(alloc, setting, &entries[i], behind + i + 1, &tales, links)?;
    }
    Ok(tales)
}

/// For each position in which a game stands its number, in the order of the positions.
fn numbered_positions(alloc: Global, tales: &Tales) -> Result<Vec<(Packed, usize)>, NoMemory>
    ensures { IfOk result (λ v. v.items ≡ map (entry_at tales.now.entries)
        (set_of (map place_of tales.now.entries))) }
{
    let possible = positions(alloc, tales)?;
    numbered(alloc, tales, &possible)
}

/// The same of games that are let go before the answer is read.
fn lasts_of(alloc: Global, mut tales: Tales) -> Result<Vec<(Packed, usize)>, NoMemory>
    ensures { IfOk result (λ v. v.items ≡ map (entry_at tales.entries)
        (set_of (map place_of tales.entries))) }
{
    let lasts = numbered_positions(alloc, &tales);
    // What is let go in smaller parts goes back to the system, and the text of the games takes its place.
    tales.shrink_to_fit();
    lasts
}

/// For each position that is consistent with the sheet, in order, the least hidden game that explains it: the one
/// with the least start, and of these the one whose first move of the opponent that differs comes first. They are made
/// one by one, as they are read.
///
/// `TooMany` exactly where `believe` answers it, with the same line. `NoMemory` where memory was not found.
pub fn least_games<'a>(alloc: Global, s: &'a Sheet, limit: usize) -> Result<Games<'a>, BeliefStop>
    ensures value { IfOk result (λ g. AreShown s.now g) }
    ensures within { OnOk result (AllWithin limit s.now) }
    ensures stop { IfErr result (IsStop s.now limit) }
{
    let setting = Setting {
        dialect: s.dialect(),
        who: s.side(),
        starts: starts_of(alloc, s, limit)?,
        limit,
    };
    let mut links = Vec::new(alloc);
    let behind = line_before_entries(s);
    let tales = tell_lines(alloc, &setting, s.entries(), behind, &mut links)?;
    match lasts_of(alloc, tales) {
        Ok(lasts) => Ok(Games::kept(s, setting.starts, links, lasts)),
        Err(NoMemory) => Err(BeliefStop::NoMemory),
    }
}
