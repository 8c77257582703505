ghost use Rattle.std.specs.Prelude.{◌≡◌, ◌<◌, ◌≤◌, ◌+◌, ℕ, length};
ghost use Rattle.std.specs.List.{list_all};
ghost use Rattle.krieg_costs.specs.Sums.{total};
ghost use Rattle.krieg_parting.specs.Charges.{Charges};
ghost use Rattle.krieg_checker.specs.Needs.{within};
ghost use Rattle.krieg_strategy.specs.Unfolded.{trees_of};
ghost use Rattle.krieg_strategy.specs.declared.limits.TheConstants.{MOST_WORST};
ghost use Rattle.krieg_judge.specs.Started.{starts_held, start_cost};
ghost use Rattle.krieg_judge.specs.Walked.{PairAdds, cost_in, reached_in};
ghost use Rattle.krieg_judge.specs.Judgement as spec;
ghost use Rattle.krieg_judge.specs.Judgement.{IsJudgement, judge_cost};

use crate::findings::Findings;
use crate::meeting::{Stand, meet};
use crate::start::start;
use krieg_board::Units;
use krieg_pack::{Belief, Packed, unpack};
use krieg_parting::PartStop;
use krieg_strategy::Strategy;
use std::alloc::Global;

/// What a judge finds.
#[derive(Clone, Copy)]
pub enum Judgement {
    /// The strategy mates every listed position, and this is its worst case.
    Mates(u16),
    /// It does not mate every listed position within the number that it claims.
    Fails,
}

/// The next pair, which waits no more.
fn meet_next(
    alloc: Global,
    s: &Strategy,
    next: ((u32, Packed), u16),
    found: &mut Findings,
    units: &mut Units,
) -> Result<(), PartStop>
    requires { next.0.0 < length s.now.nodes }
    ensures { Charges result (λ _. PairAdds s.now next found.old found.new)
        (cost_in s.now next.0) units.old units.new }
{
    let ((node, position), done) = next;
    let at = Stand {
        dialect: s.dialect,
        node: s.nodes.get(node),
        done,
    };
    meet(alloc, &at, &unpack(&position), found, units)
}

/// Within how many own moves the plan wins, however a game starts in a position of the set.
///
/// The greatest pair that waits is taken, until none does: so all that leads to a node was taken before it.
fn need_of(
    alloc: Global,
    s: &Strategy,
    set: &Belief,
    units: &mut Units,
) -> Result<Option<u16>, PartStop>
    ensures { Charges result (λ need. (k : ℕ) → k ≤ MOST_WORST
        → within need k ≡ list_all (starts_held s.now (trees_of s.now.nodes) k) set.now)
        (total (start_cost s.now) set.now + total (cost_in s.now) (reached_in s.now set.now))
        units.old units.new }
{
    let mut found = start(alloc, s, set, units)?;
    while let Some(next) = found.waiting.pop_last() {
        meet_next(alloc, s, next, &mut found, units)?;
    }
    Ok(found.need)
}

/// The answer by what was found, against the number that the strategy claims.
fn judged(worst: u16, need: Option<u16>) -> Judgement
    ensures { result ≡ spec.judged worst need }
{
    match need {
        Some(w) if w <= worst => Judgement::Mates(w),
        _ => Judgement::Fails,
    }
}

/// Whether the plan that the strategy unfolds to mates every listed position within the number that is claimed, and its
/// worst case.
///
/// It takes one unit for each pair of a node and a position that reaches it, and one for each legal reply there; and
/// where the opponent is to move first, one for each of his moves in each listed position. Each is counted once, however
/// many games and nodes lead to it, and all are counted where the strategy fails too. `Spent` comes only where fewer
/// units are left, and an answer takes exactly these. After an `Err` some of them may be gone, and none are new.
pub fn judge(alloc: Global, s: &Strategy, units: &mut Units) -> Result<Judgement, PartStop>
    ensures { Charges result (IsJudgement s.now) (judge_cost s.now) units.old units.new }
{
    let set = Belief::from_positions(alloc, s.list.as_slice())?;
    let need = need_of(alloc, s, &set, units)?;
    Ok(judged(s.worst, need))
}
