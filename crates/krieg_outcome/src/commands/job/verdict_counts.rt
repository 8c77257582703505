ghost use Rattle.std.specs.Prelude.{◌≡◌, ◌∷◌, [], IfOk};
ghost use Rattle.krieg_text.specs.Writing.{PutsLines};
ghost use Rattle.krieg_umpire.specs.Games.{judge};
ghost use Rattle.krieg_make.specs.MadeSessions.{made_session};
ghost use Rattle.krieg_outcome.specs.VerdictCounts as spec;

use crate::commands::counted::{put_count, put_counted};
use krieg_board::NoMemory;
use krieg_make::made_session;
use krieg_text::Text;
use krieg_umpire::{Judged, Verdict, judge};
use std::alloc::Global;

/// How many tries there are, and of each verdict.
#[derive(Clone, Copy)]
pub(crate) struct VerdictCounts {
    tries: usize,
    done: usize,
    illegal: usize,
    early: usize,
    over: usize,
}

/// How the tries of the made session are judged.
pub(crate) fn made_verdicts(alloc: Global, number: u32) -> Result<VerdictCounts, NoMemory>
    ensures { let session = made_session number in
        IfOk result (λ counts. counts ≡ spec.verdict_counts (judge session.start session.events)) }
{
    let session = made_session(alloc, number)?;
    let game = judge(alloc, &session.start, &session.events)?;
    Ok(verdict_counts(game.log()))
}

/// How a try is judged, without what is told of it.
#[derive(Clone, Copy)]
enum VerdictKind {
    Done,
    Illegal,
    Early,
    Over,
}

fn is_judged(verdict: &Verdict, kind: VerdictKind) -> bool
    ensures { result ≡ spec.is_judged kind verdict.now }
{
    match kind {
        VerdictKind::Done => matches!(verdict, Verdict::Done(_)),
        VerdictKind::Illegal => matches!(verdict, Verdict::Illegal),
        VerdictKind::Early => matches!(verdict, Verdict::Early),
        VerdictKind::Over => matches!(verdict, Verdict::Over),
    }
}

/// How many of the tries are judged so.
fn count_judged(log: &[Judged], kind: VerdictKind) -> usize
    ensures { result ≡ spec.count_judged (spec.is_judged kind) log.now }
{
    log.iter().filter(|j| is_judged(&j.verdict, kind)).count()
}

/// How the tries were judged.
fn verdict_counts(log: &[Judged]) -> VerdictCounts
    ensures { result ≡ spec.verdict_counts log.now }
{
    VerdictCounts {
        tries: log.len(),
        done: count_judged(log, VerdictKind::Done),
        illegal: count_judged(log, VerdictKind::Illegal),
        early: count_judged(log, VerdictKind::Early),
        over: count_judged(log, VerdictKind::Over),
    }
}

/// Adds the line of the tries.
pub(crate) fn put_verdicts(counts: &VerdictCounts, text: &mut Text) -> Result<(), NoMemory>
    ensures { PutsLines result text.old text.new (spec.verdicts_line counts.now ∷ []) }
{
    put_count(b"tries ", counts.tries, text)?;
    put_count(b" done ", counts.done, text)?;
    put_count(b" illegal ", counts.illegal, text)?;
    put_count(b" early ", counts.early, text)?;
    put_counted(b" over ", counts.over, text)
}
