// What a job tells, as lines.
ghost use Rattle.std.specs.Prelude.{◌≡◌, [], IfOk};
ghost use Rattle.krieg_text.specs.Writing.{PutsLines, put_lines};
ghost use Rattle.krieg_outcome.specs.Job as spec;

use crate::commands::counted::{put_count, put_counted};
use crate::commands::job::verdict_counts::{VerdictCounts, put_verdicts};
use crate::commands::job::{Finding, JOB_MOVES};
use krieg_board::NoMemory;
use krieg_text::Text;
use std::alloc::Global;

/// Adds the lines of what was found.
fn put_found(found: &Finding, text: &mut Text) -> Result<(), NoMemory>
    ensures { PutsLines result text.old text.new (spec.found_lines found.now) }
{
    match found {
        Finding::Plan {
            worst,
            nodes,
            checked,
        } => {
            put_count(b"mates ", usize::from(*worst), text)?;
            put_counted(b" nodes ", *nodes, text)?;
            put_counted(b"checked ", usize::from(*checked), text)
        }
        Finding::NoPlan => put_counted(b"none ", usize::from(JOB_MOVES), text),
    }
}

/// Adds all lines of a summary.
#[tactic(auto, using(krieg_text::proofs::Writings::writings))]
fn put_summary(
    listed: usize,
    positions: usize,
    found: &Finding,
    counts: &VerdictCounts,
    text: &mut Text,
) -> Result<(), NoMemory>
    ensures { PutsLines result text.old text.new
        (spec.summary_lines listed positions found.now counts.now) }
{
    put_counted(b"listed ", listed, text)?;
    put_counted(b"positions ", positions, text)?;
    put_found(found, text)?;
    put_verdicts(counts, text)
}

/// The text of a summary.
pub(crate) fn summary(
    alloc: Global,
    listed: usize,
    positions: usize,
    found: &Finding,
    counts: &VerdictCounts,
) -> Result<Vec<u8>, NoMemory>
    ensures { IfOk result (λ text. text.items
        ≡ put_lines [] (spec.summary_lines listed positions found.now counts.now)) }
{
    let mut answer = Vec::new(alloc);
    let mut text = Text::after(&mut answer);
    let done = put_summary(listed, positions, found, counts, &mut text);
    text.end(done, &mut answer)?;
    Ok(answer)
}
