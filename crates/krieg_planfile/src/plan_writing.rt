ghost use Rattle.std.specs.Prelude.{◌≡◌, ◌<◌, ◌∷◌, [], Ok, map, codes, length};
ghost use Rattle.krieg_text.specs.Lines.{lines};
ghost use Rattle.krieg_text.specs.Reading.{whole};
ghost use Rattle.krieg_text.specs.Writing.{PutsLines, Appends, alone};
ghost use Rattle.krieg_planfile.specs.PlanFiles.{state_of, AreToldRoots, CanBeWritten};
ghost use Rattle.krieg_planfile.specs.PlanReading.{plan_at};
ghost use Rattle.krieg_planfile.specs.PlanSpelling.{SpellsPlan};
ghost use Rattle.krieg_planfile.specs.PlanText as spec;

use crate::reading::waits;
use crate::writing::put_roots;
use krieg_board::NoMemory;
use krieg_fen::put_listing;
use krieg_plan::{PlanFile, know_ordered};
use krieg_text::{Text, put_number};
use krieg_words::Dialect;
use krieg_wordtext::{put_second_version, put_version_lines};

/// Adds the lines of the version and of the dialect.
fn put_heading(d: Dialect, waiting: bool, text: &mut Text) -> Result<(), NoMemory>
    ensures { PutsLines result text.old text.new (map alone (spec.heading d waiting)) }
{
    if waiting {
        put_second_version(b"krieg plan ", d, text)
    } else {
        put_version_lines(b"krieg plan ", d, text)
    }
}

/// Adds the line of the own moves that are claimed.
fn put_worst(n: u16, text: &mut Text) -> Result<(), NoMemory>
    ensures { PutsLines result text.old text.new (spec.worst_line n ∷ []) }
{
    text.put(b"worst ")?;
    put_number(n as u64, text)?;
    text.end_line()
}

/// Adds the line of the number of roots.
fn put_root_count(n: usize, text: &mut Text) -> Result<(), NoMemory>
    ensures { PutsLines result text.old text.new (spec.count_line n ∷ []) }
{
    text.put(b"roots ")?;
    put_number(n as u64, text)?;
    text.end_line()
}

/// Adds the lines of the plan file.
fn put_plan(f: &PlanFile, text: &mut Text) -> Result<(), NoMemory>
    requires { AreToldRoots f.now.dialect (state_of f.now).plan }
    ensures { PutsLines result text.old text.new (spec.plan_lines (state_of f.now)) }
{
    put_heading(f.dialect, waits(f.side, &f.list), text)?;
    put_listing(f.side, &f.list, text)?;
    put_worst(f.worst, text)?;
    put_root_count(f.plan.roots.len(), text)?;
    put_roots(f.dialect, &f.plan.roots, text)?;
    text.line(b"end")
}

/// Appends the text of the plan file in its one written form: version 1 where the dialect is wild16 and
/// the player is to move, and otherwise version 2. Where memory runs out, nothing is appended.
///
/// The file is within the limits of a text, its positions have one hand, its words can be told in the
/// dialect, and its roots have words of the opponent's move exactly where he is to move.
#[tactic(auto, unfolding(crate::specs::PlanText::plan_text))]
pub fn write_plan(f: &PlanFile, text: &mut Vec<u8>) -> Result<(), NoMemory>
    requires { CanBeWritten (state_of f.now) }
    ensures value { Appends result text.old.items text.new.items (spec.plan_text (state_of f.now)) }
    // The text spells the plan file, and is read as it again.
    ensures spelled { SpellsPlan (state_of f.now) (lines (spec.plan_text (state_of f.now))) }
    ensures again { whole plan_at (lines (spec.plan_text (state_of f.now))) ≡ Ok (state_of f.now) }
    // It has fewer than 36,000,000 bytes, so that it fits an input.
    ensures short { length (spec.plan_text (state_of f.now)) < spec.text_bound }
{
    know_ordered(&f.plan);
    let mut all = Text::after(text);
    let done = put_plan(f, &mut all);
    all.end(done, text)
}
