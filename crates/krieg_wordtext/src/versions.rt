ghost use Rattle.std.specs.Prelude.{◌≡◌, ◌≢◌, ◌≤◌, ◌∷◌, [], ℕ, List, IfErr, map, length};
ghost use Rattle.krieg_text.specs.Reading.{GivesOn, Passed};
ghost use Rattle.krieg_text.specs.declared.fault.TextFault.TheVariants.{NoMemory as OutOfMemory};
ghost use Rattle.krieg_text.specs.Writing.{PutsLines, alone};
ghost use Rattle.krieg_wordtext.specs.Versions as spec;

use krieg_board::NoMemory;
use krieg_text::{LineSource, Text, TextFault, TextKind, behind, read_version};
use krieg_words::{
    Dialect, TextVersion, UNNAMED_DIALECT, dialect_name, dialect_rules, read_dialect,
};

/// The dialect that the line names.
#[tactic(auto, unfolding(crate::specs::Versions::dialect_form))]
fn dialect_form(line: &[u8]) -> Result<Dialect, TextKind>
    ensures { result ≡ spec.dialect_form line.now }
{
    match behind(b"dialect ", line) {
        None => Err(TextKind::Syntax),
        Some(name) => read_dialect(name).ok_or(TextKind::Syntax),
    }
}

/// The dialect of a text of that version: version 1 is in one dialect, and in every other version the next line
/// names the dialect.
#[tactic(auto, using(krieg_text::proofs::ReadingLemmas::refused))]
pub fn read_dialect_line<S: LineSource>(from: &mut S, version: u64) -> Result<Dialect, TextFault>
    ensures value { GivesOn (λ d. d) result (S.place from.new)
        (spec.dialect_at version (S.place from.old)) }
    ensures rest { Passed (S.place from.old) (S.place from.new) }
    ensures memory { IfErr result (λ e. e ≢ OutOfMemory) }
{
    if version == 1 {
        return Ok(UNNAMED_DIALECT);
    }
    from.next(dialect_form)
}

/// The dialect of a text by its first lines: the format's name with version 1 or 2, and after version 2
/// the line of the dialect.
#[tactic(auto, using(krieg_text::proofs::ReadingLemmas::passed), unfolding(crate::specs::Versions::version_at))]
pub fn read_version_lines<S: LineSource>(from: &mut S, name: &[u8]) -> Result<Dialect, TextFault>
    ensures value { GivesOn (λ d. d) result (S.place from.new)
        (spec.version_at name.now (S.place from.old)) }
    ensures rest { Passed (S.place from.old) (S.place from.new) }
    ensures memory { IfErr result (λ e. e ≢ OutOfMemory) }
{
    let version = read_version(from, name, 2)?;
    read_dialect_line(from, version)
}

/// Puts the line of the dialect.
pub fn put_dialect_line(d: Dialect, text: &mut Text) -> Result<(), NoMemory>
    ensures { PutsLines result text.old text.new (alone (spec.dialect_line d) ∷ []) }
{
    text.put(b"dialect ")?;
    text.put(dialect_name(d))?;
    text.end_line()
}

/// Puts the first lines of a text in version 2: the format's name, the version, and the line of the dialect.
pub fn put_second_version(name: &[u8], d: Dialect, text: &mut Text) -> Result<(), NoMemory>
    ensures { PutsLines result text.old text.new (map alone (spec.second_version name.now d)) }
{
    text.put(name)?;
    text.put(b"2")?;
    text.end_line()?;
    put_dialect_line(d, text)
}

/// Puts the first lines of a text: the format's name, the version and, in version 2, the line of the dialect.
pub fn put_version_lines(name: &[u8], d: Dialect, text: &mut Text) -> Result<(), NoMemory>
    ensures { PutsLines result text.old text.new (map alone (spec.version_lines name.now d)) }
{
    match dialect_rules(d).version {
        TextVersion::First => {
            text.put(name)?;
            text.put(b"1")?;
            text.end_line()
        }
        TextVersion::Second => put_second_version(name, d, text),
    }
}

/// How many lines `put_version_lines` adds.
pub fn version_line_count(d: Dialect) -> usize
    ensures value { (name : List ℕ) → result ≡ length (spec.version_lines name d) }
    ensures few { result ≤ 2 }
{
    match dialect_rules(d).version {
        TextVersion::First => 1,
        TextVersion::Second => 2,
    }
}
