ghost use Rattle.std.specs.Prelude.{◌≡◌, ◌≢◌, ◌≤◌, IfOk, IfErr};
ghost use Rattle.krieg_text.specs.Forms as spec;
ghost use Rattle.krieg_text.specs.Reading.{taken, Passed, GivesOn};
ghost use Rattle.krieg_text.specs.declared.fault.TextFault.TheVariants.{NoMemory as OutOfMemory};

use crate::fault::{TextFault, TextKind};
use crate::names::{behind, is_name};
use crate::number::{NumberFault, read_number_between};
use crate::source::LineSource;

/// The number from `least` to `most` that stands after the name. A plain decimal outside the range is of
/// the kind `outside`, and everything else is `Syntax`.
#[tactic(auto, unfolding(crate::specs::Forms::number_form))]
fn number_form(
    outside: TextKind,
    name: &[u8],
    least: u64,
    most: u64,
    text: &[u8],
) -> Result<u64, TextKind>
    ensures exact { result ≡ spec.number_form outside name.now least most text.now }
    ensures range { IfOk result (λ n. (least ≤ n) × (n ≤ most)) }
{
    match behind(name, text) {
        None => Err(TextKind::Syntax),
        Some(number) => match read_number_between(number, least, most) {
            Ok(number) => Ok(number),
            Err(NumberFault::NotPlain) => Err(TextKind::Syntax),
            Err(NumberFault::OutOfRange) => Err(outside),
        },
    }
}

/// The version, from 1 to `newest`, that stands after a format's name. Another plain decimal is of the
/// kind `Version`.
fn version_form(name: &[u8], newest: u64, text: &[u8]) -> Result<u64, TextKind>
    ensures exact { result ≡ spec.version_form name.now newest text.now }
    ensures range { IfOk result (λ n. (1 ≤ n) × (n ≤ newest)) }
{
    number_form(TextKind::Version, name, 1, newest, text)
}

/// The number from `least` to `most` that stands after the name. Another plain decimal is of the kind
/// `Count`.
pub fn count_form(name: &[u8], least: u64, most: u64, text: &[u8]) -> Result<u64, TextKind>
    ensures exact { result ≡ spec.count_form name.now least most text.now }
    ensures range { IfOk result (λ n. (least ≤ n) × (n ≤ most)) }
{
    number_form(TextKind::Count, name, least, most, text)
}

/// That the line is this word and no other.
fn word_form(word: &[u8], text: &[u8]) -> Result<(), TextKind>
    ensures { result ≡ spec.word_form word.now text.now }
{
    if is_name(word, text) {
        Ok(())
    } else {
        Err(TextKind::Syntax)
    }
}

/// The next line, as a format's name and its version.
pub fn read_version<S: LineSource>(from: &mut S, name: &[u8], newest: u64) -> Result<u64, TextFault>
    ensures value { GivesOn (λ n. n) result (S.place from.new)
        (taken (spec.version_form name.now newest) (S.place from.old)) }
    ensures range { IfOk result (λ n. (1 ≤ n) × (n ≤ newest)) }
    ensures rest { Passed (S.place from.old) (S.place from.new) }
    ensures memory { IfErr result (λ e. e ≢ OutOfMemory) }
{
    from.next(|line| version_form(name, newest, line))
}

/// The next line, as a name and a number from `least` to `most`.
pub fn read_count<S: LineSource>(
    from: &mut S,
    name: &[u8],
    least: u64,
    most: u64,
) -> Result<u64, TextFault>
    ensures value { GivesOn (λ n. n) result (S.place from.new)
        (taken (spec.count_form name.now least most) (S.place from.old)) }
    ensures range { IfOk result (λ n. (least ≤ n) × (n ≤ most)) }
    ensures rest { Passed (S.place from.old) (S.place from.new) }
    ensures memory { IfErr result (λ e. e ≢ OutOfMemory) }
{
    from.next(|line| count_form(name, least, most, line))
}

/// The next line, as this word and no other.
pub fn read_word<S: LineSource>(from: &mut S, word: &[u8]) -> Result<(), TextFault>
    ensures value { GivesOn (λ u. u) result (S.place from.new)
        (taken (spec.word_form word.now) (S.place from.old)) }
    ensures rest { Passed (S.place from.old) (S.place from.new) }
    ensures memory { IfErr result (λ e. e ≢ OutOfMemory) }
{
    from.next(|line| word_form(word, line))
}
