ghost use Rattle.std.specs.Prelude.{◌≡◌, ◌≤◌, ◌^◌, ◌+◌, ◌*◌, ℕ, true, nat_lt, IfSome, IfOk, Some, None, Ok, if◌then◌else◌};
ghost use Rattle.std.specs.Char.{is_ascii_digit, digit_value};
ghost use Rattle.std.specs.List.{list_all};
ghost use Rattle.std.specs.Str.Parse.{digits_value};
ghost use Rattle.krieg_text.specs.Decimals as spec;
ghost use Rattle.krieg_text.specs.Decimals.{number_text};
ghost use Rattle.krieg_text.specs.Writing.{PutsText, Appends};

use crate::writing::Text;
use itoa::Buffer;
use krieg_faults::NoMemory;
use thiserror::Error;

/// Why a text is no number within a range.
#[derive(Clone, Copy, Debug, PartialEq, Eq, Error)]
pub enum NumberFault {
    /// It is no plain decimal.
    #[error("no plain decimal")]
    NotPlain,
    /// It is a plain decimal, of any length, outside the range.
    #[error("a number outside its range")]
    OutOfRange,
}

/// Whether each byte is a digit.
pub fn has_digits_only(text: &[u8]) -> bool
    ensures { result ≡ list_all is_ascii_digit text.now }
{
    text.iter().all(|b| b.is_ascii_digit())
}

/// Whether the text is a plain decimal of any length: `0`, or a digit from 1 to 9 followed by digits.
pub fn is_plain(text: &[u8]) -> bool
    ensures { result ≡ spec.is_plain text.now }
{
    !text.is_empty() && (text[0] != b'0' || text.len() == 1) && has_digits_only(text)
}

/// The number with one digit more, where it has 64 bits.
fn with_digit(number: u64, digit: u8) -> Option<u64>
    requires { is_ascii_digit digit ≡ true }
    ensures { result ≡ (if nat_lt (number * 10 + digit_value digit) (2 ^ 64) then Some
        (number * 10 + digit_value digit) else None) }
{
    number.checked_mul(10)?.checked_add(u64::from(digit - b'0'))
}

/// The number that these digits write, where it has 64 bits.
#[tactic(auto, using(crate::proofs::Numbers::digits))]
fn value_of(digits: &[u8]) -> Option<u64>
    requires { list_all is_ascii_digit digits.now ≡ true }
    ensures { result ≡ (if nat_lt (digits_value 10 digits.now) (2 ^ 64) then Some
        (digits_value 10 digits.now) else None) }
{
    let mut number: u64 = 0;
    for digit in digits {
        number = with_digit(number, *digit)?;
    }
    Some(number)
}

fn number_between(text: &[u8], least: u64, most: u64) -> Result<u64, NumberFault>
    ensures { result ≡ spec.number_between text.now least most }
{
    if !is_plain(text) {
        return Err(NumberFault::NotPlain);
    }
    match value_of(text) {
        Some(number) if least <= number && number <= most => Ok(number),
        _ => Err(NumberFault::OutOfRange),
    }
}

/// The number that the text is a plain decimal of, where it is from `least` to `most`. A plain decimal of
/// any length outside the range is told from a text that is no plain decimal.
#[tactic(auto, using(crate::proofs::Numbers::plains))]
pub fn read_number_between(text: &[u8], least: u64, most: u64) -> Result<u64, NumberFault>
    ensures exact { result ≡ spec.number_between text.now least most }
    // What is read is spelled so, and what is spelled so is read.
    ensures found { IfOk result (λ n. (least ≤ n) × (n ≤ most) × (text.now ≡ number_text n)) }
    ensures only { (n : ℕ) → least ≤ n → n ≤ most → text.now ≡ number_text n → result ≡ Ok n }
{
    number_between(text, least, most)
}

/// The number that the text is a plain decimal of, where it is at most `max`.
#[tactic(auto, using(crate::proofs::Numbers::plains))]
pub fn read_number(text: &[u8], max: u64) -> Option<u64>
    ensures exact { result ≡ spec.number_within text.now max }
    // What is read is spelled so, and what is spelled so is read.
    ensures found { IfSome result (λ n. (n ≤ max) × (text.now ≡ number_text n)) }
    ensures only { (n : ℕ) → n ≤ max → text.now ≡ number_text n → result ≡ Some n }
{
    read_number_between(text, 0, max).ok()
}

/// Adds the number as a plain decimal.
pub fn put_number(number: u64, text: &mut Text) -> Result<(), NoMemory>
    ensures { PutsText result text.old text.new (number_text number) }
{
    text.put(Buffer::new().format(number).as_bytes())
}
