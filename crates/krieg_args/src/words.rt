ghost use Rattle.std.specs.Prelude.{◌≡◌, [], ◌∷◌, map, string_bytes, option_map};
ghost use Rattle.krieg_args.specs.Kinds as spec;
ghost use Rattle.krieg_args.specs.Kinds.{Number, Whose, Made, File, asks, budget, find_budget, find_search, led, listed, played, search, seed};

use crate::command::{MOST_ASKS, MOST_FIND_MOVES, MOST_FIND_UNITS, MOST_SEED, MadeInput};
use crate::files::SeatFiles;
use krieg_board::{MOST_MOVES, MOST_UNITS, Side};
use krieg_fen::MOST_LISTED;
use krieg_text::{is_name, read_number_between};

/// The number that the first word is, in a range, and the words behind it.
#[tactic(auto, unfolding(crate::specs::Kinds::read_first))]
fn number(least: u64, most: u64, words: &[String]) -> Option<(u64, &[String])>
    ensures { option_map (λ it. (it.0, map string_bytes it.1.now)) result
        ≡ spec.read_first (Number least most) (map string_bytes words.now) }
{
    let (word, words) = words.split_first()?;
    let number = read_number_between(word.as_bytes(), least, most).ok()?;
    Some((number, words))
}

pub(crate) fn budget_of(words: &[String]) -> Option<(u64, &[String])>
    ensures { option_map (λ it. (it.0, map string_bytes it.1.now)) result
        ≡ spec.read_first budget (map string_bytes words.now) }
{
    number(1, MOST_UNITS, words)
}

pub(crate) fn find_budget_of(words: &[String]) -> Option<(u64, &[String])>
    ensures { option_map (λ it. (it.0, map string_bytes it.1.now)) result
        ≡ spec.read_first find_budget (map string_bytes words.now) }
{
    number(1, MOST_FIND_UNITS, words)
}

/// The positions of a set, or the number of a listed position.
pub(crate) fn limit_of(words: &[String]) -> Option<(u64, &[String])>
    ensures { option_map (λ it. (it.0, map string_bytes it.1.now)) result
        ≡ spec.read_first listed (map string_bytes words.now) }
{
    number(1, MOST_LISTED, words)
}

fn asks_of(words: &[String]) -> Option<(u64, &[String])>
    ensures { option_map (λ it. (it.0, map string_bytes it.1.now)) result
        ≡ spec.read_first asks (map string_bytes words.now) }
{
    number(1, MOST_ASKS, words)
}

pub(crate) fn seed_of(words: &[String]) -> Option<(u64, &[String])>
    ensures { option_map (λ it. (it.0, map string_bytes it.1.now)) result
        ≡ spec.read_first seed (map string_bytes words.now) }
{
    number(0, MOST_SEED, words)
}

/// Whose sheet the umpire writes, or none for what both players hear.
pub(crate) fn whose(word: &str) -> Option<Option<Side>>
    ensures { result ≡ spec.read Whose word.now }
{
    let word = word.as_bytes();
    if is_name(b"w", word) {
        Some(Some(Side::White))
    } else if is_name(b"b", word) {
        Some(Some(Side::Black))
    } else if is_name(b"all", word) {
        Some(None)
    } else {
        None
    }
}

/// What a made input is.
pub(crate) fn made_input(word: &str) -> Option<MadeInput>
    ensures { result ≡ spec.read Made word.now }
{
    let word = word.as_bytes();
    if is_name(b"session", word) {
        Some(MadeInput::Session)
    } else if is_name(b"sheet", word) {
        Some(MadeInput::Sheet)
    } else {
        None
    }
}

/// The name of a file, which the first word is, and the words behind it.
#[tactic(auto, unfolding(crate::specs::Kinds::read_first))]
fn file(words: &[String]) -> Option<(&str, &[String])>
    ensures { option_map (λ it. (it.0.now, map string_bytes it.1.now)) result
        ≡ spec.read_first File (map string_bytes words.now) }
{
    let (word, words) = words.split_first()?;
    if word.is_empty() {
        return None;
    }
    Some((word.as_str(), words))
}

/// Ends a reader: there are no words left.
pub(crate) fn no_more(words: &[String]) -> Option<()>
    ensures { result ≡ spec.read_all [] (map string_bytes words.now) }
{
    words.is_empty().then_some(())
}

/// The names of two files, which are all words that there are.
fn two_files(words: &[String]) -> Option<(&str, &str)>
    ensures { option_map (λ it. (it.0.now, (it.1.now, tt))) result
        ≡ spec.read_all (File ∷ File ∷ []) (map string_bytes words.now) }
{
    let (tries, words) = file(words)?;
    let (told, words) = file(words)?;
    no_more(words)?;
    Some((tries, told))
}

/// Moves, budget and limit of a search, with the most moves and the most units of work.
fn numbers(moves: u64, units: u64, words: &[String]) -> Option<(u64, u64, u64)>
    ensures { option_map (λ n. (n.0, (n.1, (n.2, tt)))) result
        ≡ spec.read_all (Number 1 moves ∷ Number 1 units ∷ listed ∷ [])
        (map string_bytes words.now) }
{
    let (moves, words) = number(1, moves, words)?;
    let (budget, words) = number(1, units, words)?;
    let (limit, words) = limit_of(words)?;
    no_more(words)?;
    Some((moves, budget, limit))
}

/// What stands behind `solve` and `refute`.
pub(crate) fn search_numbers(words: &[String]) -> Option<(u64, u64, u64)>
    ensures { option_map (λ n. (n.0, (n.1, (n.2, tt)))) result
        ≡ spec.read_all search (map string_bytes words.now) }
{
    numbers(u64::from(MOST_MOVES), MOST_UNITS, words)
}

/// What stands behind `find`, `keys` and `share`, which go further.
pub(crate) fn find_numbers(words: &[String]) -> Option<(u64, u64, u64)>
    ensures { option_map (λ n. (n.0, (n.1, (n.2, tt)))) result
        ≡ spec.read_all find_search (map string_bytes words.now) }
{
    numbers(u64::from(MOST_FIND_MOVES), MOST_FIND_UNITS, words)
}

/// What stands behind `play`: how often the players are asked, and their files.
pub(crate) fn played_words(words: &[String]) -> Option<(u64, SeatFiles<'_>)>
    ensures { option_map
        (λ it. let f = it.1 in (it.0, (f.win.now, (f.wout.now, (f.bin.now, (f.bout.now, tt))))))
        result
        ≡ spec.read_all played (map string_bytes words.now) }
{
    let (asks, words) = asks_of(words)?;
    let (win, words) = file(words)?;
    let (wout, words) = file(words)?;
    let (bin, bout) = two_files(words)?;
    let files = SeatFiles {
        win,
        wout,
        bin,
        bout,
    };
    Some((asks, files))
}

/// What stands behind `lead` and `conduct`: how often the players are asked, the number of a listed position, and the opponent's files.
pub(crate) fn led_words(words: &[String]) -> Option<(u64, u64, (&str, &str))>
    ensures { option_map (λ it. (it.0, (it.1, (it.2.0.now, (it.2.1.now, tt))))) result
        ≡ spec.read_all led (map string_bytes words.now) }
{
    let (asks, words) = asks_of(words)?;
    let (place, words) = limit_of(words)?;
    let files = two_files(words)?;
    Some((asks, place, files))
}
