ghost use Rattle.std.specs.Prelude.{◌≡◌, map, string_bytes, option_map};
ghost use Rattle.krieg_args.specs.Files as spec;

use crate::words::{led_words, played_words};
use krieg_text::is_name;

/// The files of a live game.
#[derive(Clone, Copy)]
pub struct SeatFiles<'a> {
    /// Where White's tries come from.
    pub win: &'a str,
    /// Where White is told.
    pub wout: &'a str,
    /// Where Black's tries come from.
    pub bin: &'a str,
    /// Where Black is told.
    pub bout: &'a str,
}

/// The words behind the name of that command.
#[tactic(auto, unfolding(crate::specs::Files::behind))]
fn behind<'a>(command: &[u8], words: &'a [String]) -> Option<&'a [String]>
    ensures { option_map (λ rest. map string_bytes rest.now) result
        ≡ spec.behind command.now (map string_bytes words.now) }
{
    let (name, words) = words.split_first()?;
    is_name(command, name.as_bytes()).then_some(words)
}

/// The files that the words name, exactly where they are those of a well-formed `play`.
pub fn seat_files(words: &[String]) -> Option<SeatFiles<'_>>
    ensures { option_map (λ files. record
        { win = files.win.now; wout = files.wout.now; bin = files.bin.now; bout = files.bout.now })
        result
        ≡ spec.seat_files (map string_bytes words.now) }
{
    let (_, files) = played_words(behind(b"play", words)?)?;
    Some(files)
}

/// Those of a game that the command of that name leads: where the opponent's tries come from, and where he is told.
fn led_files<'a>(command: &[u8], words: &'a [String]) -> Option<(&'a str, &'a str)>
    ensures { option_map (λ files. (files.0.now, files.1.now)) result
        ≡ spec.led_files command.now (map string_bytes words.now) }
{
    let (_, _, files) = led_words(behind(command, words)?)?;
    Some(files)
}

/// The files that the words name, exactly where they are those of a well-formed `lead`: where the opponent's tries come
/// from, and where he is told.
pub fn lead_files(words: &[String]) -> Option<(&str, &str)>
    ensures { option_map (λ files. (files.0.now, files.1.now)) result
        ≡ spec.lead_files (map string_bytes words.now) }
{
    led_files(b"lead", words)
}

/// The same of a well-formed `conduct`.
pub fn conduct_files(words: &[String]) -> Option<(&str, &str)>
    ensures { option_map (λ files. (files.0.now, files.1.now)) result
        ≡ spec.conduct_files (map string_bytes words.now) }
{
    led_files(b"conduct", words)
}
