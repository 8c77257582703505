ghost use Rattle.std.specs.Prelude.{◌≡◌, codes, IfOk, Some, None, Ok};
ghost use Rattle.std.specs.Option.{option_copied};
ghost use Rattle.krieg_text.specs.Names.{behind};
ghost use Rattle.krieg_text.specs.Outcomes.{Reads};
ghost use Rattle.krieg_wordtext.specs.Line.{line_text, IsLine, LineFits};
ghost use Rattle.krieg_wordtext.specs.LineReading as spec;
ghost use Rattle.krieg_words.specs.declared.dialects.Dialect.TheVariants.{Wild16};
ghost use Rattle.krieg_wordtext.specs.declared.line.Line.{Line as SomeLine};

use crate::line::Line;
use crate::words_reading::words_in;
use krieg_board::Move;
use krieg_fen::read_move;
use krieg_text::{behind, cut, is_name};
use krieg_words::Dialect;
use thiserror::Error;

/// The text is no line of the dialect.
#[derive(Clone, Copy, Debug, Error)]
#[error("no line of the dialect")]
pub struct LineFault;

fn done_in(d: Dialect, mv: &Move, text: Option<&[u8]>) -> Option<Line>
    ensures { result ≡ spec.done_in d mv.now (option_copied text.entry) }
{
    match text {
        None => None,
        Some(text) => match words_in(d, text) {
            None => None,
            Some(w) => Some(Line::Done(*mv, w)),
        },
    }
}

fn judged_in(d: Dialect, mv: &Move, text: &[u8]) -> Option<Line>
    ensures { result ≡ spec.judged_in d mv.now text.now }
{
    if is_name(b"illegal", text) {
        Some(Line::Illegal(*mv))
    } else if is_name(b"early", text) {
        Some(Line::Early(*mv))
    } else if is_name(b"over", text) {
        Some(Line::Over(*mv))
    } else {
        done_in(d, mv, behind(b"ok ", text))
    }
}

fn try_in(d: Dialect, text: Option<&[u8]>) -> Option<Line>
    ensures { result ≡ spec.try_in d (option_copied text.entry) }
{
    match text {
        None => None,
        Some(text) => {
            let (first, rest) = cut(b' ', text);
            match read_move(first) {
                Err(_) => None,
                Ok(mv) => match rest {
                    None => None,
                    Some(rest) => judged_in(d, &mv, rest),
                },
            }
        }
    }
}

fn heard_in(d: Dialect, line: &[u8]) -> Option<Line>
    ensures { result ≡ spec.heard_in d (behind (codes "heard ") line.now) line.now }
{
    match behind(b"heard ", line) {
        Some(text) => match words_in(d, text) {
            None => None,
            Some(w) => Some(Line::Heard(w)),
        },
        None => try_in(d, behind(b"try ", line)),
    }
}

#[tactic(auto, unfolding(crate::specs::LineReading::line_in))]
fn line_in(d: Dialect, line: &[u8]) -> Option<Line>
    ensures { result ≡ spec.line_in d line.now }
{
    match behind(b"opens ", line) {
        Some(text) => match words_in(d, text) {
            None => None,
            Some(w) => Some(Line::Opens(w)),
        },
        None => heard_in(d, line),
    }
}

/// The line that the text spells in the dialect, without a line end. `LineFault` exactly where it
/// spells none.
#[tactic(auto, using(crate::proofs::LineLaws::lines))]
pub fn read_line_in(d: Dialect, text: &[u8]) -> Result<Line, LineFault>
    ensures exact { Reads result (spec.line_in d text.now) }
    // What is read is spelled so, and what is spelled so is read.
    ensures found { IfOk result (λ l. IsLine l × LineFits d l × (text.now ≡ line_text d l)) }
    ensures only { (l : SomeLine) → IsLine l → LineFits d l → text.now ≡ line_text d l →
        result ≡ Ok l }
{
    line_in(d, text).ok_or(LineFault)
}

/// The line that the text spells in the dialect wild16, as `read_line_in` reads it.
pub fn read_line(text: &[u8]) -> Result<Line, LineFault>
    ensures exact { Reads result (spec.line_in Wild16 text.now) }
    // What is read is spelled so, and what is spelled so is read.
    ensures found { IfOk result (λ l. IsLine l × (text.now ≡ line_text Wild16 l)) }
    ensures only { (l : SomeLine) → IsLine l → text.now ≡ line_text Wild16 l → result ≡ Ok l }
{
    read_line_in(Dialect::Wild16, text)
}
