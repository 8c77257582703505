ghost use Rattle.std.specs.Prelude.{◌≡◌, ◌++◌, codes};
ghost use Rattle.krieg_fen.specs.MoveText.{move_text, IsOnBoard};
ghost use Rattle.krieg_text.specs.Writing.{PutsText, Appends};
ghost use Rattle.krieg_wordtext.specs.WordsText.{words_text};
ghost use Rattle.krieg_wordtext.specs.Line as spec;
ghost use Rattle.krieg_wordtext.specs.Line.{line_text, IsLine, LineFits};
ghost use Rattle.krieg_words.specs.declared.dialects.Dialect.TheVariants.{Wild16};

use crate::words_text::put_said;
use krieg_board::{Move, NoMemory, know_squares};
use krieg_fen::put_move;
use krieg_text::Text;
use krieg_words::{Dialect, Words, know_words, told};

/// One line of what a player hears.
#[derive(Clone, Copy)]
pub enum Line {
    /// The opening words.
    Opens(Words),
    /// His try was not legal.
    Illegal(Move),
    /// His try was made, with its words.
    Done(Move, Words),
    /// The opponent made a move, with its words.
    Heard(Words),
    /// His try came when the opponent was to move.
    Early(Move),
    /// His try came after the end of the game.
    Over(Move),
}

fn know_move(mv: &Move)
    ensures { IsOnBoard mv.now }
{
    know_squares(mv);
}

/// Tells a proof that the squares and the words of a line are those of a game.
pub fn know_line(line: &Line)
    ensures { IsLine line.now }
{
    match line {
        Line::Opens(w) | Line::Heard(w) => know_words(w),
        Line::Illegal(mv) | Line::Early(mv) | Line::Over(mv) => know_move(mv),
        Line::Done(mv, w) => {
            know_move(mv);
            know_words(w);
        }
    }
}

fn line_told(d: Dialect, l: Line) -> Line
    ensures { result ≡ spec.told_line d l }
{
    match l {
        Line::Opens(w) => Line::Opens(told(d, w)),
        Line::Illegal(mv) => Line::Illegal(mv),
        Line::Done(mv, w) => Line::Done(mv, told(d, w)),
        Line::Heard(w) => Line::Heard(told(d, w)),
        Line::Early(mv) => Line::Early(mv),
        Line::Over(mv) => Line::Over(mv),
    }
}

/// The line with its words as the dialect tells them.
pub fn told_line(d: Dialect, l: Line) -> Line
    ensures value { result ≡ spec.told_line d l }
    ensures fits { LineFits d result }
{
    line_told(d, l)
}

/// A word, and the text of words.
fn put_heard(word: &[u8], d: Dialect, w: &Words, text: &mut Text) -> Result<(), NoMemory>
    ensures { PutsText result text.old text.new (word.now ++ words_text d w.now) }
{
    text.put(word)?;
    put_said(d, w, text)
}

/// A try, and what became of it.
fn put_try(mv: &Move, verdict: &[u8], text: &mut Text) -> Result<(), NoMemory>
    ensures { PutsText result text.old text.new
        (codes "try " ++ (move_text mv.now ++ verdict.now)) }
{
    text.put(b"try ")?;
    put_move(*mv, text)?;
    text.put(verdict)
}

/// A try that was made, and its words.
fn put_done(mv: &Move, d: Dialect, w: &Words, text: &mut Text) -> Result<(), NoMemory>
    ensures { PutsText result text.old text.new
        (codes "try " ++ (move_text mv.now ++ (codes " ok " ++ words_text d w.now))) }
{
    put_try(mv, b" ok ", text)?;
    put_said(d, w, text)
}

/// Puts the text of the line in the dialect, which its words fit, without a line end.
#[tactic(auto, unfolding(crate::specs::Line::line_text))]
pub fn put_line_in(d: Dialect, l: Line, text: &mut Text) -> Result<(), NoMemory>
    requires { LineFits d l }
    ensures { PutsText result text.old text.new (line_text d l) }
{
    match &l {
        Line::Opens(w) => put_heard(b"opens ", d, w, text),
        Line::Illegal(mv) => put_try(mv, b" illegal", text),
        Line::Done(mv, w) => put_done(mv, d, w, text),
        Line::Heard(w) => put_heard(b"heard ", d, w, text),
        Line::Early(mv) => put_try(mv, b" early", text),
        Line::Over(mv) => put_try(mv, b" over", text),
    }
}

/// Puts the text of the line in the dialect wild16, as `put_line_in` does.
#[tactic(auto, using(crate::proofs::LineLaws::wild_lines))]
pub fn put_line(l: Line, text: &mut Text) -> Result<(), NoMemory>
    ensures { PutsText result text.old text.new (line_text Wild16 l) }
{
    put_line_in(Dialect::Wild16, l, text)
}

/// Appends the text of the line in the dialect, which its words fit, without a line end.
pub fn write_line_in(d: Dialect, l: Line, text: &mut Vec<u8>) -> Result<(), NoMemory>
    requires { LineFits d l }
    ensures { Appends result text.old.items text.new.items (line_text d l) }
{
    let mut all = Text::after(text);
    let done = put_line_in(d, l, &mut all);
    all.end(done, text)
}

/// Appends the text of the line in the dialect wild16, as `write_line_in` does.
pub fn write_line(l: Line, text: &mut Vec<u8>) -> Result<(), NoMemory>
    ensures { Appends result text.old.items text.new.items (line_text Wild16 l) }
{
    let mut all = Text::after(text);
    let done = put_line(l, &mut all);
    all.end(done, text)
}
