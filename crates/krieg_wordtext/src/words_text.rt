ghost use Rattle.std.specs.Prelude.{◌≡◌, ◌||◌, codes, if◌then◌else◌, []};
ghost use Rattle.krieg_text.specs.Writing.{PutsText, Appends};
ghost use Rattle.krieg_words.specs.ToldWords.{Fits};
ghost use Rattle.krieg_wordtext.specs.WordsText as spec;
ghost use Rattle.krieg_wordtext.specs.WordsText.{words_text};
ghost use Rattle.krieg_wordtext.specs.Parts.{piece, joined_by};
ghost use Rattle.krieg_words.specs.declared.dialects.Dialect.TheVariants.{Wild16};

use crate::parts::put_piece;
use krieg_board::NoMemory;
use krieg_fen::put_square;
use krieg_text::{Text, put_number};
use krieg_words::{
    ChecksTold, Dialect, End, Kinds, MenTold, Took, TriesTold, Words, dialect_rules,
};

fn pawn_name(men: MenTold) -> &'static [u8]
    ensures { result.now ≡ spec.pawn_name men }
{
    match men {
        MenTold::Apart => b"pawn ",
        MenTold::Alike => b"took ",
    }
}

fn piece_name(men: MenTold) -> &'static [u8]
    ensures { result.now ≡ spec.piece_name men }
{
    match men {
        MenTold::Apart => b"piece ",
        MenTold::Alike => b"took ",
    }
}

pub(crate) fn is_capture(took: &Took) -> bool
    ensures { result ≡ spec.is_capture took.now }
{
    match took {
        Took::Nothing => false,
        Took::Pawn(_) | Took::Piece(_) => true,
    }
}

fn put_took(men: MenTold, took: &Took, text: &mut Text) -> Result<(), NoMemory>
    ensures { PutsText result text.old text.new (spec.took_text men took.now) }
{
    match took {
        Took::Nothing => Ok(()),
        Took::Pawn(s) => {
            text.put(pawn_name(men))?;
            put_square(*s, text)
        }
        Took::Piece(s) => {
            text.put(piece_name(men))?;
            put_square(*s, text)
        }
    }
}

pub(crate) fn is_check(kinds: Kinds) -> bool
    ensures { result ≡ spec.is_check kinds }
{
    kinds.bits() != 0
}

fn either(a: bool, b: bool) -> bool
    ensures { result ≡ (a || b) }
{
    a || b
}

fn put_names(kinds: Kinds, text: &mut Text) -> Result<(), NoMemory>
    ensures { PutsText result text.old text.new (joined_by (codes "+") (spec.kind_names kinds)) }
{
    let names: [(bool, &[u8]); 5] = [
        (kinds.file, b"file"),
        (kinds.rank, b"rank"),
        (kinds.long, b"long"),
        (kinds.short, b"short"),
        (kinds.knight, b"knight"),
    ];
    let mut before = false;
    for (there, name) in names {
        put_piece(b"+", before, there, name, text)?;
        before = either(before, there);
    }
    Ok(())
}

fn put_checks(
    checks: ChecksTold,
    before: bool,
    kinds: Kinds,
    text: &mut Text,
) -> Result<(), NoMemory>
    ensures { PutsText result text.old text.new
        (piece (codes ", ") before (spec.is_check kinds) (spec.checks_text checks kinds)) }
{
    match checks {
        ChecksTold::ByKind if is_check(kinds) => {
            put_piece(b", ", before, true, b"check ", text)?;
            put_names(kinds, text)
        }
        ChecksTold::ByKind => Ok(()),
        ChecksTold::Bare => put_piece(b", ", before, is_check(kinds), b"check", text),
    }
}

pub(crate) fn are_tries(tries: TriesTold, n: u8) -> bool
    ensures { result ≡ spec.are_tries tries n }
{
    match tries {
        TriesTold::Number | TriesTold::Any => n != 0,
        TriesTold::Untold => false,
    }
}

fn put_tries(tries: TriesTold, before: bool, n: u8, text: &mut Text) -> Result<(), NoMemory>
    ensures { PutsText result text.old text.new
        (piece (codes ", ") before (spec.are_tries tries n) (spec.tries_text tries n)) }
{
    match tries {
        TriesTold::Number if n != 0 => {
            put_piece(b", ", before, true, b"tries ", text)?;
            put_number(u64::from(n), text)
        }
        TriesTold::Any => put_piece(b", ", before, n != 0, b"tries some", text),
        TriesTold::Number | TriesTold::Untold => Ok(()),
    }
}

fn end_text(end: End) -> &'static [u8]
    ensures { result.now ≡ spec.end_text end }
{
    match end {
        End::Goes => b"",
        End::Mate => b"mate",
        End::Stalemate => b"stalemate",
    }
}

/// Whether these words say that the game has ended.
pub fn has_ended(end: End) -> bool
    ensures { result ≡ spec.has_ended end }
{
    match end {
        End::Goes => false,
        End::Mate | End::Stalemate => true,
    }
}

/// What stands for words of which nothing was told.
fn put_silence(told: bool, text: &mut Text) -> Result<(), NoMemory>
    ensures { PutsText result text.old text.new (if told then [] else codes "silent") }
{
    if told {
        return Ok(());
    }
    text.put(b"silent")
}

#[tactic(auto, using(crate::proofs::WordsWritten::words_after))]
fn put_parts(
    d: Dialect,
    took: &Took,
    kinds: Kinds,
    tries: u8,
    end: End,
    text: &mut Text,
) -> Result<(), NoMemory>
    ensures { PutsText result text.old text.new
        (words_text d (record { end = end; took = took.now; checks = kinds; tries = tries })) }
{
    let dialect = dialect_rules(d);
    put_took(dialect.men, took, text)?;
    let told = is_capture(took);
    put_checks(dialect.checks, told, kinds, text)?;
    let told = either(told, is_check(kinds));
    put_tries(dialect.tries, told, tries, text)?;
    let told = either(told, are_tries(dialect.tries, tries));
    put_piece(b", ", told, has_ended(end), end_text(end), text)?;
    put_silence(either(told, has_ended(end)), text)
}

/// Puts the text of the words in the dialect, whether they fit it or not.
pub(crate) fn put_said(d: Dialect, w: &Words, text: &mut Text) -> Result<(), NoMemory>
    ensures { PutsText result text.old text.new (words_text d w.now) }
{
    put_parts(d, &w.took, w.checks, w.tries, w.end, text)
}

/// Puts the text of the words in the dialect, which they fit.
pub fn put_words_in(d: Dialect, w: Words, text: &mut Text) -> Result<(), NoMemory>
    requires { Fits d w }
    ensures { PutsText result text.old text.new (words_text d w) }
{
    put_said(d, &w, text)
}

/// Puts the text of the words in the dialect wild16.
pub fn put_words(w: Words, text: &mut Text) -> Result<(), NoMemory>
    ensures { PutsText result text.old text.new (words_text Wild16 w) }
{
    put_words_in(Dialect::Wild16, w, text)
}

/// Appends the text of the words in the dialect, which they fit.
pub fn write_words_in(d: Dialect, w: Words, text: &mut Vec<u8>) -> Result<(), NoMemory>
    requires { Fits d w }
    ensures { Appends result text.old.items text.new.items (words_text d w) }
{
    let mut all = Text::after(text);
    let done = put_words_in(d, w, &mut all);
    all.end(done, text)
}

/// Appends the text of the words in the dialect wild16, as `write_words_in` does.
pub fn write_words(w: Words, text: &mut Vec<u8>) -> Result<(), NoMemory>
    ensures { Appends result text.old.items text.new.items (words_text Wild16 w) }
{
    let mut all = Text::after(text);
    let done = put_words(w, &mut all);
    all.end(done, text)
}
