ghost use Rattle.std.specs.Prelude.{◌≡◌, [], is_none};
ghost use Rattle.std.specs.Str.{bytes_eq};
ghost use Rattle.std.specs.Option.{option_copied};
ghost use Rattle.krieg_text.specs.Writing.{PutsText};
ghost use Rattle.krieg_wordtext.specs.Parts as spec;

use krieg_board::NoMemory;
use krieg_text::{Text, behind, cut, is_name};
use std::marker::Model;

/// The separator, where another part stands before.
fn put_separator(separator: &[u8], before: bool, text: &mut Text) -> Result<(), NoMemory>
    ensures { PutsText result text.old text.new (spec.separator_after separator.now before) }
{
    if before {
        text.put(separator)?;
    }
    Ok(())
}

/// A part of constant text, where it is there, after a separator where another part stands before.
pub(crate) fn put_piece(
    separator: &[u8],
    before: bool,
    there: bool,
    part: &[u8],
    text: &mut Text,
) -> Result<(), NoMemory>
    ensures { PutsText result text.old text.new (spec.piece separator.now before there part.now) }
{
    if !there {
        return Ok(());
    }
    put_separator(separator, before, text)?;
    text.put(part)
}

fn after_gap<'a>(gap: &[u8], rest: Option<&'a [u8]>) -> Option<&'a [u8]>
    ensures { option_copied result ≡ spec.after_gap gap.now (option_copied rest.entry) }
{
    match rest {
        None => None,
        Some(text) => match behind(gap, text) {
            None => Some(&[]),
            Some(part) => Some(part),
        },
    }
}

/// What is left of a text, cut once at its first mark: the part at the front, which is empty where nothing
/// is left, and what stands behind the mark.
///
/// In contracts it is the mark and the text that is left.
#[derive(Drop)]
pub(crate) struct Rest<'a> {
    mark: u8,
    text: Option<&'a [u8]>,
    front: &'a [u8],
    behind: Option<&'a [u8]>,
}

impl<'a> Model for Rest<'a> {
    ghost use Rattle.krieg_wordtext.specs.Parts.{Left, IsCut};
    ghost use Rattle.std.specs.Option.{option_copied};

    ghost Value = { Left };

    ghost view = { λ r. record { mark = r.mark; text = option_copied r.text } };

    ghost invariant = { λ r. IsCut r.mark (option_copied r.text) r.front.now (option_copied r.behind) };
}

impl<'a> Rest<'a> {
    /// All of the text is left, or nothing.
    #[inline]
    pub(crate) fn of(mark: u8, text: Option<&'a [u8]>) -> Rest<'a>
        ensures mark { result.mark ≡ mark }
        ensures text { result.text ≡ option_copied text.entry }
    {
        let (front, behind) = match text {
            None => (&[][..], None),
            Some(text) => cut(mark, text),
        };
        Rest {
            mark,
            text,
            front,
            behind,
        }
    }

    /// The part at the front, up to the mark.
    #[inline]
    pub(crate) fn front(&self) -> &'a [u8]
        ensures { result.now ≡ spec.front self.now.mark self.now.text }
    {
        self.front
    }

    /// Whether nothing is left.
    #[inline]
    pub(crate) fn is_none(&self) -> bool
        ensures { result ≡ is_none self.now.text }
    {
        self.text.is_none()
    }

    /// Goes past the part at the front, its mark and the gap, where that part was taken.
    #[inline]
    pub(crate) fn pass(&mut self, gap: &[u8], taken: bool)
        ensures mark { self.new.mark ≡ self.old.mark }
        ensures text { self.new.text ≡ spec.left_by self.old.mark gap.now taken self.old.text }
    {
        if taken {
            *self = Rest::of(self.mark, after_gap(gap, self.behind));
        }
    }

    /// Whether the part at the front has this name. It goes past it then, and its mark.
    #[inline]
    pub(crate) fn takes(&mut self, name: &[u8]) -> bool
        ensures taken { result ≡ bytes_eq (spec.front self.old.mark self.old.text) name.now }
        ensures mark { self.new.mark ≡ self.old.mark }
        ensures text { self.new.text ≡ spec.left_by self.old.mark [] result self.old.text }
    {
        let is_there = is_name(name, self.front());
        self.pass(b"", is_there);
        is_there
    }
}
