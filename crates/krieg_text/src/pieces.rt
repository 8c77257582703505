ghost use Rattle.std.specs.Prelude.{◌≡◌, ◌<◌, ◌∷◌, ◌==◌, ℕ, length, IfNone, IfSome, true, false, slice_index};
ghost use Rattle.std.specs.Option.{option_copied, option_map};
ghost use Rattle.krieg_text.specs.Names as names;
ghost use Rattle.krieg_text.specs.Pieces.{pieces, pieces_left};

/// Where the separator stands for the first time.
fn first_of(text: &[u8], separator: u8) -> Option<usize>
    ensures none { IfNone result ((k : ℕ) → k < length text.now →
        (slice_index text.now k == separator) ≡ false) }
    ensures some { IfSome result (λ i. (i < length text.now)
        × ((slice_index text.now i == separator) ≡ true)
        × ((k : ℕ) → k < i → (slice_index text.now k == separator) ≡ false)) }
{
    text.iter().position(|b| *b == separator)
}

/// The text up to the first separator, and what stands after that one, where there is one.
#[tactic(auto, using(crate::proofs::PieceCuts::cuts, crate::proofs::NameLemmas::cuts))]
pub fn cut(separator: u8, text: &[u8]) -> (&[u8], Option<&[u8]>)
    ensures exact { (result.0.now, option_copied result.1) ≡ names.cut separator text.now }
    // It is the first of the pieces into which the separators cut the text.
    ensures first { pieces separator text.now ≡ result.0.now
        ∷ pieces_left separator (option_copied result.1) }
{
    match first_of(text, separator) {
        None => (text, None),
        Some(i) => (&text[..i], Some(&text[i + 1..])),
    }
}

/// The text up to the last separator, and what stands after that one, where there is one.
pub fn cut_last(separator: u8, text: &[u8]) -> Option<(&[u8], &[u8])>
    ensures { option_map (λ x. (x.0.now, x.1.now)) result ≡ names.cut_last separator text.now }
{
    match text.iter().rposition(|b| *b == separator) {
        None => None,
        Some(i) => Some((&text[..i], &text[i + 1..])),
    }
}
