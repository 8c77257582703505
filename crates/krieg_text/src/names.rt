ghost use Rattle.std.specs.Prelude.{◌≡◌, ◌∷◌, []};
ghost use Rattle.std.specs.Str.{bytes_eq};
ghost use Rattle.std.specs.Option.{option_copied};
ghost use Rattle.krieg_text.specs.Names as spec;

/// What stands after the byte, where the text begins with it.
#[inline]
#[tactic(auto, using(crate::proofs::NameLemmas::bytes), unfolding(crate::specs::Names::behind))]
fn behind_byte(byte: u8, text: &[u8]) -> Option<&[u8]>
    ensures { option_copied result ≡ spec.behind (byte ∷ []) text.now }
{
    if text.is_empty() || text[0] != byte {
        return None;
    }
    Some(&text[1..])
}

/// What stands after the name, where the text begins with it. It goes byte by byte, since names are short and the first
/// byte mostly tells.
pub fn behind<'a>(name: &[u8], text: &'a [u8]) -> Option<&'a [u8]>
    ensures { option_copied result ≡ spec.behind name.now text.now }
{
    let mut rest = text;
    for byte in name {
        rest = behind_byte(*byte, rest)?;
    }
    Some(rest)
}

/// Whether the text is the name.
#[tactic(auto, using(crate::proofs::NameLemmas::whole_names))]
pub fn is_name(name: &[u8], text: &[u8]) -> bool
    ensures { result ≡ bytes_eq text.now name.now }
{
    text.len() == name.len() && behind(name, text).is_some()
}
