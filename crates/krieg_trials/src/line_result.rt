// What comes of a line of a case, and its parts.

/// What comes of a line of a case.
#[derive(Clone, Copy)]
pub enum LineResult {
    /// It holds.
    Holds,
    /// It does not hold, or has not the form of its mark.
    Fails,
    /// There was no memory for what it gives.
    Short,
}

impl LineResult {
    /// Of a line that holds or does not.
    pub fn of(holds: bool) -> LineResult {
        if holds {
            LineResult::Holds
        } else {
            LineResult::Fails
        }
    }

    /// Of a line that holds where there was memory.
    pub fn kept(is_kept: bool) -> LineResult {
        if is_kept {
            LineResult::Holds
        } else {
            LineResult::Short
        }
    }
}

/// The text up to its first space, and what stands behind that.
pub fn parted(text: &str) -> (&str, &str) {
    text.split_once(' ').unwrap_or((text, ""))
}

/// The number with which the text begins, and what stands behind the space after it.
pub fn counted(text: &str) -> Option<(usize, &str)> {
    let (number, rest) = parted(text);
    match number.parse::<usize>() {
        Ok(number) => Some((number, rest)),
        Err(_) => None,
    }
}
