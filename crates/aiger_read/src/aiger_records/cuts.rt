//! Where a byte stands first, and the first word of a line.

ghost use Rattle.std.specs.Prelude.{◌≡◌, ◌+◌, ◌==◌, ◌<◌, ◌≤◌, ◌∷◌, length, MatchOption, IfSome, None, Some};
ghost use Rattle.std.specs.List.{slice_split, position_or_len};
ghost use Rattle.aiger_read.specs.aiger_records.Numbers.{is_blank, words_left};
ghost use Rattle.aiger_read.specs.aiger_records.Lines.{cut_at};

/// The place at which the byte stands first, or the length where it doesn't stand.
pub fn place_of(byte: u8, bytes: &[u8]) -> usize
    ensures place { result ≡ position_or_len (λ b. b == byte) bytes.now }
    ensures within { result ≤ length bytes.now }
{
    for (place, b) in bytes.iter().enumerate() {
        if *b == byte {
            return place;
        }
    }
    bytes.len()
}

/// What stands before a byte, and what after it.
#[derive(Clone, Copy)]
pub struct Cut<'a> {
    pub before: &'a [u8],
    pub after: &'a [u8],
}

/// Cuts the text where the byte stands first, if it stands there.
pub fn cut_at(byte: u8, text: &[u8]) -> Option<Cut<'_>>
    ensures cut { MatchOption result (cut_at (λ b. b == byte) text.now ≡ None) (λ c. cut_at (λ b. b == byte) text.now ≡ Some (record { before = c.before.now; after = c.after.now })) }
    ensures shorter { IfSome result (λ c. length c.after.now < length text.now) }
{
    let place = place_of(byte, text);
    if place == text.len() {
        return None;
    }
    Some(Cut {
        before: &text[..place],
        after: &text[place + 1..],
    })
}

/// The first word of a line, which may be empty, and what stands after the blank that ends it, if one does.
#[derive(Clone, Copy)]
pub struct FirstWord<'a> {
    pub word: &'a [u8],
    pub after: Option<&'a [u8]>,
}

/// Parts the line at its first blank.
pub fn first_word(line: &[u8]) -> FirstWord<'_>
    ensures { slice_split is_blank line.now ≡ result.word.now ∷ words_left result.after }
{
    let place = place_of(b' ', line);
    if place == line.len() {
        return FirstWord {
            word: line,
            after: None,
        };
    }
    FirstWord {
        word: &line[..place],
        after: Some(&line[place + 1..]),
    }
}
