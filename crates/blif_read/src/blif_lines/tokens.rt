//! Tokens: the words of a line, parted by blanks and tabs.

ghost use Rattle.std.specs.Prelude.{◌≡◌, ◌<◌, ◌++◌, length, map, IfOk};
ghost use Rattle.blif_read.specs.blif_lines.Lines.{tokens_of, put_token};

use crate::blif_lines::bytes::blank_place;
use sec_base::NoMemory;
use std::alloc::Global;

/// The first word of a line, which may be empty, and what stands after the blank that ends it.
struct FirstWord<'a> {
    word: &'a [u8],
    after: &'a [u8],
}

/// Parts the bytes at the first blank.
fn first_word(bytes: &[u8]) -> FirstWord<'_>
    ensures tokens { tokens_of bytes.now ≡ put_token result.word.now (tokens_of result.after.now) }
    ensures shorter { 0 < length bytes.now → length result.after.now < length bytes.now }
{
    let place = blank_place(bytes);
    if place == bytes.len() {
        return FirstWord {
            word: bytes,
            after: &[],
        };
    }
    FirstWord {
        word: &bytes[..place],
        after: &bytes[place + 1..],
    }
}

/// The tokens of a line, in order: what stands between blanks and tabs, without the empty words.
pub fn tokens_of(alloc: Global, bytes: &[u8]) -> Result<Vec<&[u8]>, NoMemory>
    ensures { IfOk result (λ tokens. map (λ t. t.now) tokens.items ≡ tokens_of bytes.now) }
{
    let mut tokens = Vec::new(alloc);
    let mut rest = bytes;
    while rest.len() > 0 {
        let FirstWord { word, after } = first_word(rest);
        if word.len() > 0 {
            tokens.push(word)?;
        }
        rest = after;
    }
    Ok(tokens)
}
