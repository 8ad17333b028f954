//! Pieces that rows of several kinds show.

use crate::row_text::{show, show_byte, show_count, show_word};
use sec_base::Words;
use std::rt::HostRuntime;

/// Shows what stands before the bytes, and the bytes, with marks for those that can't be seen.
pub(crate) fn show_marked(rt: &HostRuntime, before: &[u8], bytes: &[u8]) {
    let digits = b"0123456789abcdef";
    show(rt, before);
    for byte in bytes {
        if *byte < 32 || 127 <= *byte || *byte == b'<' || *byte == b'>' {
            let high = digits[(*byte / 16) as usize];
            let low = digits[(*byte % 16) as usize];
            show(rt, &[b'<', high, low, b'>']);
        } else {
            show_byte(rt, *byte);
        }
    }
}

/// Shows a blank and the word; of a long one dots.
pub(crate) fn show_short(rt: &HostRuntime, word: &[u8]) {
    show_word(rt, if word.len() > 4_000 { b"..." } else { word });
}

/// Shows a blank and the word, of each.
pub(crate) fn show_words(rt: &HostRuntime, words: &Words) {
    for word in words.as_slice() {
        show_word(rt, word.as_slice());
    }
}

/// Shows what stands before the numbers, and a blank and the number, of each.
pub(crate) fn show_numbers(rt: &HostRuntime, before: &[u8], numbers: &[u64]) {
    show(rt, before);
    for number in numbers {
        show_count(rt, *number);
    }
}
