//! Rows of a file, and what stands in them.

use crate::row_text::telling::Telling;
use sec_base::NoMemory;
use std::alloc::Global;

/// The parts of the bytes before and behind the first such byte; all and none where there is none.
pub fn split_at(mark: u8, bytes: &[u8]) -> (&[u8], &[u8]) {
    for place in 0..bytes.len() {
        if bytes[place] == mark {
            return (&bytes[..place], &bytes[place + 1..]);
        }
    }
    (bytes, &[])
}

/// The words of the text, which blanks part.
pub fn words_of(alloc: Global, text: &[u8]) -> Result<Vec<&[u8]>, NoMemory> {
    let mut words = Vec::new(alloc);
    let mut rest = text;
    for _ in 0..text.len() {
        let (word, later) = split_at(b' ', rest);
        if !word.is_empty() {
            words.push(word)?;
        }
        rest = later;
    }
    Ok(words)
}

/// The number that decimal digits spell.
pub fn number_of(digits: &[u8]) -> Option<u64> {
    if digits.is_empty() {
        return None;
    }
    let mut number: u64 = 0;
    for digit in digits {
        if !digit.is_ascii_digit() {
            return None;
        }
        number = number
            .checked_mul(10)?
            .checked_add(u64::from(*digit - b'0'))?;
    }
    Some(number)
}

fn digit_value(digit: u8) -> u8 {
    match digit {
        b'0'..=b'9' => digit - b'0',
        b'a'..=b'f' => digit - b'a' + 10,
        _ => 0,
    }
}

/// Puts what a mark stands for.
fn put_mark(text: &mut Telling, mark: u8, long: &[u8]) {
    match mark {
        b'|' => text.put_byte(b'\n'),
        b'@' => text.put(long),
        b'~' => put_feeds(text),
        other => text.put_byte(other),
    }
}

fn put_feeds(text: &mut Telling) {
    for _ in 0..16 {
        text.put(&[b'\n'; 4_096]);
    }
}

/// The text that these marks stand for: `|` is a line feed, `@` the long name, `~` 65,536 line feeds, and `<` with two digits and
/// `>` a byte by its hexadecimal digits.
pub fn text_of(alloc: Global, marks: &[u8], long: &[u8]) -> Telling {
    let mut text = Telling::new(alloc);
    let mut rest = marks;
    for _ in 0..marks.len() {
        match rest {
            [b'<', high, low, b'>', others @ ..] => {
                text.put_byte(digit_value(*high) % 16 * 16 + digit_value(*low) % 16);
                rest = others;
            }
            [mark, others @ ..] => {
                put_mark(&mut text, *mark, long);
                rest = others;
            }
            [] => break,
        }
    }
    text
}
