//! What a row gives a run: its words, and files in memory that are made of those of the folder.

use crate::row_text::pieces::{file_of, show};
use crate::row_text::rows::{number_of, split_at};
use crate::row_text::telling::Telling;
use base_shelves::MemShelf;
use sec_base::{Ids, NoMemory};
use std::alloc::Global;
use std::rt::HostRuntime;
use std::str;

/// The paths of a row's files, in their order.
const PATHS: [&str; 4] = ["a", "b", "s", "c"];

/// The words of the line, parted by blanks, of which `''` is the empty one. Writes `lost` for each that isn't kept.
pub fn run_words(rt: &HostRuntime, line: &[u8]) -> Vec<String> {
    let mut words = Vec::new(rt.alloc());
    let mut rest = line;
    for _ in 0..line.len() {
        let (word, later) = split_at(b' ', rest);
        if !word.is_empty() && put_word(rt.alloc(), &mut words, word).is_err() {
            show(rt, b"lost\n");
        }
        rest = later;
    }
    words
}

fn put_word(alloc: Global, words: &mut Vec<String>, word: &[u8]) -> Result<(), NoMemory> {
    let word = match word {
        [b'\'', b'\''] => "",
        spelled => str::from_utf8(spelled).unwrap_or(""),
    };
    words.push(String::from_str(alloc, word)?)?;
    Ok(())
}

/// A shelf with the files that the words tell, under the paths `a`, `b`, `s` and `c`; the read of this number fails, and none where it is
/// 0. A file is told by parts with `+` between them, each a file of the folder, or FILE*N for N times the file, or FILE:N for its first N
/// bytes, or `-` for nothing. Writes `lost` for what isn't there.
pub fn shelf_of(rt: &HostRuntime, files: &[u8], fails: u32) -> MemShelf {
    let mut numbers = Ids::new(rt.alloc());
    if numbers.push(fails).is_err() {
        show(rt, b"lost\n");
    }
    let mut shelf = MemShelf::new(rt.alloc(), numbers);
    let mut place: usize = 0;
    let mut rest = files;
    for _ in 0..files.len() {
        let (file, later) = split_at(b' ', rest);
        if !file.is_empty() {
            put_file(rt, &mut shelf, PATHS.get(place), file);
            place = place.saturating_add(1);
        }
        rest = later;
    }
    shelf
}

/// Puts the text that is told under the path: its parts, one behind the other.
fn put_file(rt: &HostRuntime, shelf: &mut MemShelf, path: Option<&&str>, file: &[u8]) {
    let mut text = Telling::new(rt.alloc());
    let mut rest = file;
    for _ in 0..file.len() {
        let (part, later) = split_at(b'+', rest);
        put_part(rt, &mut text, part);
        rest = later;
    }
    let is_put = match path {
        Some(path) => text.is_whole && shelf.put(rt.alloc(), path, text.bytes()).is_ok(),
        None => false,
    };
    if !is_put {
        show(rt, b"lost\n");
    }
}

/// Puts the file so often, or so many bytes of it.
fn put_part(rt: &HostRuntime, text: &mut Telling, part: &[u8]) {
    if let [] | [b'-'] = part {
        return;
    }
    let (part, times) = split_at(b'*', part);
    let (path, most) = split_at(b':', part);
    let Some(file) = file_of(rt, str::from_utf8(path).unwrap_or("")) else {
        text.is_whole = false;
        return;
    };
    let most = number_of(most).unwrap_or(u64::MAX);
    let whole = file.as_slice();
    let front = whole.get(..most as usize).unwrap_or(whole);
    for _ in 0..number_of(times).unwrap_or(1) {
        text.put(front);
    }
}
