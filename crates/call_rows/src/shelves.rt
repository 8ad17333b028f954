//! Shelves and sinks in memory, and real files.

use crate::words::size_of;
use base_shelves::{FetchError, FileShelf, MemShelf, MemSink, Shelf, Sink, fetch};
use sec_base::{Duplicate, FilePath, FileText, Ids};
use std::rt::HostRuntime;
use std::str;
use text_rows::row_text::{show, show_count, split_at};

/// A copy of the path that these bytes spell.
fn path_of(rt: &HostRuntime, bytes: &[u8]) -> Option<FilePath> {
    match FilePath::from_str(rt.alloc(), str::from_utf8(bytes).unwrap_or("?")) {
        Ok(path) => path.duplicate(rt.alloc()).ok(),
        Err(_) => None,
    }
}

fn show_fetched(rt: &HostRuntime, fetched: &Result<FileText, FetchError>) {
    match fetched {
        Ok(text) => show_count(rt, text.len() as u64),
        Err(FetchError::Failed) => show(rt, b" failed"),
        Err(FetchError::TooLong) => show(rt, b" too-long"),
        Err(FetchError::NoMemory) => show(rt, b" no-memory"),
    }
}

/// Shows what the shelf gives for a word `w<n`; nothing of another word.
fn show_fetch<S: Shelf>(rt: &HostRuntime, shelf: &mut S, word: &[u8]) {
    let (name, limit) = split_at(b'<', word);
    if limit.is_empty() {
        return;
    }
    match path_of(rt, name) {
        Some(path) => show_fetched(rt, &fetch(rt.alloc(), shelf, path.as_str(), size_of(limit))),
        None => show(rt, b" no-memory"),
    }
}

/// Puts the file of a word `w=n` on the shelf: n bytes; nothing of another word.
fn put_file(rt: &HostRuntime, shelf: &mut MemShelf, word: &[u8]) {
    let (name, size) = split_at(b'=', word);
    if size.is_empty() {
        return;
    }
    let Ok(bytes) = vec![in rt.alloc(); 7u8; size_of(size) as usize] else {
        return show(rt, b" not-put");
    };
    let path = str::from_utf8(name).unwrap_or("?");
    if shelf.put(rt.alloc(), path, bytes.as_slice()).is_err() {
        show(rt, b" not-put");
    }
}

/// The reads that the words `!n` have fail.
fn fails_of(rt: &HostRuntime, words: &[u8]) -> Ids {
    let mut fails = Ids::new(rt.alloc());
    let mut rest = words;
    for _ in 0..words.len() {
        let (word, later) = split_at(b' ', rest);
        rest = later;
        if let [b'!', digits @ ..] = word {
            let _ = fails.push(size_of(digits));
        }
    }
    fails
}

/// Shows what the shelf of these words gives.
pub(crate) fn show_shelf(rt: &HostRuntime, words: &[u8]) {
    let mut shelf = MemShelf::new(rt.alloc(), fails_of(rt, words));
    let mut rest = words;
    for _ in 0..words.len() {
        let (word, later) = split_at(b' ', rest);
        rest = later;
        if let [b'~', digits @ ..] = word {
            let most = size_of(digits);
            if most > 0 {
                shelf.set_most(most);
            }
        }
        put_file(rt, &mut shelf, word);
        show_fetch(rt, &mut shelf, word);
    }
}

/// Shows what the real files of these words give.
pub(crate) fn show_files(rt: &HostRuntime, words: &[u8]) {
    let mut shelf = FileShelf::new(rt);
    let mut rest = words;
    for _ in 0..words.len() {
        let (word, later) = split_at(b' ', rest);
        show_fetch(rt, &mut shelf, word);
        rest = later;
    }
}

/// Shows what a sink of these words takes, and whether it fails.
pub(crate) fn show_sink(rt: &HostRuntime, words: &[u8]) {
    let (room, words) = split_at(b' ', words);
    let (fail_at, words) = split_at(b' ', words);
    let (keep, piece) = split_at(b' ', words);
    let (room, keep) = (size_of(room) as usize, size_of(keep) as usize);
    let fail_at = match size_of(fail_at) {
        0 => None,
        number => Some(number),
    };
    let Ok(mut sink) = MemSink::new(rt.alloc(), room, fail_at, keep) else {
        return show(rt, b" no memory");
    };
    let is_written = sink.write(piece).is_ok();
    show(rt, b" takes ");
    show(rt, sink.taken());
    if !is_written {
        show(rt, b" and fails");
    }
}
