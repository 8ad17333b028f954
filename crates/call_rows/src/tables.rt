//! Tables of names and of pairs.

use crate::words::show_counts;
use base_tables::{NameTable, PlaceTable};
use sec_base::{Duplicate, Ids, Orders, Words};
use std::rt::HostRuntime;
use text_rows::row_text::{show, show_count, show_number, show_word, split_at};

/// Shows what a word tells: `+w` adds the name w, `=w` numbers it, and `?w` looks it up.
fn show_named(rt: &HostRuntime, table: &mut NameTable, word: &[u8]) {
    match word {
        [b'+', name @ ..] => match table.add(rt.alloc(), name) {
            Ok(true) => show(rt, b" new"),
            Ok(false) => show(rt, b" known"),
            Err(_) => show(rt, b" no-memory"),
        },
        [b'=', name @ ..] if table.len() < u32::MAX => match table.intern(rt.alloc(), name) {
            Ok(id) => show_count(rt, id as u64),
            Err(_) => show(rt, b" no-memory"),
        },
        [b'?', name @ ..] => {
            match table.find(name) {
                Some(id) => show_count(rt, id as u64),
                None => show(rt, b" none"),
            }
            if table.has(name) {
                show(rt, b" held");
            }
        }
        _ => show(rt, b" ?"),
    }
}

fn show_words(rt: &HostRuntime, words: &Words) {
    for word in words.as_slice() {
        show_word(rt, word.as_slice());
    }
}

/// Shows the names in their order, and those of a copy.
fn show_all_names(rt: &HostRuntime, table: &NameTable) {
    show(rt, b", names");
    for id in 0..table.len() {
        show_word(rt, table.name(id));
    }
    show(rt, b", copied");
    match table.copy(rt.alloc()) {
        Ok(copy) => match copy.into_words(rt.alloc()) {
            Ok(words) => show_words(rt, &words),
            Err(_) => show(rt, b" no-memory"),
        },
        Err(_) => show(rt, b" no-memory"),
    }
}

/// Shows what each word tells of a table of names, and then the names.
pub(crate) fn show_names(rt: &HostRuntime, words: &[u8]) {
    let mut table = NameTable::new(rt.alloc());
    let mut rest = words;
    for _ in 0..words.len() {
        let (word, later) = split_at(b' ', rest);
        if !word.is_empty() {
            show_named(rt, &mut table, word);
        }
        rest = later;
    }
    show_all_names(rt, &table);
}

/// Shows the pairs in their order, and a copy of the lists of their first and their second numbers. A number that isn't kept is missing
/// there.
fn show_pairs(rt: &HostRuntime, table: &PlaceTable) {
    let mut lists = Orders {
        left: Ids::new(rt.alloc()),
        right: Ids::new(rt.alloc()),
    };
    show(rt, b", pairs");
    for number in 0..table.len() {
        let (first, second) = table.pair(number);
        show_count(rt, first as u64);
        show_number(rt, second as u64);
        let _ = lists.left.push(first);
        let _ = lists.right.push(second);
    }
    show(rt, b", copied");
    match lists.duplicate(rt.alloc()) {
        Ok(copy) => {
            show_counts(rt, copy.left.as_slice());
            show(rt, b" and");
            show_counts(rt, copy.right.as_slice());
        }
        Err(_) => show(rt, b" no-memory"),
    }
}

/// Shows the number of the pair of digits.
fn show_pair_number(rt: &HostRuntime, table: &mut PlaceTable, word: &[u8]) {
    if let [first, second] = word {
        if table.len() < u32::MAX {
            match table.intern(*first as u32 % 16, *second as u32 % 16) {
                Ok(number) => show_count(rt, number as u64),
                Err(_) => show(rt, b" no-memory"),
            }
        }
    }
}

/// Shows the number of each pair, then the pairs, and then a copy of the lists of their numbers.
pub(crate) fn show_places(rt: &HostRuntime, words: &[u8]) {
    let mut table = PlaceTable::new(rt.alloc());
    let mut rest = words;
    for _ in 0..words.len() {
        let (word, later) = split_at(b' ', rest);
        rest = later;
        show_pair_number(rt, &mut table, word);
    }
    show_pairs(rt, &table);
}
