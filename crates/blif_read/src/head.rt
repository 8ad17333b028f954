//! What a line begins with, and what is looked at before a word's own rules.

ghost use Rattle.std.specs.Prelude.{◌≡◌, ◌&&◌, not, map, bytes_eq};
ghost use Rattle.std.specs.List.{list_any};
ghost use Rattle.blif_read.specs.Heads.{head_of, dot_head, begins_with_dot, count_fits, unsupported_words};
ghost use Rattle.base_tables.specs.Table.{is_among};
ghost use Rattle.blif_read.specs.Fault.{is_control, is_long, is_model_head, gate};

use crate::blif_lines::MAX_NAME_BYTES;
use crate::error::ReadKind;

/// What the first token of a line says the line is.
#[derive(Clone, Copy)]
pub enum Head {
    Model,
    Inputs,
    Outputs,
    Clock,
    Names,
    Latch,
    Subckt,
    End,
    /// The first token does not begin with a dot: a row of a cover.
    Row,
    /// A word of the format that this reader refuses by name.
    Unsupported,
    /// A first token that begins with a dot and is no word of the format.
    Unknown,
}

static UNSUPPORTED: [&[u8]; 23] = [
    b".gate",
    b".mlatch",
    b".search",
    b".exdc",
    b".start_kiss",
    b".end_kiss",
    b".latch_order",
    b".code",
    b".cycle",
    b".clock_event",
    b".area",
    b".delay",
    b".wire_load_slope",
    b".wire",
    b".input_arrival",
    b".default_input_arrival",
    b".output_required",
    b".default_output_required",
    b".input_drive",
    b".default_input_drive",
    b".output_load",
    b".default_output_load",
    b".blackbox",
];

/// Whether one of the words is this word.
pub(crate) fn is_among(words: &[&[u8]], word: &[u8]) -> bool
    ensures { result ≡ list_any (λ w. bytes_eq word.now w.now) words.now }
{
    for w in words {
        if word == *w {
            return true;
        }
    }
    false
}

fn is_unsupported(word: &[u8]) -> bool
    ensures { result ≡ is_among unsupported_words word.now }
{
    is_among(&UNSUPPORTED, word)
}

fn begins_with_dot(word: &[u8]) -> bool
    ensures { result ≡ begins_with_dot word.now }
{
    word.len() > 0 && word[0] == b'.'
}

/// What a first token with a dot says.
fn dot_head(word: &[u8]) -> Head
    ensures { result ≡ dot_head word.now }
{
    if word == b".model".as_slice() {
        Head::Model
    } else if word == b".inputs".as_slice() {
        Head::Inputs
    } else if word == b".outputs".as_slice() {
        Head::Outputs
    } else if word == b".clock".as_slice() {
        Head::Clock
    } else if word == b".names".as_slice() {
        Head::Names
    } else if word == b".latch".as_slice() {
        Head::Latch
    } else if word == b".subckt".as_slice() {
        Head::Subckt
    } else if word == b".end".as_slice() {
        Head::End
    } else if is_unsupported(word) {
        Head::Unsupported
    } else {
        Head::Unknown
    }
}

/// What a line's first token says the line is.
#[tactic(auto, unfolding(crate::specs::Heads::head_of))]
pub(crate) fn head_of(word: &[u8]) -> Head
    ensures { result ≡ head_of word.now }
{
    if begins_with_dot(word) {
        dot_head(word)
    } else {
        Head::Row
    }
}

/// Whether so many tokens may follow the word.
fn count_fits(head: Head, count: usize) -> bool
    ensures { result ≡ count_fits head count }
{
    match head {
        Head::Model => count == 1,
        Head::Names | Head::Subckt => 1 <= count,
        Head::Latch => 2 <= count && count <= 5,
        Head::End => count == 0,
        _ => true,
    }
}

/// Whether the word wants a model where none is open.
fn lacks_model(none: bool, head: Head) -> bool
    ensures { result ≡ none && not (is_model_head head) }
{
    match head {
        Head::Model => false,
        _ => none,
    }
}

fn is_control(byte: u8) -> bool
    ensures { result ≡ is_control byte }
{
    byte < 32 || byte == 127
}

fn has_control(token: &[u8]) -> bool
    ensures { result ≡ list_any is_control token.now }
{
    for byte in token {
        if is_control(*byte) {
            return true;
        }
    }
    false
}

/// Whether a byte of the tokens may not stand outside comments.
pub(crate) fn any_control(tokens: &[&[u8]]) -> bool
    ensures { result ≡ list_any (λ t. list_any is_control t.now) tokens.now }
{
    for token in tokens {
        if has_control(token) {
            return true;
        }
    }
    false
}

fn is_long(name: &[u8]) -> bool
    ensures { result ≡ is_long name.now }
{
    name.len() > MAX_NAME_BYTES
}

fn any_long(names: &[&[u8]]) -> bool
    ensures { result ≡ list_any (λ n. is_long n.now) names.now }
{
    for name in names {
        if is_long(name) {
            return true;
        }
    }
    false
}

/// What is wrong with a word line before its word's own rules are looked at: no model is open, the
/// number of names does not fit, or a name is too long.
#[tactic(auto, using(crate::proofs::Behind::any_behind, crate::proofs::Behind::length_behind))]
pub(crate) fn gate(none: bool, head: Head, args: &[&[u8]]) -> Option<ReadKind>
    ensures { result ≡ gate none head (map (λ a. a.now) args.now) }
{
    if lacks_model(none, head) {
        return Some(ReadKind::NoModel);
    }
    if !count_fits(head, args.len()) {
        return Some(ReadKind::BadCount);
    }
    if any_long(args) {
        return Some(ReadKind::NameTooLong);
    }
    None
}
