//! Faults of designs, in words.

use crate::pieces::{show_short, show_words};
use crate::row_text::show;
use flatten::FlatError;
use sec_base::Word;
use std::rt::HostRuntime;

/// Shows the kind and the name.
fn show_named(rt: &HostRuntime, kind: &[u8], name: &Word) {
    show(rt, kind);
    show_short(rt, name.as_slice());
}

fn show_told(rt: &HostRuntime, error: &FlatError) {
    match error {
        FlatError::UnknownModel(name) => show_named(rt, b" UnknownModel", name),
        FlatError::Recursive(name) => show_named(rt, b" Recursive", name),
        FlatError::UnknownFormal(name) => show_named(rt, b" UnknownFormal", name),
        FlatError::FormalTwice(name) => show_named(rt, b" FormalTwice", name),
        FlatError::OpenInput(name) => show_named(rt, b" OpenInput", name),
        FlatError::TwoDrivers(name) => show_named(rt, b" TwoDrivers", name),
        FlatError::Undriven(name) => show_named(rt, b" Undriven", name),
        FlatError::TwoClocks(name) => show_named(rt, b" TwoClocks", name),
        FlatError::TwoEdges(name) => show_named(rt, b" TwoEdges", name),
        FlatError::GatedClock(name) => show_named(rt, b" GatedClock", name),
        FlatError::ClockRead(name) => show_named(rt, b" ClockRead", name),
        FlatError::TooDeep(name) => show_named(rt, b" TooDeep", name),
        FlatError::Loop(names) => {
            show(rt, b" Loop");
            show_words(rt, names);
        }
        FlatError::TooMany => show(rt, b" TooMany"),
        FlatError::LongName => show(rt, b" LongName"),
        FlatError::NoMemory => show(rt, b" NoMemory"),
    }
}

/// Shows the fault, and the names that it tells, and lets it go: who meets a fault doesn't take it apart.
pub(crate) fn show_fault(rt: &HostRuntime, error: FlatError) {
    show_told(rt, &error);
}
