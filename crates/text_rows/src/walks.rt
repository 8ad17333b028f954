//! Walks over designs, and the faults of their drivers and clocks.

use crate::faults::show_fault;
use crate::row_text::show;
use blif_read::Design;
use elaborate::{Flat, FlatKind, walk};
use flatten::connectivity::wire;
use std::rt::HostRuntime;

/// Shows the kind of each flat statement, and the signal that it drives.
fn show_statements(rt: &HostRuntime, flat: &Flat) {
    show(rt, b" ");
    for statement in flat.statements.as_slice() {
        match statement.kind {
            FlatKind::Gate { .. } => show(rt, b"g "),
            FlatKind::Latch { .. } => show(rt, b"l "),
            FlatKind::Port => show(rt, b"p "),
        }
        if statement.out < flat.names.len() {
            show(rt, flat.name(statement.out));
        }
        show(rt, b",");
    }
}

/// Shows the fault of the walk's drivers and clocks.
fn show_wire_fault(rt: &HostRuntime, flat: &Flat) {
    match wire(rt.alloc(), flat) {
        Ok(_) => show(rt, b" none"),
        Err(error) => show_fault(rt, error),
    }
}

/// Shows the signals that the flat statements drive, or with `wires` the fault of drivers and clocks; or the walk's fault.
pub(crate) fn show_walk(rt: &HostRuntime, design: &Design, wires: bool) {
    match walk(rt.alloc(), design) {
        Ok(flat) => {
            if wires {
                show_wire_fault(rt, &flat);
            } else {
                show_statements(rt, &flat);
            }
        }
        Err(error) => show_fault(rt, error),
    }
}
