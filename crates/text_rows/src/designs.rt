//! What a text in BLIF spells, in words.

use crate::pieces::show_marked;
use crate::row_text::{show, show_count, show_number, show_word};
use blif_read::{BlifModel, ReadError, ReadKind, Statement};
use sec_base::{Cover, Edge, Init, Word, Words};
use std::rt::HostRuntime;

/// Shows what stands before the names, and a blank and the name, of each.
fn show_names(rt: &HostRuntime, before: &[u8], names: &Words) {
    show(rt, before);
    for name in names.as_slice() {
        show_marked(rt, b" ", name.as_slice());
    }
}

fn show_cover(rt: &HostRuntime, cover: &Cover) {
    show_count(rt, cover.width() as u64);
    show(
        rt,
        if cover.on() {
            b" on".as_slice()
        } else {
            b" off"
        },
    );
    for row in cover.rows() {
        let places = row.as_slice();
        show_word(rt, if places.is_empty() { b"-" } else { places });
    }
}

/// Shows the clock's edge and the clock, where there are any, and the initial value.
fn show_start(rt: &HostRuntime, edge: &Option<Edge>, control: &Option<Word>, init: &Init) {
    match edge {
        Some(Edge::Rising) => show(rt, b" rising"),
        Some(Edge::Falling) => show(rt, b" falling"),
        None => {}
    }
    if let Some(clock) = control {
        show_marked(rt, b" ", clock.as_slice());
    }
    match init {
        Init::Zero => show(rt, b" zero"),
        Init::One => show(rt, b" one"),
        Init::DontCare => show(rt, b" either"),
        Init::Unknown => show(rt, b" unknown"),
    }
}

/// Shows the statement with the number of its line.
fn show_statement(rt: &HostRuntime, statement: &Statement) {
    match statement {
        Statement::Names {
            line,
            fanins,
            out,
            cover,
        } => {
            show(rt, b" names@");
            show_number(rt, *line as u64);
            show_names(rt, b"", fanins);
            show_marked(rt, b" ", out.as_slice());
            show_cover(rt, cover);
        }
        Statement::Latch {
            line,
            input,
            output,
            edge,
            control,
            init,
        } => {
            show(rt, b" latch@");
            show_number(rt, *line as u64);
            show_marked(rt, b" ", input.as_slice());
            show_marked(rt, b" ", output.as_slice());
            show_start(rt, edge, control, init);
        }
        Statement::Subckt { line, model, pairs } => {
            show(rt, b" subckt@");
            show_number(rt, *line as u64);
            show_marked(rt, b" ", model.as_slice());
            for pair in pairs.as_slice() {
                show_marked(rt, b" ", pair.formal.as_slice());
                show_marked(rt, b" = ", pair.actual.as_slice());
            }
        }
    }
}

/// Shows the models of a design.
pub(crate) fn show_models(rt: &HostRuntime, models: &[BlifModel]) {
    for model in models {
        show_marked(rt, b" model ", model.name.as_slice());
        show_names(rt, b" inputs", &model.inputs);
        show_names(rt, b" outputs", &model.outputs);
        if model.clocks.len() > 0 {
            show_names(rt, b" clocks", &model.clocks);
        }
        for statement in model.statements.as_slice() {
            show_statement(rt, statement);
        }
    }
}

/// Shows the fault of a text.
pub(crate) fn show_error(rt: &HostRuntime, error: &ReadError) {
    let ReadError::At { line, kind } = error else {
        return show(rt, b" no-memory");
    };
    show_count(rt, *line as u64);
    let word: &[u8] = match kind {
        ReadKind::Unsupported(_) => b"Unsupported",
        ReadKind::UnknownWord => b"UnknownWord",
        ReadKind::NoModel => b"NoModel",
        ReadKind::BadCount => b"BadCount",
        ReadKind::BadRow => b"BadRow",
        ReadKind::MixedCover => b"MixedCover",
        ReadKind::BadLatchType => b"BadLatchType",
        ReadKind::BadInit => b"BadInit",
        ReadKind::BadPair => b"BadPair",
        ReadKind::DuplicateModel => b"DuplicateModel",
        ReadKind::DuplicatePort => b"DuplicatePort",
        ReadKind::NameTooLong => b"NameTooLong",
        ReadKind::StrayRow => b"StrayRow",
        ReadKind::ControlByte => b"ControlByte",
    };
    show_word(rt, word);
    if let ReadKind::Unsupported(found) = kind {
        show_marked(rt, b" ", found.as_slice());
    }
}
