//! Numbers, clauses and faults, in words.

ghost use Rattle.std.specs.Prelude.{◌<◌};

use proof_check::{ChainKind, Literal, ProofError};
use std::rt::HostRuntime;
use text_rows::row_text::{number_of, show, show_count, show_number};

/// The number that the digits spell, below a million; 0 where they spell none.
pub(crate) fn size_of(digits: &[u8]) -> u32
    ensures { result < 1000000 }
{
    match number_of(digits) {
        Some(number) => (number % 1_000_000) as u32,
        None => 0,
    }
}

/// Shows a blank and the number, of each.
pub(crate) fn show_counts(rt: &HostRuntime, numbers: &[u32]) {
    for number in numbers {
        show_count(rt, *number as u64);
    }
}

/// Shows a clause as in DIMACS.
pub(crate) fn show_literals(rt: &HostRuntime, literals: &[Literal]) {
    for literal in literals {
        if !literal.is_positive() {
            show(rt, b"-");
        }
        show_number(rt, literal.variable() as u64);
        show(rt, b" ");
    }
    show(rt, b"0");
}

/// Shows a number, and what is counted.
pub(crate) fn show_counted(rt: &HostRuntime, number: usize, what: &[u8]) {
    show_number(rt, number as u64);
    show(rt, what);
}

/// Shows where a log breaks, and why.
pub(crate) fn show_error(rt: &HostRuntime, error: ProofError) {
    let ProofError::Chain { at, kind } = error else {
        return show(rt, b"no memory");
    };
    show(rt, b"broken at ");
    show_number(rt, at as u64);
    match kind {
        ChainKind::NoClause => show(rt, b", no such clause"),
        ChainKind::NoPivot => show(rt, b", no such pivot"),
        ChainKind::Tautology => show(rt, b", a tautology"),
        ChainKind::NotEmpty => show(rt, b", no empty clause"),
    }
}
