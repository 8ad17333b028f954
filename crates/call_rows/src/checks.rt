//! Rows on clauses, on logs and on resolution.

ghost use Rattle.std.specs.Prelude.{◌≤◌, length};

use crate::formulas::MANY;
use crate::row_parts::{literals_of, log_of};
use crate::words::{show_counted, show_error, show_literals, size_of};
use proof_check::{Clause, ClauseError, Clauses, Log, Outcome, Resolver, check_chains, check_log};
use sec_base::Duplicate;
use std::rt::HostRuntime;
use text_rows::row_text::{number_of, show, split_at};

fn show_copy(rt: &HostRuntime, clause: &Clause) {
    match clause.copy() {
        Ok(copy) => {
            show_literals(rt, copy.as_slice());
            show(rt, b", ");
            show_counted(rt, copy.len(), b" literals");
        }
        Err(_) => show(rt, b"no memory"),
    }
}

/// Shows the clause of literals, by an equal one, with its length.
pub(crate) fn show_clause(rt: &HostRuntime, text: &[u8]) {
    match Clause::new(rt.alloc(), &literals_of(rt, text)) {
        Ok(clause) => show_copy(rt, &clause),
        Err(ClauseError::Tautology) => show(rt, b"a tautology"),
        Err(ClauseError::NoMemory) => show(rt, b"no memory"),
    }
}

/// Shows what the checker says of a log that is to be a refutation.
pub(crate) fn show_checked(rt: &HostRuntime, clauses: &Clauses, text: &[u8])
    requires { length clauses.now ≤ 1000000 }
{
    let log = log_of(rt, text);
    if log.len() > MANY {
        return show(rt, b"too many");
    }
    match check_log(rt.alloc(), clauses, &log) {
        Ok(checked) => show_counted(rt, checked.chains as usize, b" chains hold"),
        Err(error) => show_error(rt, error),
    }
}

fn show_clauses(rt: &HostRuntime, clauses: &[Clause]) {
    show_counted(rt, clauses.len(), b" derived");
    for clause in clauses {
        show(rt, b", ");
        show_literals(rt, clause.as_slice());
    }
}

/// Shows the clauses that the log derives from a copy of the clauses.
fn show_chains(rt: &HostRuntime, clauses: &Clauses, log: &Log)
    requires { length clauses.now ≤ 1000000 }
{
    if log.len() > MANY {
        return show(rt, b"too many");
    }
    match clauses.duplicate(rt.alloc()) {
        Ok(copy) => match check_chains(rt.alloc(), &copy, log) {
            Ok(derived) => show_clauses(rt, derived.as_slice()),
            Err(error) => show_error(rt, error),
        },
        Err(_) => show(rt, b"no memory"),
    }
}

/// Shows the clauses that a log derives, read from copies of the clauses and of the log.
pub(crate) fn show_derived(rt: &HostRuntime, clauses: &Clauses, text: &[u8])
    requires { length clauses.now ≤ 1000000 }
{
    match log_of(rt, text).duplicate(rt.alloc()) {
        Ok(log) => show_chains(rt, clauses, &log),
        Err(_) => show(rt, b"no memory"),
    }
}

fn show_step(rt: &HostRuntime, resolver: &mut Resolver, other: &Clause, pivot: u32) {
    match resolver.resolve(other.as_slice(), pivot) {
        Ok(Outcome::Derived) => show(rt, b"derived, "),
        Ok(Outcome::NoPivot) => show(rt, b"no such pivot, "),
        Ok(Outcome::Clashes) => show(rt, b"a tautology, "),
        Err(_) => show(rt, b"no memory"),
    }
}

/// Shows what a resolver makes of the first clause, by pairs of a pivot and a clause's number.
pub(crate) fn show_resolved(rt: &HostRuntime, clauses: &Clauses, pairs: &[u8]) {
    let mut resolver = Resolver::new(rt.alloc());
    if let Some(first) = clauses.as_slice().first() {
        if resolver.start(first.as_slice()).is_err() {
            show(rt, b"no memory");
        }
    }
    let mut rest = pairs;
    for _ in 0..pairs.len() {
        let (pivot, behind) = split_at(b' ', rest);
        let (number, later) = split_at(b' ', behind);
        rest = later;
        let place = number_of(number).unwrap_or(u64::MAX);
        if let Some(other) = clauses.as_slice().get(place as usize) {
            show_step(rt, &mut resolver, other, size_of(pivot));
        }
    }
    match resolver.clause() {
        Ok(clause) => show_literals(rt, clause.as_slice()),
        Err(_) => show(rt, b"no memory"),
    }
}
