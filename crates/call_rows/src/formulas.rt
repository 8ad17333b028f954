//! What clauses come to, with a log, the steps of a resolver, or the variables and the conflicts of a search behind them.

ghost use Rattle.std.specs.Prelude.{◌≤◌, length};

use crate::checks::{show_checked, show_clause, show_derived, show_resolved};
use crate::row_parts::clauses_of;
use crate::searches::show_searched;
use proof_check::Clauses;
use std::rt::HostRuntime;
use std::str;
use text_rows::row_text::{show, split_at};

/// How many clauses and chains a row has at most.
pub(crate) const MANY: usize = 1_000_000;

/// Shows what clauses come to, with what more stands behind them.
fn show_kind(rt: &HostRuntime, kind: &str, clauses: &Clauses, more: &[u8])
    requires { length clauses.now ≤ 1000000 }
{
    match kind {
        "log" => show_checked(rt, clauses, more),
        "chains" => show_derived(rt, clauses, more),
        "resolve" => show_resolved(rt, clauses, more),
        "search" => show_searched(rt, clauses, more, false),
        "solve" => show_searched(rt, clauses, more, true),
        _ => show(rt, b"no kind"),
    }
}

fn show_formula(rt: &HostRuntime, kind: &str, formula: &[u8], more: &[u8]) {
    if kind == "clause" {
        return show_clause(rt, formula);
    }
    let clauses = clauses_of(rt, formula);
    if clauses.len() > MANY {
        show(rt, b"too many");
    } else {
        show_kind(rt, kind, &clauses, more);
    }
}

/// Shows what the row comes to.
pub(crate) fn show_row(rt: &HostRuntime, row: &[u8]) {
    let (kind, named) = split_at(b';', row);
    let (name, about) = split_at(b';', named);
    let (formula, more) = split_at(b';', about);
    show(rt, name);
    show(rt, b": ");
    show_formula(rt, str::from_utf8(kind).unwrap_or(""), formula, more);
    show(rt, b"\n");
}
