//! Rows on the search. What it finds is checked here once more: a model against each clause, and a
//! log by the checker.

ghost use Rattle.std.specs.Prelude.{◌≤◌, length};

use crate::formulas::MANY;
use crate::words::{show_counted, size_of};
use proof_check::{Clauses, Log, check_chains, check_log};
use sat_search::{Found, in_range, search};
use sec_base::Bits;
use std::rt::HostRuntime;
use text_rows::row_text::{show, show_bit, split_at};

/// Whether a literal of each clause is true.
fn are_met(bits: &[bool], clauses: &Clauses) -> bool {
    for clause in clauses.as_slice() {
        let mut is_met = false;
        for literal in clause.as_slice() {
            if let Some(bit) = bits.get((literal.variable() - 1) as usize) {
                is_met |= *bit == literal.is_positive();
            }
        }
        if !is_met {
            return false;
        }
    }
    true
}

/// Shows a model, and whether it meets the clauses.
fn show_model(rt: &HostRuntime, clauses: &Clauses, bits: &Bits, is_brief: bool) -> bool {
    show(rt, b"model");
    if !is_brief {
        show(rt, b" ");
        for bit in bits.as_slice() {
            show_bit(rt, *bit);
        }
    }
    are_met(bits.as_slice(), clauses)
}

/// Shows a word, and where it isn't brief the number of chains.
fn show_chains(rt: &HostRuntime, word: &[u8], log: &Log, is_brief: bool) {
    show(rt, word);
    if !is_brief {
        show(rt, b", ");
        show_counted(rt, log.len(), b" chains");
    }
}

/// Shows what is found, in a word where it is brief, and else with the bits of a model or the number of chains. What a brief limit
/// derives isn't looked at.
fn show_found(rt: &HostRuntime, clauses: &Clauses, found: &Found, is_brief: bool)
    requires { length clauses.now ≤ 1000000 }
{
    let holds = match found {
        Found::Model(bits) => show_model(rt, clauses, bits, is_brief),
        Found::Refuted(log) => {
            show_chains(rt, b"refuted", log, is_brief);
            log.len() <= MANY && check_log(rt.alloc(), clauses, log).is_ok()
        }
        Found::Limit(log) => {
            show_chains(rt, b"limit", log, is_brief);
            if is_brief {
                return;
            }
            log.len() <= MANY && check_chains(rt.alloc(), clauses, log).is_ok()
        }
    };
    show(
        rt,
        if holds {
            b", holds".as_slice()
        } else {
            b", doesn't hold"
        },
    );
}

/// Shows what a search of so many variables, the first number, finds with at most so many conflicts as the second one says.
pub(crate) fn show_searched(rt: &HostRuntime, clauses: &Clauses, numbers: &[u8], is_brief: bool)
    requires { length clauses.now ≤ 1000000 }
{
    let (variables, conflicts) = split_at(b' ', numbers);
    let variables = size_of(variables);
    if !in_range(clauses, variables) {
        return show(rt, b"out of range");
    }
    match search(rt.alloc(), clauses, variables, size_of(conflicts)) {
        Ok(found) => show_found(rt, clauses, &found, is_brief),
        Err(_) => show(rt, b"no memory"),
    }
}
