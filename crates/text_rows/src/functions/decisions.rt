//! Calls on a query, two sides and a care: tables, clauses and decisions.

ghost use Rattle.std.specs.Prelude.{◌*◌, ◌<◌, ◌≤◌, length, IfOk};
ghost use Rattle.pair_decide.specs.Queries.{IsQuery};

use crate::functions::calls::show_value_under;
use crate::row_text::{show, show_count, show_number};
use aig::lane_eval::table_differs;
use aig::{Aig, Lit};
use pair_decide::cnf_encode::{Cnf, encode};
use pair_decide::{Decision, Query, SameBy, decide};
use proof_check::Literal;
use sec_base::{Ids, NoMemory};
use std::alloc::Global;
use std::rt::HostRuntime;

/// The query of two sides and a care over all variables of the graph.
pub(crate) fn query_of(
    alloc: Global,
    graph: &Aig,
    left: Lit,
    right: Lit,
    care: Lit,
) -> Result<Query, NoMemory>
    requires left { left.0 < 2 * length graph.now }
    requires right { right.0 < 2 * length graph.now }
    requires care { care.0 < 2 * length graph.now }
    ensures { IfOk result (IsQuery graph.now) }
{
    let mut vars = Ids::new(alloc);
    for variable in 0..graph.vars() {
        vars.push(variable)?;
    }
    Ok(Query {
        left,
        right,
        care,
        vars,
    })
}

/// Shows the least assignment of all variables that tells the sides apart.
pub(crate) fn show_least(rt: &HostRuntime, graph: &Aig, query: &Query)
    requires { IsQuery graph.now query.now }
{
    if query.vars.len() > 16 {
        return show(rt, b" not a row");
    }
    let (left, right) = (query.left, query.right);
    match table_differs(rt.alloc(), graph, left, right, query.care, &query.vars) {
        Ok(Some(number)) => show_count(rt, number as u64),
        Ok(None) => show(rt, b" none"),
        Err(_) => show(rt, b" no memory"),
    }
}

/// Shows the literals of a clause.
fn show_clause(rt: &HostRuntime, literals: &[Literal]) {
    show(rt, b" (");
    for literal in literals {
        show(rt, if literal.is_positive() { b" " } else { b" -" });
        show_number(rt, literal.variable() as u64);
    }
    show(rt, b" )");
}

fn show_cnf(rt: &HostRuntime, cnf: &Cnf) {
    show_count(rt, cnf.variables as u64);
    show(rt, b" variables of");
    for node in cnf.nodes.as_slice() {
        show_count(rt, *node as u64);
    }
    for clause in cnf.clauses.as_slice() {
        show_clause(rt, clause.as_slice());
    }
}

/// Shows the nodes and the clauses of the query.
pub(crate) fn show_clauses(rt: &HostRuntime, graph: &Aig, query: &Query)
    requires { IsQuery graph.now query.now }
{
    let (left, right) = (query.left, query.right);
    match encode(rt.alloc(), graph, left, right, query.care) {
        Ok(cnf) => show_cnf(rt, &cnf),
        Err(_) => show(rt, b" no memory"),
    }
}

/// Shows the bits of a difference, where they are few, and the values of both sides and of the care under them.
fn show_difference(rt: &HostRuntime, graph: &Aig, query: &Query, bits: &[bool])
    requires { IsQuery graph.now query.now }
{
    show(rt, b" differs");
    if bits.len() <= 16 {
        for bit in bits {
            show(rt, if *bit { b" 1" } else { b" 0" });
        }
    }
    show(rt, b" with the values");
    show_value_under(rt, graph, query.left, bits);
    show_value_under(rt, graph, query.right, bits);
    show_value_under(rt, graph, query.care, bits);
}

fn show_decided(rt: &HostRuntime, graph: &Aig, query: &Query, decision: &Decision)
    requires { IsQuery graph.now query.now }
{
    match decision {
        Decision::Same(SameBy::Literal) => show(rt, b" same by the literal"),
        Decision::Same(SameBy::Table) => show(rt, b" same by the table"),
        Decision::Same(SameBy::Refuted(_)) => show(rt, b" same by a refutation"),
        Decision::Differs(bits) => show_difference(rt, graph, query, bits.as_slice()),
        Decision::Limit(proof) => {
            show(rt, b" limit, chains");
            show_count(rt, proof.log.len() as u64);
        }
    }
}

/// Shows the decision of the query, with at most so many conflicts.
pub(crate) fn show_decision(rt: &HostRuntime, graph: &Aig, query: &Query, conflicts: u32)
    requires query { IsQuery graph.now query.now }
    requires conflicts { conflicts ≤ 200000 }
{
    match decide(rt.alloc(), graph, query, conflicts) {
        Ok(decision) => show_decided(rt, graph, query, &decision),
        Err(_) => show(rt, b" no memory"),
    }
}
