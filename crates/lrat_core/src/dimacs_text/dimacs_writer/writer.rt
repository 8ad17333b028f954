//! Writes clauses.

ghost use Rattle.std.specs.Prelude.{◌≡◌, ◌++◌, OnOk, IfOk};
ghost use Rattle.std.specs.List.{flat_map};
ghost use Rattle.lrat_core.specs.dimacs_text.dimacs_writer.Written.{literal_text, literal_piece, clause_text, header_text, dimacs_text};

use proof_check::{Clause, Clauses, Literal};
use sec_base::{NoMemory, Seq, Text, put, put_number};
use std::alloc::Global;

/// Puts a literal behind the text: its variable's number, behind a `-` where it is negated.
fn put_literal(alloc: Global, text: &mut Vec<u8>, literal: Literal) -> Result<(), NoMemory>
    ensures { OnOk result (text.new.items ≡ text.old.items ++ literal_text literal) }
{
    if literal.is_positive() {
        return put_number(alloc, text, u64::from(literal.variable()));
    }
    put(text, b"-")?;
    put_number(alloc, text, u64::from(literal.variable()))
}

/// Puts the literals behind the text, a blank behind each.
pub fn put_literals(alloc: Global, text: &mut Vec<u8>, literals: &[Literal]) -> Result<(), NoMemory>
    ensures { OnOk result (text.new.items ≡ text.old.items ++ flat_map literal_piece literals.now) }
{
    for literal in literals {
        put_literal(alloc, text, *literal)?;
        put(text, b" ")?;
    }
    Ok(())
}

/// Puts the literals of a clause behind the text, each before a blank, and then a 0.
fn put_clause(alloc: Global, text: &mut Vec<u8>, clause: &Clause) -> Result<(), NoMemory>
    ensures { OnOk result (text.new.items ≡ text.old.items ++ clause_text clause.now) }
{
    put_literals(alloc, text, clause.as_slice())?;
    put(text, b"0\n")
}

/// Puts the header behind the text.
fn put_header(
    alloc: Global,
    text: &mut Vec<u8>,
    variables: u32,
    clauses: usize,
) -> Result<(), NoMemory>
    ensures { OnOk result (text.new.items ≡ text.old.items ++ header_text variables clauses) }
{
    put(text, b"p cnf ")?;
    put_number(alloc, text, u64::from(variables))?;
    put(text, b" ")?;
    put_number(alloc, text, clauses as u64)?;
    put(text, b"\n")
}

/// The text of clauses over so many variables: the header, then a line for each clause.
pub fn write_clauses(alloc: Global, variables: u32, clauses: &Clauses) -> Result<Text, NoMemory>
    ensures { IfOk result (λ text. text ≡ dimacs_text variables clauses.now) }
{
    let mut text = Vec::new(alloc);
    put_header(alloc, &mut text, variables, clauses.len())?;
    for clause in clauses.as_slice() {
        put_clause(alloc, &mut text, clause)?;
    }
    Ok(Seq::from_vec(text))
}
