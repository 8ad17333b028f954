//! A refutation as a text.

ghost use Rattle.std.specs.Prelude.{◌≡◌, ◌+◌, ◌<◌, ◌^◌, ◌++◌, length, IfOk, OnOk};
ghost use Rattle.std.specs.List.{All, flat_map};
ghost use Rattle.proof_check.specs.Clauses.{IsClause};
ghost use Rattle.proof_check.specs.Chains.{IsRefutation, LogDerives};
ghost use Rattle.lrat_core.specs.dimacs_text.dimacs_writer.Laws.{AreWritable};
ghost use Rattle.lrat_core.specs.Logs.{hints_of, clauses_back, lines_of};
ghost use Rattle.lrat_core.specs.certificate_writer.Hinting.{AreWithin, IsWithin, all_known, falsified_by};
ghost use Rattle.lrat_core.specs.certificate_writer.Texts.{addition_text, line_text, IsTextOf, IsAcceptedOver};

use crate::certificate_writer::hints::put_hints;
use crate::certificate_writer::known::Known;
use crate::dimacs_text::dimacs_writer::put_literals;
use clause_watch::Trail;
use pair_decide::cnf_encode::Cnf;
use proof_check::{Chain, Clause, Clauses, Log, check_chains};
use sec_base::{NoMemory, Seq, Text, put, put_number};
use std::alloc::Global;

/// The refutation as a text in the LRAT format, which is accepted over the clauses. With C clauses, chain k of the log becomes the
/// addition of number C + 1 + k. Its hints are the clauses of the chain's steps from the last to the first, and then the one that
/// the chain begins with; one that is true where the derived clause is false and the hints before it are followed is left out, and
/// the first that is false ends them.
pub fn write_lrat(alloc: Global, cnf: &Cnf, log: &Log) -> Result<Text, NoMemory>
    requires writable { AreWritable cnf.now.variables cnf.now.clauses }
    requires numbers { length cnf.now.clauses + length log.now < 2 ^ 32 }
    requires refutes { IsRefutation cnf.now.clauses log.now }
    ensures lines { IfOk result (IsTextOf cnf.now.clauses log.now) }
    ensures accepted { IfOk result (IsAcceptedOver cnf.now) }
{
    look_at_all(&cnf.clauses);
    let derived = derive(alloc, &cnf.clauses, log)?;
    let mut trail = Trail::new(alloc, cnf.variables)?;
    let mut text = Vec::new(alloc);
    put_additions(alloc, &mut text, &mut trail, &cnf.clauses, log, &derived)?;
    Ok(Seq::from_vec(text))
}

/// Looks at all clauses, each of which has its literals in order.
fn look_at_all(clauses: &Clauses)
    ensures { All IsClause clauses.now }
{
    for clause in clauses.as_slice() {
        let _literals = clause.as_slice();
    }
}

/// The clauses that the chains of a refutation derive.
fn derive(alloc: Global, clauses: &Clauses, log: &Log) -> Result<Clauses, NoMemory>
    requires numbers { length clauses.now + length log.now < 2 ^ 32 }
    ensures { IfOk result (LogDerives clauses.now log.now) }
{
    // The chains hold, so an error is want of memory.
    match check_chains(alloc, clauses, log) {
        Ok(derived) => Ok(derived),
        Err(_) => Err(NoMemory),
    }
}

/// Puts a line behind the text for each clause that a chain of the log derives.
fn put_additions(
    alloc: Global,
    text: &mut Vec<u8>,
    trail: &mut Trail,
    clauses: &Clauses,
    log: &Log,
    derived: &Clauses,
) -> Result<(), NoMemory>
    requires numbers { length clauses.now + length log.now < 2 ^ 32 }
    requires derives { LogDerives clauses.now log.now derived.now }
    requires within { AreWithin trail.old.variables clauses.now }
    ensures { OnOk result (text.new.items ≡ text.old.items ++ flat_map line_text (lines_of clauses.now log.now derived.now)) }
{
    for (at, chain) in log.as_slice().iter().enumerate() {
        let known = Known {
            given: clauses,
            derived: &derived.as_slice()[..at],
        };
        let id = clauses.len() as u64 + at as u64 + 1;
        put_addition(
            alloc,
            text,
            trail,
            &known,
            id,
            &derived.as_slice()[at],
            chain,
        )?;
    }
    Ok(())
}

/// Puts the line behind the text that adds a clause under this number by its chain.
fn put_addition(
    alloc: Global,
    text: &mut Vec<u8>,
    trail: &mut Trail,
    known: &Known<'_>,
    id: u64,
    clause: &Clause,
    chain: &Chain,
) -> Result<(), NoMemory>
    requires clauses { AreWithin trail.old.variables (all_known known.now) }
    requires clause { IsWithin trail.old.variables clause.now }
    ensures variables { trail.new.variables ≡ trail.old.variables }
    ensures text { OnOk result (text.new.items ≡ text.old.items ++ addition_text (record { id = id; literals = clause.now; hints = hints_of clause.now (clauses_back (all_known known.now) chain.now) })) }
{
    falsify(trail, clause)?;
    put_number(alloc, text, id)?;
    put(text, b" ")?;
    put_literals(alloc, text, clause.as_slice())?;
    put(text, b"0 ")?;
    put_hints(alloc, text, trail, known, chain)?;
    put(text, b"0\n")
}

/// Makes the literals of the clause false, and gives no other variable a value.
fn falsify(trail: &mut Trail, clause: &Clause) -> Result<(), NoMemory>
    requires { IsWithin trail.old.variables clause.now }
    ensures variables { trail.new.variables ≡ trail.old.variables }
    ensures falsified { OnOk result (falsified_by trail.new.entries ≡ clause.now) }
{
    trail.cut(0);
    for literal in clause.as_slice() {
        trail.push(literal.negation(), None)?;
    }
    Ok(())
}
