//! What literals read in the cycle in which they have their values.

ghost use Rattle.std.specs.Prelude.{◌≡◌, ◌+◌, ◌*◌, ◌<◌, ◌^◌, false, [], ◌∷◌, length, replicate, All, IfOk, IfSome, IfNone, OnOk};
ghost use Rattle.aiger_read.specs.aiger_records.Driven.{used_by};
ghost use Rattle.aiger_read.specs.aiger_records.Faults.{IsSmall, has_bad_literal, defined_by};
ghost use Rattle.aiger_read.specs.aiger_file.Files.{IsKept};
ghost use Rattle.net_assembly.specs.Order.{IsOrder};
ghost use Rattle.aiger_read.specs.aiger_file.aiger_graph.Literals.{operands, graph_of, negated, with_reads, with_marks, AreUsed};
ghost use Rattle.aiger_read.specs.aiger_file.aiger_graph.Loops.{HasLoop, IsOrdered};

use crate::aiger_file::AigerFile;
use crate::aiger_records::{Header, Record, defined_by};
use net_assembly::{Found, order_of};
use sec_base::{Ids, NoMemory, Seq};
use std::alloc::Global;

/// Both numbers.
fn pair(alloc: Global, left: u64, right: u64) -> Result<Ids, NoMemory>
    requires left { left < 2 ^ 32 }
    requires right { right < 2 ^ 32 }
    ensures { IfOk result (λ ids. ids ≡ left ∷ right ∷ []) }
{
    let mut ids = Seq::new(alloc);
    ids.push(left as u32)?;
    ids.push(right as u32)?;
    Ok(ids)
}

/// What the negation of a variable reads: the variable's literal, where the negation is used.
fn negated(alloc: Global, used: bool, literal: u32) -> Result<Ids, NoMemory>
    ensures { IfOk result (λ ids. ids ≡ negated used literal) }
{
    let mut ids = Seq::new(alloc);
    if used {
        ids.push(literal)?;
    }
    Ok(ids)
}

/// The operands of a gate; none of another record.
fn operands(alloc: Global, header: &Header, found: Record) -> Result<Ids, NoMemory>
    requires small { IsSmall header.now }
    requires good { has_bad_literal header.now found ≡ false }
    ensures { IfOk result (λ ids. ids ≡ operands found) }
{
    let _greatest = header.greatest;
    match found {
        Record::Gate {
            literal: _,
            left,
            right,
        } => pair(alloc, left, right),
        Record::Packed {
            literal,
            first,
            second,
        } => {
            let left = literal.saturating_sub(first);
            pair(alloc, left, left.saturating_sub(second))
        }
        _ => Ok(Seq::new(alloc)),
    }
}

/// So many literals that read nothing.
fn no_reads(alloc: Global, size: usize) -> Result<Vec<Ids>, NoMemory>
    ensures { IfOk result (λ graph. graph.items ≡ replicate size []) }
{
    let mut graph = Vec::new(alloc);
    for place in 0..size {
        graph.push(Seq::new(alloc))?;
    }
    Ok(graph)
}

/// Marks what the record reads.
fn mark_used(header: &Header, marks: &mut Vec<bool>, found: Record)
    requires small { IsSmall header.now }
    requires good { has_bad_literal header.now found ≡ false }
    requires size { length marks.old.items ≡ 2 * header.now.greatest + 2 }
    ensures { marks.new.items ≡ with_marks (used_by found) marks.old.items }
{
    let _greatest = header.greatest;
    match found {
        Record::Input { literal: _ } => {}
        Record::Latch {
            literal: _,
            next,
            reset: _,
        } => marks[next as usize] = true,
        Record::Output { literal } => marks[literal as usize] = true,
        Record::Gate {
            literal: _,
            left,
            right,
        } => {
            marks[left as usize] = true;
            marks[right as usize] = true;
        }
        Record::Packed {
            literal,
            first,
            second,
        } => {
            let left = literal.saturating_sub(first);
            marks[left as usize] = true;
            marks[left.saturating_sub(second) as usize] = true;
        }
    }
}

/// The marks of the literals that records read.
fn used_marks(alloc: Global, header: &Header, records: &[Record]) -> Result<Vec<bool>, NoMemory>
    requires small { IsSmall header.now }
    requires good { All (λ r. has_bad_literal header.now r ≡ false) records.now }
    ensures { IfOk result (λ marks. AreUsed records.now (2 * header.now.greatest + 2) marks.items) }
{
    let mut marks = vec![in alloc; false; 2 * header.greatest as usize + 2]?;
    for found in records {
        mark_used(header, &mut marks, *found);
    }
    Ok(marks)
}

/// Puts what the record says of its literal and of that one's negation.
fn put_reads(
    alloc: Global,
    header: &Header,
    used: &[bool],
    graph: &mut Vec<Ids>,
    found: Record,
) -> Result<(), NoMemory>
    requires small { IsSmall header.now }
    requires good { has_bad_literal header.now found ≡ false }
    requires size { length graph.old.items ≡ 2 * header.now.greatest + 2 }
    requires marks { length used.now ≡ 2 * header.now.greatest + 2 }
    ensures { OnOk result (graph.new.items ≡ with_reads used.now (defined_by found) (operands found) graph.old.items) }
{
    let Some(literal) = defined_by(found) else {
        return Ok(());
    };
    graph[literal as usize] = operands(alloc, header, found)?;
    graph[literal as usize + 1] = negated(alloc, used[literal as usize + 1], literal as u32)?;
    Ok(())
}

/// What each literal reads: a gate its operands, a negation that is used its variable.
fn graph_of(alloc: Global, header: &Header, records: &[Record]) -> Result<Vec<Ids>, NoMemory>
    requires small { IsSmall header.now }
    requires good { All (λ r. has_bad_literal header.now r ≡ false) records.now }
    ensures { IfOk result (λ graph. graph.items ≡ graph_of records.now (2 * header.now.greatest + 2)) }
{
    let used = used_marks(alloc, header, records)?;
    let mut graph = no_reads(alloc, 2 * header.greatest as usize + 2)?;
    for back in 0..records.len() {
        let found = records[records.len() - 1 - back];
        put_reads(alloc, header, &used, &mut graph, found)?;
    }
    Ok(graph)
}

/// What each literal of a file reads, and all literals, each behind what it reads.
pub struct Ordered {
    pub graph: Vec<Ids>,
    pub order: Ids,
}

/// It is let go by one call: an owner isn't taken apart field by field at each way out.
impl Drop for Ordered {
    fn drop(self) {
        let Ordered { graph: _, order: _ } = self;
    }
}

/// An order of a file's literals in which they can be evaluated; None where gates read each other in a loop.
pub fn order_literals(alloc: Global, file: &AigerFile) -> Result<Option<Ordered>, NoMemory>
    requires { IsKept file.now }
    ensures looped { IfOk result (λ found. IfNone found (HasLoop file.now)) }
    ensures ordered { IfOk result (λ found. IfSome found (λ o. IsOrdered file.now o.graph.items o.order)) }
{
    let graph = graph_of(alloc, &file.header, file.records.as_slice())?;
    match order_of(alloc, &graph)? {
        Found::Order(order) => Ok(Some(Ordered { graph, order })),
        Found::Round(_) => Ok(None),
    }
}
