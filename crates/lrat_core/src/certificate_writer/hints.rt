//! The hints that show a derived clause.

ghost use Rattle.std.specs.Prelude.{◌≡◌, ◌++◌, IfOk, OnOk};
ghost use Rattle.lrat_core.specs.certificate_writer.Hinting.{AreWithin, IsWithin, IsConsistent, IsLook, IsHinted, all_known, falsified_by, hints_text};
ghost use Rattle.lrat_core.specs.Logs.{clauses_back};

use crate::certificate_writer::known::Known;
use clause_watch::{Trail, Truth};
use proof_check::{Chain, Literal};
use sec_base::{NoMemory, put, put_number};
use std::alloc::Global;

/// What a trail makes of a clause.
#[derive(Clone, Copy)]
pub(crate) enum Look {
    /// A literal of it is true.
    Met,
    /// All its literals are false.
    False,
    /// No literal of it is true, and this one is the first that isn't false.
    Open(Literal),
}

/// Looks at a clause.
fn look_at(trail: &Trail, clause: &[Literal]) -> Look
    requires within { IsWithin trail.now.variables clause.now }
    requires consistent { IsConsistent (falsified_by trail.now.entries) }
    ensures { IsLook (falsified_by trail.now.entries) clause.now result }
{
    let mut first = None;
    for literal in clause {
        match trail.truth(*literal) {
            Truth::True => return Look::Met,
            Truth::False => {}
            Truth::Free => first = first_of(first, *literal),
        }
    }
    match first {
        Some(literal) => Look::Open(literal),
        None => Look::False,
    }
}

/// The literal that was found before, or else this one.
fn first_of(found: Option<Literal>, literal: Literal) -> Option<Literal>
    ensures { result ≡ Rattle.lrat_core.specs.certificate_writer.Hinting.first_of found literal }
{
    match found {
        Some(earlier) => Some(earlier),
        None => Some(literal),
    }
}

/// Puts the clause of this number as a hint behind the text, unless it is true, and makes its open literal true. The answer is
/// false where the clause is false, so that no hint follows.
fn put_hint(
    alloc: Global,
    text: &mut Vec<u8>,
    trail: &mut Trail,
    known: &Known<'_>,
    number: u32,
) -> Result<bool, NoMemory>
    requires within { AreWithin trail.old.variables (all_known known.now) }
    requires consistent { IsConsistent (falsified_by trail.old.entries) }
    ensures variables { trail.new.variables ≡ trail.old.variables }
    ensures hinted { IfOk result (λ goes_on. IsHinted (all_known known.now) number text.old.items (falsified_by trail.old.entries) goes_on text.new.items (falsified_by trail.new.entries)) }
{
    match look_at(trail, known.clause(number)) {
        Look::Met => Ok(true),
        Look::False => {
            put_number(alloc, text, u64::from(number) + 1)?;
            put(text, b" ")?;
            Ok(false)
        }
        Look::Open(literal) => {
            put_number(alloc, text, u64::from(number) + 1)?;
            put(text, b" ")?;
            trail.push(literal, None)?;
            Ok(true)
        }
    }
}

/// Puts the hints of a chain behind the text, where the trail makes the derived clause false: the clauses of its steps from the last
/// to the first, and then the one that it begins with. One that is true is left out, and the first that is false ends them.
pub(crate) fn put_hints(
    alloc: Global,
    text: &mut Vec<u8>,
    trail: &mut Trail,
    known: &Known<'_>,
    chain: &Chain,
) -> Result<(), NoMemory>
    requires within { AreWithin trail.old.variables (all_known known.now) }
    requires consistent { IsConsistent (falsified_by trail.old.entries) }
    ensures variables { trail.new.variables ≡ trail.old.variables }
    ensures text { OnOk result (text.new.items ≡ text.old.items ++ hints_text (falsified_by trail.old.entries) (clauses_back (all_known known.now) chain.now)) }
{
    let steps = chain.steps.as_slice();
    let mut left = steps.len();
    while 0 < left {
        left -= 1;
        let goes_on = put_hint(alloc, text, trail, known, steps[left].clause)?;
        if !goes_on {
            return Ok(());
        }
    }
    put_hint(alloc, text, trail, known, chain.start)?;
    Ok(())
}
