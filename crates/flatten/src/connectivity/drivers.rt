//! What drives each signal, the signals that are driven again and those that nothing drives.

ghost use Rattle.std.specs.Prelude.{◌≡◌, ℕ, ◌<◌, ◌≤◌, ◌^◌, List, [], ◌++◌, length, All, IfSome, MatchOption, Some};
ghost use Rattle.elaborate.specs.Flat.{statement_of, kind_of};
ghost use Rattle.flatten.specs.connectivity.Wiring.{wires_of, reads_by, control_by};
ghost use Rattle.flatten.specs.connectivity.Events.{IsFirst, IsNever, IsAt};
ghost use Rattle.flatten.specs.connectivity.Faults.{DrivesAgain};
ghost use Rattle.flatten.specs.connectivity.Tables.{AreSources, IsOpenIn};

use crate::connectivity::kept::keeps;
use crate::connectivity::kinds::control_of;
use crate::connectivity::source::Source;
use elaborate::{Flat, FlatStatement};

/// The inputs drive their signals.
fn put_inputs(sources: &mut [Source], inputs: &[u32])
    requires { All (λ n. n < length sources.old) inputs.now }
    ensures len { length sources.new ≡ length sources.old }
    ensures put { (before : List ℕ) → AreSources before [] sources.old → AreSources (before ++ inputs.now) [] sources.new }
{
    for input in inputs {
        sources[*input as usize] = Source::Input;
    }
}

/// The main model's inputs and clocks drive their signals, and then the statements. Stops at the first that is driven
/// again, and gives it.
pub(crate) fn driven_again(sources: &mut [Source], flat: &Flat) -> Option<u32>
    requires len { length sources.old ≡ length flat.now.names }
    requires none { AreSources [] [] sources.old }
    ensures len { length sources.new ≡ length sources.old }
    ensures sources { let w = wires_of flat.now in MatchOption result (AreSources (w.inputs ++ w.clocks) w.outs sources.new) (λ n. n < length flat.now.names) }
    ensures again { let w = wires_of flat.now in MatchOption result (IsNever (DrivesAgain w)) (IsFirst (DrivesAgain w)) }
{
    keeps(flat);
    put_inputs(sources, flat.inputs.as_slice());
    put_inputs(sources, flat.clocks.as_slice());
    for (place, statement) in flat.statements.as_slice().iter().enumerate() {
        let out = statement.out;
        let Source::Open = sources[out as usize] else {
            return Some(out);
        };
        sources[out as usize] = Source::Statement(place as u32);
    }
    None
}

/// The first of the signals that nothing drives.
fn first_open(sources: &[Source], reads: &[u32]) -> Option<u32>
    requires { All (λ n. n < length sources.now) reads.now }
    ensures { let found = IsAt reads.now (λ n. n) (IsOpenIn sources.now) in MatchOption result (IsNever found) (IsFirst found) }
{
    for read in reads {
        if let Source::Open = sources[*read as usize] {
            return Some(*read);
        }
    }
    None
}

/// The first signal that the statement reads and nothing drives.
fn open_read(sources: &[Source], statement: &FlatStatement) -> Option<u32>
    requires own { All (λ n. n < length sources.now) statement.now.reads }
    requires control { All (λ n. n < length sources.now) (control_by (kind_of [] statement.now.kind)) }
    ensures { let found = IsAt (reads_by (statement_of [] statement.now)) (λ n. n) (IsOpenIn sources.now) in MatchOption result (IsNever found) (IsFirst found) }
{
    let found = first_open(sources, statement.reads.as_slice());
    if found.is_some() {
        return found;
    }
    match control_of(statement.kind) {
        Some(control) => first_open(sources, &[control]),
        None => None,
    }
}

/// The first signal that is read and that nothing drives. The main model's outputs are read last.
pub(crate) fn undriven(flat: &Flat, sources: &[Source]) -> Option<u32>
    requires len { length sources.now ≡ length flat.now.names }
    ensures within { IfSome result (λ n. n < length flat.now.names) }
    ensures told { let w = wires_of flat.now in let found = IsAt (w.reads ++ w.outputs) (λ n. n) (IsOpenIn sources.now) in MatchOption result (IsNever found) (IsFirst found) }
{
    keeps(flat);
    for statement in flat.statements.as_slice() {
        let found = open_read(sources, statement);
        if found.is_some() {
            return found;
        }
    }
    first_open(sources, flat.outputs.as_slice())
}
