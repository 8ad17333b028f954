//! A circuit as an assumption.

ghost use Rattle.std.specs.Prelude.{◌+◌, ◌^◌, ◌<◌, ◌≤◌, [], ◌∷◌, length, IfOk};
ghost use Rattle.circuit_theory.specs.declared.Mode.TheVariants.{Plain};
ghost use Rattle.sec_base.specs.declared.limits.TheConstants.{MAX_WEIGHT};
ghost use Rattle.flat_net.specs.Comparable.{IsComparable};
ghost use Rattle.flat_net.specs.View.{circuit_of};
ghost use Rattle.signal_graph.specs.Graph.{IsGraphIn};
ghost use Rattle.signal_graph.specs.unfolding_weight.Weight.{Weighs};
ghost use Rattle.assume_laws.specs.assume_shape.Shape.{HasShape};
ghost use Rattle.assume_queries.specs.assume_sequences.assume_taken.Functions.{HasFunction};
ghost use Rattle.assume_queries.specs.assume_sequences.assume_taken.Premises.{IsTaken};

use crate::assume_sequences::assume_taken::error::TakeError;
use crate::assume_sequences::assume_taken::meeting::{Meeting, meeting_row};
use crate::assume_sequences::{OwnFunction, Premise, own_function};
use assume_laws::assume_shape::{ShapeFault, numbers_of, shape_fault};
use base_tables::NameTable;
use flat_net::{Net, Signal, Signals};
use latch_graph::{LatchGraph, Weight};
use pair_decide::Proof;
use sec_base::{MAX_CONFLICTS, MAX_WEIGHT, NoMemory};
use sec_setup::graph_of;
use std::alloc::Global;

/// What a circuit is as an assumption.
#[derive(Drop)]
pub enum Taken {
    /// Its function, its weight, and a row of inputs that meets it.
    Met(Premise),
    /// Whether a row meets it wasn't decided within the number of conflicts.
    Limit(Proof),
}

/// Takes the circuit `c` as an assumption on the inputs of these names, whose numbers are their places. It refuses, in this order: a
/// latch, a number of outputs that isn't one, an input of another name, a weight at one place above 2,000,000; an assumption that no row
/// of inputs meets. The row that is kept is that of the least assignment for at most 16 variables.
pub fn take(alloc: Global, c: &Net, names: &NameTable, conflicts: u32) -> Result<Taken, TakeError>
    requires comparable { IsComparable c.now }
    requires few { length names.now + length c.now.inputs + length c.now.inputs < 2 ^ 32 }
    requires conflicts { conflicts ≤ MAX_CONFLICTS }
    ensures { IsTaken names.now c.now conflicts result }
{
    if let Some(fault) = shape_fault(c, names)? {
        return Err(TakeError::Fault(fault));
    }
    let Function { own, weight } = function_of(alloc, c, names)?;
    own.aig.keeps();
    own.places.keeps();
    match meeting_row(alloc, &own, names.len() as usize, conflicts)? {
        Meeting::Never(by) => Err(TakeError::Vacuous(by)),
        Meeting::Row(meeting) => Ok(Taken::Met(Premise {
            own,
            weight,
            meeting,
        })),
        Meeting::Limit(proof) => Ok(Taken::Limit(proof)),
    }
}

/// The function of an assumption's output, and its weight.
#[derive(Drop)]
struct Function {
    own: OwnFunction,
    weight: u32,
}

/// The function of a circuit of the shape.
fn function_of(alloc: Global, c: &Net, names: &NameTable) -> Result<Function, TakeError>
    requires shape { HasShape c.now names.now }
    requires few { length names.now + length c.now.inputs + length c.now.inputs < 2 ^ 32 }
    ensures { HasFunction names.now c.now result }
{
    c.keeps();
    let order = numbers_of(alloc, c, names)?;
    let graph = graph_of(alloc, c)?;
    let output = c.outputs()[0].signal;
    let Weight::Within(weight) = weight_of(alloc, c, &graph, output)? else {
        return Err(TakeError::Fault(ShapeFault::TooLarge));
    };
    let own = own_function(alloc, c, &graph, &order, output)?;
    Ok(Function { own, weight })
}

/// What the signal reads weighs.
fn weight_of(alloc: Global, c: &Net, graph: &LatchGraph, output: Signal) -> Result<Weight, NoMemory>
    requires graph { IsGraphIn Plain c.now graph.now }
    requires output { output.0 < length c.now.drivers }
    ensures { IfOk result (Weighs (circuit_of c.now) (output.0 ∷ []) MAX_WEIGHT) }
{
    let mut outputs = Signals::new(alloc);
    outputs.push(output)?;
    graph.weight(alloc, c, &outputs, MAX_WEIGHT)
}
