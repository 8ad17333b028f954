//! The cycles of the variables of both sides.

ghost use Rattle.std.specs.Prelude.{◌≡◌, ℕ, ◌^◌, ◌<◌, Bool, length, map, All, IfOk};
ghost use Rattle.std.specs.List.{list_any};
ghost use Rattle.circuit_theory.specs.Names.{same_name};
ghost use Rattle.circuit_theory.specs.Query.{same_shift};
ghost use Rattle.circuit_theory.specs.Frame.{always_node};
ghost use Rattle.event_nodes.specs.event_variables.Variables.{variables_of};
ghost use Rattle.event_under.specs.event_shown_under.Steps.{shifts_of};

use base_tables::PlaceTable;
use event_nodes::EventGraph;
use event_nodes::event_variables::frame_sequences::always_steps;
use sec_base::NoMemory;
use std::alloc::Global;

/// Variables of an input at places.
#[derive(Drop)]
pub(crate) struct Shifts {
    pub(crate) table: PlaceTable,
    pub(crate) vars: Vec<u32>,
}

/// The numbers of steps of class 0 that lead to nodes of these variables.
pub(crate) fn steps_of(
    alloc: Global,
    events: &EventGraph,
    sides: &[u32],
) -> Result<Vec<u32>, NoMemory>
    requires { All (λ v. v < length events.now.places) sides.now }
    ensures { IfOk result (λ steps. (k : ℕ) → list_any (λ (s : ℕ). same_shift s k) steps.items ≡ list_any (λ v. same_name v.at (always_node k)) (variables_of events.now sides.now)) }
{
    events.keeps();
    let mut steps = Vec::new(alloc);
    for i in 0..sides.len() {
        let (_, node) = events.place(sides[i]);
        if let Some(at) = always_steps(events, node) {
            steps.push(at)?;
        }
    }
    Ok(steps)
}

/// The input 0 at each of these places.
pub(crate) fn shifts_at(alloc: Global, steps: &[u32]) -> Result<Shifts, NoMemory>
    ensures within { IfOk result (λ made. All (λ v. v < length made.table) made.vars.items) }
    ensures shifts { IfOk result (λ made. shifts_of made.table made.vars.items ≡ steps.now) }
{
    let Ok(_) = u32::try_from(steps.len()) else {
        return Err(NoMemory);
    };
    let mut table = PlaceTable::new(alloc);
    let mut vars = Vec::new(alloc);
    for i in 0..steps.len() {
        let number = table.intern(0, steps[i])?;
        vars.push(number)?;
    }
    Ok(Shifts { table, vars })
}
