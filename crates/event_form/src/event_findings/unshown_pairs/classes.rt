//! The classes in the paths of event nodes.

ghost use Rattle.std.specs.Prelude.{◌≡◌, ◌≤◌, length, All, IfOk, OnOk};
ghost use Rattle.event_form.specs.event_findings.unshown_pairs.Classes.{AreEntered, HasEntered, IsIncreasing};

use event_nodes::EventGraph;
use sec_base::NoMemory;
use std::alloc::Global;

/// The classes by which these event nodes are entered from their parents, each once, in order.
pub(crate) fn classes_into(
    alloc: Global,
    events: &EventGraph,
    nodes: &[u32],
) -> Result<Vec<u32>, NoMemory>
    requires { All (λ n. n ≤ length events.now.children) nodes.now }
    ensures { IfOk result (λ classes. AreEntered events.now.children nodes.now classes.items) }
{
    let mut classes = Vec::new(alloc);
    for i in 0..nodes.len() {
        enter(events, nodes[i], &mut classes)?;
    }
    let classes = increasing(classes)?;
    Ok(classes)
}

/// Puts behind the others the class by which the event node is entered, if it isn't the root.
fn enter(events: &EventGraph, node: u32, classes: &mut Vec<u32>) -> Result<(), NoMemory>
    requires { node ≤ length events.now.children }
    ensures { OnOk result (HasEntered events.now.children node classes.old.items classes.new.items) }
{
    if node == 0 {
        return Ok(());
    }
    let step = events.step(node);
    classes.push(step.1)?;
    Ok(())
}

/// The same numbers, each once, in order.
fn increasing(numbers: Vec<u32>) -> Result<Vec<u32>, NoMemory>
    ensures { IfOk result (λ r. IsIncreasing numbers.items r.items) }
{
    let mut numbers = numbers;
    numbers.sort()?;
    numbers.dedup();
    Ok(numbers)
}
