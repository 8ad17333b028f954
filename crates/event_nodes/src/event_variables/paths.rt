//! Paths of event nodes.

ghost use Rattle.std.specs.Prelude.{◌≡◌, ◌≤◌, length, reverse, IfOk};
ghost use Rattle.event_nodes.specs.Nodes.{path_of};

use crate::{EventGraph, NoMemory};
use std::alloc::Global;

/// The steps from the root to the node, each a class.
pub fn node_path(alloc: Global, events: &EventGraph, node: u32) -> Result<Vec<u32>, NoMemory>
    requires { node ≤ length events.now.children }
    ensures { IfOk result (λ path. path.items ≡ reverse (path_of events.now.children node)) }
{
    events.keeps();
    let mut steps = Vec::new(alloc);
    let mut at = node;
    while at > 0 {
        let (parent, class) = events.step(at);
        steps.push(class)?;
        at = parent;
    }
    steps.reverse();
    Ok(steps)
}
