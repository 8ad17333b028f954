//! Event nodes that steps of class 0 alone lead to.

ghost use Rattle.std.specs.Prelude.{◌≤◌, length};
ghost use Rattle.event_nodes.specs.Nodes.{path_of};
ghost use Rattle.event_nodes.specs.event_variables.frame_sequences.Frames.{AreAlwaysSteps};

use crate::event_variables::EventGraph;

/// How many steps of class 0 lead from the root to the event node; None where a step is of another class.
pub fn always_steps(events: &EventGraph, node: u32) -> Option<u32>
    requires { node ≤ length events.now.children }
    ensures { AreAlwaysSteps (path_of events.now.children node) result }
{
    events.keeps();
    let mut steps = 0;
    let mut at = node;
    while at > 0 {
        let (parent, class) = events.step(at);
        if class != 0 {
            return None;
        }
        at = parent;
        steps += 1;
    }
    Some(steps)
}
