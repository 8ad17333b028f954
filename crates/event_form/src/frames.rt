//! Frames, as they are told.

ghost use Rattle.std.specs.Prelude.{◌≡◌, ◌<◌, length, All, IfOk};
ghost use Rattle.event_form.specs.Frames.{TellsVariable, TellsFrame};

use crate::event_agreement::{EventGraph, NoMemory, node_path};
use std::alloc::Global;

/// The bit of an input at an event node.
#[derive(Drop)]
pub struct FrameBit {
    /// The steps from the root to the event node, each a class.
    pub path: Vec<u32>,
    /// The input's number.
    pub input: u32,
    pub bit: bool,
}

/// The frame in which these variables have these bits, and all else is 0: a bit for each variable, in order.
pub fn frame_of(
    alloc: Global,
    events: &EventGraph,
    vars: &[u32],
    bits: &[bool],
) -> Result<Vec<FrameBit>, NoMemory>
    requires within { All (λ v. v < length events.now.places) vars.now }
    requires each { length bits.now ≡ length vars.now }
    ensures { IfOk result (λ frame. TellsFrame events.now vars.now bits.now frame.items) }
{
    let mut frame = Vec::with_capacity(alloc, vars.len())?;
    for i in 0..vars.len() {
        let told = bit_at(alloc, events, vars[i], bits[i])?;
        frame.push(told)?;
    }
    Ok(frame)
}

/// The variable's input at its event node, with the bit.
fn bit_at(
    alloc: Global,
    events: &EventGraph,
    variable: u32,
    bit: bool,
) -> Result<FrameBit, NoMemory>
    requires { variable < length events.now.places }
    ensures variable { IfOk result (TellsVariable events.now variable) }
    ensures bit { IfOk result (λ x. x.bit ≡ bit) }
{
    events.keeps();
    let (input, node) = events.place(variable);
    let path = node_path(alloc, events, node)?;
    Ok(FrameBit { path, input, bit })
}
