//! The frame of a difference.

ghost use Rattle.std.specs.Prelude.{◌≡◌, ◌<◌, length, All, IfOk};
ghost use Rattle.event_under.specs.event_under_form.event_witness_under.Shown.{IsFrameOf};

use crate::event_under_form::event_witness_under::ready::ReadyDifference;
use event_form::event_findings::UnshownFrame;
use sec_base::{Bits, NoMemory};
use std::alloc::Global;

/// The frame of a difference with these bits.
pub fn frame_of(
    alloc: Global,
    bits: &Bits,
    ready: ReadyDifference,
) -> Result<UnshownFrame, NoMemory>
    requires within { All (λ v. v < length ready.made.events.places) ready.made.vars.items }
    requires each { length bits.now ≡ length ready.made.vars.items }
    ensures { IfOk result (IsFrameOf bits.now ready) }
{
    let vars = ready.made.vars.as_slice();
    let frame = event_form::frame_of(alloc, &ready.made.events, vars, bits.as_slice())?;
    let ReadyDifference {
        pair,
        left,
        right,
        made: _,
    } = ready;
    Ok(UnshownFrame {
        pair,
        left,
        right,
        frame,
    })
}
