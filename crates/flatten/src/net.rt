//! The net of a sound flat design, whole.

ghost use Rattle.std.specs.Prelude.{◌≡◌, ◌<◌, [], length, All, IfOk, IfSome};
ghost use Rattle.flat_net.specs.Makes.{empty_net};
ghost use Rattle.elaborate.specs.Flat.{view_of, IsShaped};
ghost use Rattle.net_assembly.specs.Built.{IsBuilt, unclocked, with_inputs, with_latches};
ghost use Rattle.flatten.specs.Gated.{IsLaid, first_made};
ghost use Rattle.flatten.specs.Made.{IsSpotted, IsMade};

use crate::assemble::Assembly;
use crate::connectivity::Wired;
use blif_read::BlifModel;
use elaborate::Flat;
use flat_net::Net;
use sec_base::NoMemory;
use std::alloc::Global;

impl Assembly {
    /// The whole net, where the inputs but the clock and the latches are there: the gates in the order, the outputs, and
    /// what the latches take over. It is moved out.
    fn complete(
        &mut self,
        alloc: Global,
        models: &[BlifModel],
        flat: &Flat,
        wired: &Wired,
        order: &[u32],
    ) -> Result<Net, NoMemory>
        requires laid { IsLaid flat.now wired.now order.now }
        requires spotted { IsSpotted flat.now wired.now order.now }
        requires shaped { All IsShaped (view_of models.now flat.now).statements }
        requires clock { IfSome wired.now.clock (λ c. c < length flat.now.names) }
        requires built { IsBuilt flat.now.names (first_made flat.now wired.now) self.old.maker.net self.old.signals.items }
        requires net { self.old.maker.net ≡ with_latches flat.now.names flat.now.statements (with_inputs flat.now.names (unclocked wired.now.clock flat.now.inputs) empty_net) }
        requires covers { self.old.covers ≡ [] }
        ensures { IfOk result (IsMade models.now flat.now wired.now order.now) }
    {
        self.add_gates(alloc, models, flat, wired, order)?;
        self.add_outputs(flat)?;
        self.set_nexts(flat);
        self.finish(alloc, flat, wired.clock())
    }
}

/// The net of a sound flat design: its inputs but the clock, its latches, its gates in the order, and its outputs.
pub(crate) fn make(
    alloc: Global,
    models: &[BlifModel],
    flat: &Flat,
    wired: &Wired,
    order: &[u32],
) -> Result<Net, NoMemory>
    requires laid { IsLaid flat.now wired.now order.now }
    requires spotted { IsSpotted flat.now wired.now order.now }
    requires shaped { All IsShaped (view_of models.now flat.now).statements }
    requires clock { IfSome wired.now.clock (λ c. c < length flat.now.names) }
    ensures { IfOk result (IsMade models.now flat.now wired.now order.now) }
{
    let mut assembly = Assembly::begin(alloc, flat, wired.clock())?;
    assembly.complete(alloc, models, flat, wired, order)
}
