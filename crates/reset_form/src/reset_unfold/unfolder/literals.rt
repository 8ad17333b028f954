//! The literal of one place.

ghost use Rattle.std.specs.Prelude.{◌≡◌, ◌+◌, ◌^◌, ◌<◌, length, slice_get, Some, IfOk, if◌then◌else◌};
ghost use Rattle.flat_net.specs.declared.parts.Driver.TheVariants as driver;
ghost use Rattle.flat_net.specs.Weights.{weight_at};
ghost use Rattle.cbf_unfold.specs.unfold_places.Growing.{HasGrown};
ghost use Rattle.reset_form.specs.reset_unfold.Unfolded.{IsKnown};
ghost use Rattle.reset_form.specs.reset_unfold.Building.{AreKnown, IsReady};

use super::ResetUnfolder;
use crate::reset_unfold::leaves::initial;
use aig::{Aig, Lit};
use base_tables::PlaceTable;
use cbf_unfold::unfold_places::literals::{gate_literal, variable};
use cbf_unfold::unfold_places::memo::Place;
use flat_net::{Driver, Signal, latch_of};
use sec_base::NoMemory;
use std::alloc::Global;

impl<'a> ResetUnfolder<'a> {
    /// The literal of a place that can be unfolded.
    pub(super) fn literal(
        &self,
        alloc: Global,
        aig: &mut Aig,
        places: &mut PlaceTable,
        place: Place,
    ) -> Result<Lit, NoMemory>
        requires ready { IsReady self.now place }
        requires known { AreKnown self.now aig.old places.old }
        requires nodes { length aig.old + weight_at self.now.net place.1 < 2 ^ 30 }
        requires entries { length places.old + 1 < 2 ^ 32 }
        ensures known { IfOk result (λ x. IsKnown self.now.net self.now.order self.now.base aig.new places.new place x.0) }
        ensures grown { HasGrown aig.old aig.new places.old places.new (weight_at self.now.net place.1) }
    {
        let net = self.net();
        net.keeps();
        self.keeps();
        match net.driver(Signal(place.1)) {
            Driver::Input(i) => {
                let number = self.order()[i as usize];
                variable(aig, places, number, place.0)
            }
            Driver::Gate(j) => gate_literal(alloc, net, self.memo(), aig, place.0, j),
            Driver::Latch(j) => self.latch_literal(aig, places, place, j),
        }
    }

    /// The literal of a latch's place: that of what the latch takes over, in the cycle before. In cycle 0 it is the initial
    /// value, or else the latch's own variable.
    fn latch_literal(
        &self,
        aig: &mut Aig,
        places: &mut PlaceTable,
        place: Place,
        j: u32,
    ) -> Result<Lit, NoMemory>
        requires drives { slice_get self.now.net.drivers place.1 ≡ Some (driver.Latch j) }
        requires ready { IsReady self.now place }
        requires known { AreKnown self.now aig.old places.old }
        requires nodes { length aig.old + 1 < 2 ^ 30 }
        requires entries { length places.old + 1 < 2 ^ 32 }
        ensures known { IfOk result (λ x. IsKnown self.now.net self.now.order self.now.base aig.new places.new place x.0) }
        ensures grown { HasGrown aig.old aig.new places.old places.new 1 }
    {
        let net = self.net();
        net.keeps();
        self.keeps();
        aig.keeps();
        let latch = latch_of(net, j);
        if place.0 > 0 {
            return Ok(self.met((place.0 - 1, latch.next.0)));
        }
        match initial(latch) {
            Some(bit) => Ok(constant(bit)),
            None => variable(aig, places, self.base() + j, 0),
        }
    }
}

/// The literal of a constant.
fn constant(bit: bool) -> Lit
    ensures { result.0 ≡ (if bit then 1 else 0) }
{
    if bit { Lit::TRUE } else { Lit::FALSE }
}
