//! The literal of one place.

ghost use Rattle.std.specs.Prelude.{◌+◌, ◌^◌, ◌<◌, length, IfOk};
ghost use Rattle.flat_net.specs.Weights.{weight_at};
ghost use Rattle.cbf_unfold.specs.Unfolded.{IsKnown};
ghost use Rattle.cbf_unfold.specs.Building.{AreKnown, IsReady, HasGrown};

use super::Unfolder;
use crate::unfold_places::literals::{gate_literal, marked, variable};
use crate::unfold_places::memo::Place;
use aig::{Aig, Lit};
use base_tables::PlaceTable;
use flat_net::{Driver, Signal, latch_of};
use sec_base::NoMemory;
use std::alloc::Global;

impl<'a> Unfolder<'a> {
    /// The literal of a place that can be unfolded.
    pub(super) fn literal(
        &self,
        alloc: Global,
        aig: &mut Aig,
        places: &mut PlaceTable,
        place: Place,
    ) -> Result<Lit, NoMemory>
        requires ready { IsReady self.now place }
        requires known { AreKnown self.now aig.old places.old }
        requires nodes { length aig.old + weight_at self.now.net place.1 < 2 ^ 30 }
        requires entries { length places.old + 1 < 2 ^ 32 }
        ensures known { IfOk result (λ x. IsKnown self.now.net self.now.order self.now.cap aig.new places.new place x.0) }
        ensures grown { HasGrown aig.old aig.new places.old places.new (weight_at self.now.net place.1) }
    {
        let net = self.net();
        net.keeps();
        self.keeps();
        match net.driver(Signal(place.1)) {
            Driver::Input(i) => {
                let number = self.order()[i as usize];
                variable(aig, places, number, self.cap() - place.0)
            }
            Driver::Gate(j) => gate_literal(alloc, net, self.memo(), aig, place.0, j),
            Driver::Latch(j) => marked(aig, self.met((place.0 - 1, latch_of(net, j).next.0))),
        }
    }
}
