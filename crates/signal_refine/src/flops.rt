//! Two nets' latches, as runs see them.

ghost use Rattle.std.specs.Prelude.{◌<◌};
ghost use Rattle.signal_refine.specs.Places.{places_of};

use crate::nets::SignalNets;
use aig::Lit;
use flat_net::Driver;
use sec_base::{Init, NoMemory};
use std::alloc::Global;
use tie_candidates::Flop;

/// The latches of both nets, whose variables stand behind the first so many, where signals have these literals.
pub(crate) fn flops_of(
    alloc: Global,
    nets: &SignalNets<'_>,
    lits: &[Lit],
    first: u32,
) -> Result<Vec<Flop>, NoMemory> {
    let mut flops = Vec::new(alloc);
    for place in 0..nets.places() {
        if let Some(flop) = flop_at(nets, lits, first, place) {
            flops.push(flop)?;
        }
    }
    Ok(flops)
}

/// The latch at the place, if there is one.
fn flop_at(nets: &SignalNets<'_>, lits: &[Lit], first: u32, place: usize) -> Option<Flop>
    requires { place < places_of nets.now }
{
    nets.left.keeps();
    nets.right.keeps();
    let spot = nets.spot(place);
    let Driver::Latch(j) = spot.net.driver(spot.signal) else {
        return None;
    };
    let latch = spot.net.latches().get(j as usize)?;
    let next = lits.get(spot.offset.saturating_add(latch.next.0 as usize))?;
    Some(Flop {
        variable: first.saturating_add(place.min(1 << 30) as u32),
        init: bit_of(latch.init),
        next: *next,
    })
}

/// The initial value, if it is one.
fn bit_of(init: Init) -> Option<bool> {
    match init {
        Init::Zero => Some(false),
        Init::One => Some(true),
        _ => None,
    }
}
