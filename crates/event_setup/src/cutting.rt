//! Nets with the chosen latches cut out, and which of the latches that are left are enabled.

ghost use Rattle.std.specs.Prelude.{◌<◌, length, All, Contains, IfOk};
ghost use Rattle.std.specs.List.{AllZip};
ghost use Rattle.base_tables.specs.Table.{AreDistinct};
ghost use Rattle.flat_net.specs.declared.parts.LatchAt.{LatchAt};
ghost use Rattle.event_setup.specs.Choosing.{AreOpened};
ghost use Rattle.event_setup.specs.Cutting.{AreMarkedCuts, HasBit, IsMarkedCut};
ghost use Rattle.event_setup.specs.Recovered.{AreBothMarked, AreMarked};

use crate::enables::EnabledLatches;
use flat_net::{LatchAt, Net};
use sec_base::{Bits, Ids, NoMemory};
use sec_setup::cut_points::Exposure;
use std::alloc::Global;

/// A net, and which of its latches are enabled: a bit for each.
#[derive(Drop)]
pub(crate) struct MarkedNet {
    pub(crate) net: Net,
    pub(crate) enabled: Bits,
}

/// Both nets with the chosen latches cut out.
#[derive(Drop)]
pub(crate) struct CutNets {
    pub(crate) left: MarkedNet,
    pub(crate) right: MarkedNet,
}

/// Cuts the chosen latches out of both nets. Each latch that is left keeps its bit.
pub(crate) fn cut_both(
    alloc: Global,
    a: &Net,
    b: &Net,
    enabled: &EnabledLatches,
    exposure: &Exposure,
) -> Result<CutNets, NoMemory>
    requires marked { AreBothMarked a.now b.now enabled.now }
    requires opened { AreOpened a.now b.now exposure.now }
    ensures { IfOk result (AreMarkedCuts a.now b.now exposure.now) }
{
    let left = cut_net(alloc, a, &enabled.left, &exposure.left)?;
    let right = cut_net(alloc, b, &enabled.right, &exposure.right)?;
    Ok(CutNets { left, right })
}

/// Cuts the latches at these positions out of the net. Each latch that is left keeps its bit.
fn cut_net(alloc: Global, net: &Net, enabled: &Bits, positions: &Ids) -> Result<MarkedNet, NoMemory>
    requires marked { AreMarked net.now enabled.now }
    requires within { All (λ j. j < length net.now.latches) positions.now }
    requires distinct { AreDistinct positions.now }
    ensures { IfOk result (λ m. IsMarkedCut net.now positions.now m.net m.enabled) }
{
    net.keeps();
    let cut = net.cut(alloc, positions)?;
    let enabled = bits_left(alloc, net, enabled, &cut)?;
    Ok(MarkedNet { net: cut, enabled })
}

/// The bits of the latches that are left in the cut net, by those of the net's latches.
fn bits_left(alloc: Global, net: &Net, enabled: &Bits, cut: &Net) -> Result<Bits, NoMemory>
    requires marked { AreMarked net.now enabled.now }
    requires left { (l : LatchAt) → Contains cut.now.latches l → Contains net.now.latches l }
    ensures { IfOk result (AllZip (HasBit net.now) cut.now.latches) }
{
    let mut bits = Bits::new(alloc);
    for latch in cut.latches() {
        bits.push(is_enabled(net, enabled, latch))?;
    }
    Ok(bits)
}

/// Whether this latch of the net is enabled.
fn is_enabled(net: &Net, enabled: &Bits, latch: &LatchAt) -> bool
    requires marked { AreMarked net.now enabled.now }
    requires stands { Contains net.now.latches latch.now }
    ensures { HasBit net.now latch.now result }
{
    net.keeps();
    let Some(position) = net.latch_named(latch.name.as_slice()) else {
        unreachable!()
    };
    enabled.as_slice()[position as usize]
}
