//! The positions of latches that are cut open, and the bits of the others.

ghost use Rattle.std.specs.Prelude.{◌≡◌, length, Contains, IfOk};
ghost use Rattle.flat_net.specs.declared.parts.LatchAt.{LatchAt};
ghost use Rattle.sec_setup.specs.ports.Pairing.{AreNamedAt};
ghost use Rattle.job_circuit.specs.replay.cut_sides.Opening.{AreBitsOf, AreNamesOf};

use base_tables::NameTable;
use flat_net::Net;
use sec_base::{Bits, Ids, NoMemory};
use std::alloc::Global;

/// The positions of the latches of these names. Each is a latch of the net.
pub(crate) fn positions_of(alloc: Global, net: &Net, names: &NameTable) -> Result<Ids, NoMemory>
    requires { AreNamesOf net.now names.now }
    ensures { IfOk result (AreNamedAt net.now names.now) }
{
    net.keeps();
    names.keeps();
    let mut positions = Ids::new(alloc);
    for id in 0..names.len() {
        let Some(position) = net.latch_named(names.name(id)) else {
            unreachable!()
        };
        positions.push(position)?;
    }
    Ok(positions)
}

/// The bits of the latches that are left in the cut net, by those of the net's latches.
pub(crate) fn bits_left(
    alloc: Global,
    net: &Net,
    enabled: &Bits,
    cut: &Net,
) -> Result<Bits, NoMemory>
    requires each { length enabled.now ≡ length net.now.latches }
    requires left { (l : LatchAt) → Contains cut.now.latches l → Contains net.now.latches l }
    ensures { IfOk result (AreBitsOf net.now enabled.now cut.now) }
{
    net.keeps();
    let enabled = enabled.as_slice();
    let mut bits = Bits::new(alloc);
    for latch in cut.latches() {
        let Some(position) = net.latch_named(latch.name.as_slice()) else {
            unreachable!()
        };
        bits.push(enabled[position as usize])?;
    }
    Ok(bits)
}
