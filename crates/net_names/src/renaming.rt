//! A net whose latches have other names.

ghost use Rattle.std.specs.Prelude.{◌≡◌, [], List, Some, IfOk, IfErr, OnOk};
ghost use Rattle.flat_net.specs.Sound.{IsSound};
ghost use Rattle.net_names.specs.Fronts.{named_by};
ghost use Rattle.net_names.specs.Laid.{IsLaid};
ghost use Rattle.net_names.specs.NewNames.{AreNewNames};
ghost use Rattle.net_names.specs.Pairs.{RenameFails};
ghost use Rattle.net_names.specs.Renamed.{IsRenamed, RenamingKeepsRuns};
ghost use Rattle.net_names.specs.declared.latch_pairs.LatchPair.{LatchPair};

use crate::copying::{Original, add_clock, add_signals};
use crate::laid::is_laid;
use crate::latch_pairs::LatchPairs;
use crate::new_names::new_names;
use flat_net::{NameTable, Net, NetMaker, NoMemory};
use std::alloc::Global;

/// Why the latches of a net don't get their new names.
#[derive(Clone, Copy)]
pub enum RenameError {
    /// The first name of this line is one of an input, or of another latch once all have their new names.
    Taken(u32),
    /// The signals don't stand in the order of the inputs, then the latches, then the gates.
    Order,
    /// Memory was wanted and couldn't be had.
    NoMemory,
}

impl From<NoMemory> for RenameError {
    ghost use Rattle.net_names.specs.declared.renaming.RenameError.TheVariants.{NoMemory};

    ghost from_gives = { λ _ e. e ≡ NoMemory };

    fn from(_error: NoMemory) -> RenameError {
        RenameError::NoMemory
    }
}

/// A circuit under other names has the same runs.
pub fn renaming_keeps_runs()
    ensures { RenamingKeepsRuns }
{}

/// Shows the outputs of the net.
fn add_all_outputs(maker: &mut NetMaker, net: &Net) -> Result<(), NoMemory>
    requires drivers { maker.old.net.drivers ≡ net.now.drivers }
    requires none { maker.old.net.outputs ≡ [] }
    ensures { OnOk result (maker.new ≡ record maker.old { net = record maker.old.net { outputs = net.now.outputs } }) }
{
    net.keeps();
    for port in net.outputs() {
        maker.output(port.name.as_slice(), port.signal)?;
    }
    Ok(())
}

/// The copy whose signals have these names.
fn copy_under(alloc: Global, net: &Net, names: &NameTable) -> Result<Net, NoMemory>
    requires sound { IsSound (named_by (Some names.now) net.now) }
    requires laid { IsLaid net.now }
    requires named { IsLaid (named_by (Some names.now) net.now) }
    ensures { IfOk result (λ made. (ps : List LatchPair) → AreNewNames ps net.now names.now → IsRenamed ps net.now made) }
{
    net.keeps();
    let mut maker = NetMaker::new(alloc);
    add_signals(&mut maker, &Original::with_names(net, names))?;
    add_all_outputs(&mut maker, net)?;
    add_clock(alloc, &mut maker, net)?;
    Ok(maker.finish())
}

/// The net whose latches have the names of those that they are paired with, all at once: the net is B, and the first name of a pair
/// is that of A's latch. `Taken` comes where two inputs or latches would have one name; a gate's signal gives way. `Order`
/// comes where the signals don't stand in the order of the inputs, then the latches, then the gates, as they do in each net that is
/// read from a file.
pub fn rename_latches(alloc: Global, net: &Net, pairs: &LatchPairs) -> Result<Net, RenameError>
    ensures ok { IfOk result (IsRenamed pairs.now net.now) }
    ensures err { IfErr result (RenameFails net.now pairs.now) }
{
    if !is_laid(net) {
        return Err(RenameError::Order);
    }
    net.keeps();
    let names = new_names(alloc, net, pairs)?;
    Ok(copy_under(alloc, net, &names)?)
}
