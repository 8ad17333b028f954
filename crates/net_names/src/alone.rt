//! The net with the outputs of one name alone, or without those of some names.

ghost use Rattle.std.specs.Prelude.{◌≡◌, [], bytes_eq, IfOk, OnOk};
ghost use Rattle.std.specs.List.{filter};
ghost use Rattle.net_names.specs.Alone.{passes, IsShowing, IsAlone, IsWithout, shows_output};
ghost use Rattle.net_names.specs.Laid.{IsLaid};

use crate::copying::{CopyError, Original, add_clock, add_signals};
use crate::laid::is_laid;
use flat_net::{NameTable, Net, NetMaker, NoMemory};
use std::alloc::Global;

/// Whether some output has this name.
pub fn shows_output(net: &Net, name: &[u8]) -> bool
    ensures { result ≡ shows_output net.now name.now }
{
    for port in net.outputs() {
        if port.name.as_slice() == name {
            return true;
        }
    }
    false
}

/// Which outputs are to be shown.
#[derive(Clone, Copy)]
enum Outputs<'a> {
    /// Those of this name.
    Of(&'a [u8]),
    /// All but those of these names.
    AllBut(&'a NameTable),
}

impl Outputs<'_> {
    /// Whether an output of this name is.
    fn passes(&self, name: &[u8]) -> bool
        ensures { result ≡ passes self.now name.now }
    {
        match self {
            Outputs::Of(shown) => name == *shown,
            Outputs::AllBut(names) => !names.has(name),
        }
    }
}

/// Shows these outputs.
fn add_outputs(maker: &mut NetMaker, net: &Net, outputs: &Outputs<'_>) -> Result<(), NoMemory>
    requires drivers { maker.old.net.drivers ≡ net.now.drivers }
    requires none { maker.old.net.outputs ≡ [] }
    ensures { OnOk result (maker.new ≡ record maker.old { net = record maker.old.net { outputs = filter (λ port. passes outputs.now port.name) net.now.outputs } }) }
{
    net.keeps();
    for port in net.outputs() {
        if outputs.passes(port.name.as_slice()) {
            maker.output(port.name.as_slice(), port.signal)?;
        }
    }
    Ok(())
}

/// The copy with these outputs.
fn copy_of(alloc: Global, net: &Net, outputs: &Outputs<'_>) -> Result<Net, NoMemory>
    requires { IsLaid net.now }
    ensures { IfOk result (IsShowing (passes outputs.now) net.now) }
{
    net.keeps();
    let mut maker = NetMaker::new(alloc);
    add_signals(&mut maker, &Original::new(net))?;
    add_outputs(&mut maker, net, outputs)?;
    add_clock(alloc, &mut maker, net)?;
    Ok(maker.finish())
}

/// The net with its outputs of this name alone. `Order` comes where the signals don't stand in the order of the inputs, then the
/// latches, then the gates, as they do in each net that is read from a file.
pub fn only_output(alloc: Global, net: &Net, name: &[u8]) -> Result<Net, CopyError>
    ensures { IfOk result (IsAlone name.now net.now) }
{
    if !is_laid(net) {
        return Err(CopyError::Order);
    }
    Ok(copy_of(alloc, net, &Outputs::Of(name))?)
}

/// The net without its outputs of these names. `Order` comes as above.
pub fn without_outputs(alloc: Global, net: &Net, names: &NameTable) -> Result<Net, CopyError>
    ensures { IfOk result (IsWithout names.now net.now) }
{
    if !is_laid(net) {
        return Err(CopyError::Order);
    }
    Ok(copy_of(alloc, net, &Outputs::AllBut(names))?)
}
