//! A copy of a net, signal by signal: its inputs, then its latches, then its gates.

ghost use Rattle.std.specs.Prelude.{◌≡◌, ◌+◌, ◌<◌, true, [], Some, None, length, map, slice_get, All, OnOk};
ghost use Rattle.flat_net.specs.Sound.{IsSound};
ghost use Rattle.net_names.specs.Laid.{IsLaid};
ghost use Rattle.net_names.specs.Fronts.{front, with_gates, named_by, unnamed};

use flat_net::{Cover, Gate, LatchAt, NameTable, Net, NetMaker, NoMemory, Port, Seq, Signal};
use std::alloc::Global;
use std::marker::Model;

/// Why a net isn't copied.
#[derive(Clone, Copy)]
pub enum CopyError {
    /// The signals don't stand in the order of the inputs, then the latches, then the gates.
    Order,
    /// Memory was wanted and couldn't be had.
    NoMemory,
}

impl From<NoMemory> for CopyError {
    ghost use Rattle.net_names.specs.declared.copying.CopyError.TheVariants.{NoMemory};

    ghost from_gives = { λ _ e. e ≡ NoMemory };

    fn from(_error: NoMemory) -> CopyError {
        CopyError::NoMemory
    }
}

/// A net that is to be copied, and other names for its signals where there are some. A contract sees the net under these names.
#[derive(Drop)]
pub(crate) struct Original<'a> {
    net: &'a Net,
    names: Option<&'a NameTable>,
}

impl<'a> Model for Original<'a> {
    ghost use Rattle.std.specs.Prelude.{option_map};
    ghost use Rattle.flat_net.specs.View.{NetView};
    ghost use Rattle.flat_net.specs.Sound.{IsSound};
    ghost use Rattle.net_names.specs.Laid.{IsLaid};
    ghost use Rattle.net_names.specs.Fronts.{named_by};

    ghost Value = { NetView };

    ghost view = { λ o. named_by (option_map (λ t. t.now) o.names) o.net.now };

    ghost invariant = { λ o. IsSound (named_by (option_map (λ t. t.now) o.names) o.net.now) × IsLaid (named_by (option_map (λ t. t.now) o.names) o.net.now) };
}

impl<'a> Original<'a> {
    /// The net under its own names.
    pub(crate) fn new(net: &'a Net) -> Original<'a>
        requires { IsLaid net.now }
        ensures { result ≡ net.now }
    {
        net.keeps();
        Original { net, names: None }
    }

    /// The net whose signals have these names.
    pub(crate) fn with_names(net: &'a Net, names: &'a NameTable) -> Original<'a>
        requires sound { IsSound (named_by (Some names.now) net.now) }
        requires laid { IsLaid (named_by (Some names.now) net.now) }
        ensures { result ≡ named_by (Some names.now) net.now }
    {
        Original {
            net,
            names: Some(names),
        }
    }

    /// Tells a proof what is kept. It does nothing.
    fn keeps(&self)
        ensures sound { IsSound self.now }
        ensures laid { IsLaid self.now }
    {
        let _ = &self.net;
    }

    fn inputs(&self) -> &[Port]
        ensures { result.now ≡ self.now.inputs }
    {
        self.net.inputs()
    }

    fn gates(&self) -> &[Gate]
        ensures { result.now ≡ self.now.gates }
    {
        self.net.gates()
    }

    /// The latches, which may have other names there.
    fn latches(&self) -> &[LatchAt]
        ensures { map unnamed result.now ≡ map unnamed self.now.latches }
    {
        self.net.latches()
    }

    fn cover(&self, id: u32) -> &Cover
        requires { id < length self.now.covers }
        ensures { slice_get self.now.covers id ≡ Some result.now }
    {
        self.net.cover(id)
    }

    fn name(&self, s: Signal) -> &[u8]
        requires { s.0 < length self.now.drivers }
        ensures { slice_get self.now.names s.0 ≡ Some result.now }
    {
        self.keeps();
        match self.names {
            Some(names) => names.name(s.0),
            None => self.net.name(s),
        }
    }
}

/// Puts the inputs into a net without signals.
fn add_inputs(maker: &mut NetMaker, original: &Original<'_>) -> Result<(), NoMemory>
    requires { maker.old.net ≡ front original.now 0 0 0 0 }
    ensures { OnOk result (maker.new.net ≡ front original.now (length original.now.inputs) 0 0 (length original.now.inputs)) }
{
    original.keeps();
    for port in original.inputs() {
        maker.input(port.name.as_slice())?;
    }
    Ok(())
}

/// Puts the latches behind the inputs. Each takes over itself until its next is set.
fn add_latches(maker: &mut NetMaker, original: &Original<'_>) -> Result<(), NoMemory>
    requires { maker.old.net ≡ front original.now (length original.now.inputs) 0 0 (length original.now.inputs) }
    ensures { OnOk result (maker.new.net ≡ front original.now (length original.now.inputs) (length original.now.latches) 0 (length original.now.inputs + length original.now.latches)) }
{
    original.keeps();
    for latch in original.latches() {
        maker.latch(original.name(latch.out), latch.init)?;
    }
    Ok(())
}

/// Puts the gate of this number behind the others, with a cover of its own.
fn add_gate(maker: &mut NetMaker, original: &Original<'_>, k: u32) -> Result<(), NoMemory>
    requires gate { k < length original.now.gates }
    requires made { maker.old.net ≡ with_gates original.now k }
    ensures { OnOk result (maker.new.net ≡ with_gates original.now (k + 1)) }
{
    original.keeps();
    let gate = &original.gates()[k as usize];
    let name = original.name(gate.out);
    let cover = maker.cover(original.cover(gate.cover).copy()?)?;
    maker.gate(name, gate.fanins.copy()?, cover)?;
    Ok(())
}

/// Puts the gates behind the latches.
fn add_gates(maker: &mut NetMaker, original: &Original<'_>) -> Result<(), NoMemory>
    requires { maker.old.net ≡ with_gates original.now 0 }
    ensures { OnOk result (maker.new.net ≡ with_gates original.now (length original.now.gates)) }
{
    original.keeps();
    for k in 0..original.gates().len() as u32 {
        add_gate(maker, original, k)?;
    }
    Ok(())
}

/// Sets what each latch takes over, where all signals stand.
fn set_nexts(maker: &mut NetMaker, original: &Original<'_>)
    requires { maker.old.net ≡ with_gates original.now (length original.now.gates) }
    ensures net { maker.new.net ≡ record maker.old.net { latches = original.now.latches } }
    ensures set { All (λ set. set ≡ true) maker.new.set }
{
    original.keeps();
    maker.keeps();
    for latch in original.latches() {
        maker.set_next(latch.out, latch.next);
    }
}

/// Puts all signals of the net into a net without signals.
pub(crate) fn add_signals(maker: &mut NetMaker, original: &Original<'_>) -> Result<(), NoMemory>
    requires { maker.old.net ≡ front original.now 0 0 0 0 }
    ensures net { OnOk result (maker.new.net ≡ record (with_gates original.now (length original.now.gates)) { latches = original.now.latches }) }
    ensures set { OnOk result (All (λ set. set ≡ true) maker.new.set) }
{
    add_inputs(maker, original)?;
    add_latches(maker, original)?;
    add_gates(maker, original)?;
    set_nexts(maker, original);
    Ok(())
}

/// Gives the net under construction the net's clock, where it has one.
pub(crate) fn add_clock(alloc: Global, maker: &mut NetMaker, net: &Net) -> Result<(), NoMemory>
    requires { maker.old.net.clock ≡ None }
    ensures { OnOk result (maker.new ≡ record maker.old { net = record maker.old.net { clock = net.now.clock } }) }
{
    if let Some(name) = net.clock() {
        maker.set_clock(Seq::from_vec(name.to_vec(alloc)?));
    }
    Ok(())
}
