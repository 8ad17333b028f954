//! A net under construction.

ghost use Rattle.std.specs.Prelude.{◌≡◌, ◌+◌, ◌^◌, ◌<◌, ℕ, true, false, [], ◌∷◌, ◌++◌, length, slice_get, slice_set, Some, All, IfOk, IfSome, is_some, IsSomeAnd, OnOk, OnErr};
ghost use Rattle.base_tables.specs.Table.{is_among};
ghost use Rattle.flat_net.specs.Sound.{IsSound};
ghost use Rattle.flat_net.specs.Makes.{MakerView, empty_net, with_input, with_latch, with_gate, with_cover, with_output, with_next, with_clock};

use crate::net::{Net, push_within};
use crate::parts::Driver;
use crate::signals::{Signal, Signals};
use sec_base::{Cover, Init, NoMemory, Seq, Word};
use std::alloc::Global;
use std::marker::Model;

/// A net under construction. A latch takes over itself until its next is set. A contract sees the net so far, and for
/// each latch whether its next was set.
#[derive(Drop)]
pub struct NetMaker {
    net: Net,
    set: Vec<bool>,
    alloc: Global,
}

impl Model for NetMaker {
    ghost use Rattle.std.specs.Prelude.{◌≡◌, length};
    ghost use Rattle.flat_net.specs.Makes.{MakerView};

    ghost Value = { MakerView };

    ghost view = { λ m. record { net = m.net; set = m.set.items } };

    ghost invariant = { λ m. length m.set.items ≡ length m.net.latches };
}

impl NetMaker {
    /// The net without signals. It takes no memory.
    pub fn new(alloc: Global) -> NetMaker
        ensures { result ≡ record { net = empty_net; set = [] } }
    {
        NetMaker {
            net: Net::empty(alloc),
            set: Vec::new(alloc),
            alloc,
        }
    }

    /// Tells a proof what each net under construction keeps. It does nothing.
    pub fn keeps(&self)
        ensures sound { IsSound self.now.net }
        ensures set { length self.now.set ≡ length self.now.net.latches }
    {
        self.net.keeps();
    }

    /// Whether a signal has the name.
    pub fn has(&self, name: &[u8]) -> bool
        ensures { result ≡ is_among self.now.net.names name.now }
    {
        self.net.has_name(name)
    }

    /// The signal of the name; None exactly where no signal has it.
    pub fn find(&self, name: &[u8]) -> Option<Signal>
        ensures here { IfSome result (λ s. slice_get self.now.net.names s.0 ≡ Some name.now) }
        ensures found { is_some result ≡ is_among self.now.net.names name.now }
    {
        match self.net.signal_named(name) {
            Some(signal) => Some(Signal(signal)),
            None => None,
        }
    }

    /// A new signal that an input drives. After `NoMemory` nothing has changed.
    pub fn input(&mut self, name: &[u8]) -> Result<Signal, NoMemory>
        requires room { length self.old.net.drivers + 1 < 2 ^ 32 }
        requires new { is_among self.old.net.names name.now ≡ false }
        ensures signal { IfOk result (λ s. s.0 ≡ length self.old.net.drivers) }
        ensures ok { OnOk result (self.new ≡ record self.old { net = with_input self.old.net name.now }) }
        ensures err { OnErr result (self.new ≡ self.old) }
    {
        let name_kept = Seq::from_vec(name.to_vec(self.alloc)?);
        self.net.add_input(self.alloc, name, name_kept)
    }

    /// A new signal that a latch drives, whose next is to be set. After `NoMemory` nothing has changed.
    pub fn latch(&mut self, name: &[u8], init: Init) -> Result<Signal, NoMemory>
        requires room { length self.old.net.drivers + 1 < 2 ^ 32 }
        requires new { is_among self.old.net.names name.now ≡ false }
        ensures signal { IfOk result (λ s. s.0 ≡ length self.old.net.drivers) }
        ensures ok { OnOk result (self.new ≡ record { net = with_latch self.old.net name.now init; set = self.old.set ++ false ∷ [] }) }
        ensures err { OnErr result (self.new ≡ self.old) }
    {
        self.set.reserve(1)?;
        let name_kept = Seq::from_vec(name.to_vec(self.alloc)?);
        let signal = self.net.add_latch(self.alloc, name, name_kept, init)?;
        push_within(&mut self.set, false);
        Ok(signal)
    }

    /// A new number for the cover. After `NoMemory` nothing has changed.
    pub fn cover(&mut self, cover: Cover) -> Result<u32, NoMemory>
        requires { length self.old.net.covers + 1 < 2 ^ 32 }
        ensures number { IfOk result (λ id. id ≡ length self.old.net.covers) }
        ensures ok { OnOk result (self.new ≡ record self.old { net = with_cover self.old.net cover }) }
        ensures err { OnErr result (self.new ≡ self.old) }
    {
        self.net.add_cover(cover)
    }

    /// A new signal that a gate drives. After `NoMemory` nothing has changed.
    pub fn gate(&mut self, name: &[u8], fanins: Signals, cover: u32) -> Result<Signal, NoMemory>
        requires room { length self.old.net.drivers + 1 < 2 ^ 32 }
        requires new { is_among self.old.net.names name.now ≡ false }
        requires within { All (λ f. f.0 < length self.old.net.drivers) fanins }
        requires fits { IsSomeAnd (slice_get self.old.net.covers cover) (λ c. c.width ≡ length fanins) }
        ensures signal { IfOk result (λ s. s.0 ≡ length self.old.net.drivers) }
        ensures ok { OnOk result (self.new ≡ record self.old { net = with_gate self.old.net name.now fanins cover }) }
        ensures err { OnErr result (self.new ≡ self.old) }
    {
        self.net.add_gate(self.alloc, name, fanins, cover)
    }

    /// Sets what the latch takes over. The first signal is a latch's.
    pub fn set_next(&mut self, latch: Signal, next: Signal)
        requires latch { (j : ℕ) × (slice_get self.old.net.drivers latch.0 ≡ Some (Driver.Latch j)) }
        requires within { next.0 < length self.old.net.drivers }
        ensures { (j : ℕ) → slice_get self.old.net.drivers latch.0 ≡ Some (Driver.Latch j) → self.new ≡ record { net = with_next self.old.net j next; set = slice_set self.old.set j true } }
    {
        let j = self.net.put_next(latch, next);
        self.set[j as usize] = true;
    }

    /// Shows the signal as an output. After `NoMemory` nothing has changed.
    pub fn output(&mut self, name: &[u8], s: Signal) -> Result<(), NoMemory>
        requires { s.0 < length self.old.net.drivers }
        ensures ok { OnOk result (self.new ≡ record self.old { net = with_output self.old.net name.now s }) }
        ensures err { OnErr result (self.new ≡ self.old) }
    {
        self.net.add_output(self.alloc, name, s)
    }

    /// Gives the net a clock of this name.
    pub fn set_clock(&mut self, name: Word)
        ensures { self.new ≡ record self.old { net = with_clock self.old.net name } }
    {
        self.net.put_clock(name);
    }

    /// The net. It takes no memory.
    pub fn finish(self) -> Net
        requires { All (λ set. set ≡ true) self.set }
        ensures { result ≡ self.net }
    {
        self.net
    }
}
