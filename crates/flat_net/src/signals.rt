//! Signals and short lists of them.

ghost use Rattle.std.specs.Prelude.{◌≡◌, List, [], ◌∷◌, ◌++◌, length, OnOk, OnErr, IfOk};

use sec_base::NoMemory;
use std::alloc::Global;
use std::marker::Model;

/// A signal of a net, by its number.
#[derive(Clone, Copy)]
pub struct Signal(pub u32);

/// A list of signals. A contract sees it as the list.
#[derive(Drop)]
pub struct Signals {
    items: Vec<Signal>,
}

impl Model for Signals {
    ghost use Rattle.std.specs.Prelude.{List};
    ghost use Rattle.flat_net.specs.declared.signals.Signal.{Signal};

    ghost Value = { List Signal };

    ghost view = { λ s. s.items.items };
}

impl Signals {
    /// The empty list. It takes no memory.
    pub fn new(alloc: Global) -> Signals
        ensures { result ≡ [] }
    {
        Signals {
            items: Vec::new(alloc),
        }
    }

    /// Puts the signal last. After `NoMemory` nothing has changed.
    pub fn push(&mut self, item: Signal) -> Result<(), NoMemory>
        ensures ok { OnOk result (self.new ≡ self.old ++ item ∷ []) }
        ensures err { OnErr result (self.new ≡ self.old) }
    {
        self.items.push(item)?;
        Ok(())
    }

    /// How many signals there are.
    pub fn len(&self) -> usize
        ensures { result ≡ length self.now }
    {
        self.items.len()
    }

    /// The signals as a slice.
    pub fn as_slice(&self) -> &[Signal]
        ensures { result.now ≡ self.now }
    {
        self.items.as_slice()
    }

    /// An equal list.
    pub fn copy(&self) -> Result<Signals, NoMemory>
        ensures { IfOk result (λ made. made ≡ self.now) }
    {
        Ok(Signals {
            items: Vec::from_slice(*self.items.allocator(), self.items.as_slice())?,
        })
    }
}
