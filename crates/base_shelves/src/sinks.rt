//! Where a report is written.

ghost use Rattle.std.specs.Prelude.{◌≤◌, ℕ, List, Option, None, OnOk, OnErr, IsOk};
ghost use Rattle.base_shelves.specs.Outside.{Rose, Takes, TakesFront};

/// A read or a write of the outside failed.
#[derive(Clone, Copy)]
pub struct Failed;

/// A place that takes bytes.
pub trait Sink {
    /// The bytes taken so far, where they are told.
    ghost taken: { Self → Option (List ℕ) };

    /// The count of faults. It never falls.
    ghost faults: { Self → ℕ };

    /// That a write of this piece doesn't fail now. A sink need not promise it.
    ghost accepts: { Self → List ℕ → Type 0 } = { λ _ _. ⊥ };

    /// Puts the piece behind what was taken. After `Failed` a front of it stands there; `Failed` comes only where
    /// the count of faults rose, or stands at the last value of u64.
    fn write(&mut self, piece: &[u8]) -> Result<(), Failed>
        ensures ok { OnOk result (Takes (taken self.old) (taken self.new) piece.now) }
        ensures err { OnErr result (TakesFront (taken self.old) (taken self.new) piece.now) }
        ensures later { faults self.old ≤ faults self.new }
        ensures cause { OnErr result (Rose (faults self.old) (faults self.new)) }
        ensures accepted { accepts self.old piece.now → IsOk result };
}

/// The standard output. It tells nothing of what it took.
#[derive(Drop)]
pub struct StdSink<'a, R: Print> {
    rt: &'a R,
    faults: u64,
}

impl<'a, R: Print> StdSink<'a, R> {
    /// The standard output of this runtime.
    pub fn new(rt: &'a R) -> StdSink<'a, R> {
        StdSink { rt, faults: 0 }
    }
}

impl<'a, R: Print> Sink for StdSink<'a, R> {
    ghost taken = { λ _. None };

    ghost faults = { λ s. s.faults };

    fn write(&mut self, piece: &[u8]) -> Result<(), Failed> {
        if self.rt.write_all(piece).is_err() {
            self.faults = self.faults.saturating_add(1);
            return Err(Failed);
        }
        Ok(())
    }
}
