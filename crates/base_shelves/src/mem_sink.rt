//! A sink in memory.

ghost use Rattle.std.specs.Prelude.{◌≡◌, ◌≢◌, ◌+◌, ◌-◌, ◌≤◌, ◌↔◌, min, [], ◌++◌, length, take, vec_len, vec_capacity, Some, IsTrue, IsOk, IfOk, OnOk, OnErr};
ghost use Rattle.base_shelves.specs.Outside.{Rose, Takes, TakesFront};
ghost use Rattle.base_shelves.specs.MemSink.{Accepts, next_write};

use crate::sinks::{Failed, Sink};
use base_lists::NoMemory;
use std::alloc::Global;
use std::marker::Model;

/// A sink with room for some bytes in all. Write number `fail_at`, counted from 1, takes at most `keep` bytes and
/// fails; a write past the room takes what fits and fails.
#[derive(Drop)]
pub struct MemSink {
    bytes: Vec<u8>,
    room: usize,
    fail_at: Option<u32>,
    keep: usize,
    calls: u64,
    faults: u64,
}

impl Model for MemSink {
    ghost use Rattle.std.specs.Prelude.{◌≤◌, length, vec_capacity};
    ghost use Rattle.base_shelves.specs.MemSink.{SinkState};

    ghost Value = { SinkState };

    ghost view = { λ s. record { taken = s.bytes.items; room = s.room; fail_at = s.fail_at; keep = s.keep; calls = s.calls; faults = s.faults } };

    ghost invariant = { λ s. (length s.bytes.items ≤ s.room) × (s.room ≤ vec_capacity s.bytes) };
}

impl MemSink {
    /// The sink that has taken nothing. All its memory is taken here; its writes take none.
    pub fn new(
        alloc: Global,
        room: usize,
        fail_at: Option<u32>,
        keep: usize,
    ) -> Result<MemSink, NoMemory>
        ensures { IfOk result (λ sink. sink ≡ record { taken = []; room = room; fail_at = fail_at; keep = keep; calls = 0; faults = 0 }) }
    {
        Ok(MemSink {
            bytes: Vec::with_capacity(alloc, room)?,
            room,
            fail_at,
            keep,
            calls: 0,
            faults: 0,
        })
    }

    /// The bytes taken so far.
    pub fn taken(&self) -> &[u8]
        ensures { result.now ≡ self.now.taken }
    {
        self.bytes.as_slice()
    }
}

impl Sink for MemSink {
    ghost use Rattle.std.specs.Prelude.{Some};
    ghost use Rattle.base_shelves.specs.MemSink.{Accepts};

    ghost taken = { λ s. Some s.taken };

    ghost faults = { λ s. s.faults };

    ghost accepts = { Accepts };

    fn write(&mut self, piece: &[u8]) -> Result<(), Failed>
        // What each sink keeps.
        ensures ok { OnOk result (Takes (Some self.old.taken) (Some self.new.taken) piece.now) }
        ensures err { OnErr result (TakesFront (Some self.old.taken) (Some self.new.taken) piece.now) }
        ensures later { self.old.faults ≤ self.new.faults }
        ensures cause { OnErr result (Rose self.old.faults self.new.faults) }
        ensures accepted { Accepts self.old piece.now → IsOk result }

        // It takes the whole piece exactly where there is room and the write isn't told to fail.
        ensures written { IsOk result ↔ Accepts self.old piece.now }
        ensures told { self.old.fail_at ≡ Some (next_write self.old) → self.new.taken ≡ self.old.taken ++ take (min self.old.keep (self.old.room - length self.old.taken)) piece.now }
        ensures untold { self.old.fail_at ≢ Some (next_write self.old) → self.new.taken ≡ self.old.taken ++ take (self.old.room - length self.old.taken) piece.now }
        ensures same { self.new ≡ record self.old { taken = self.new.taken; calls = next_write self.old; faults = self.new.faults } }
    {
        self.calls = self.calls.saturating_add(1);
        let told = is_told(self.fail_at, self.calls);
        let left = self.room - self.bytes.len();
        let most = if told { self.keep.min(left) } else { left };
        take_front(&mut self.bytes, piece, most);
        if told || left < piece.len() {
            self.faults = self.faults.saturating_add(1);
            return Err(Failed);
        }
        Ok(())
    }
}

fn is_told(fail_at: Option<u32>, number: u64) -> bool
    ensures { IsTrue result ↔ (fail_at ≡ Some number) }
{
    match fail_at {
        Some(told) => u64::from(told) == number,
        None => false,
    }
}

/// Puts at most so many bytes of the piece behind the others. There is room for them.
fn take_front(bytes: &mut Vec<u8>, piece: &[u8], most: usize)
    requires { vec_len bytes.old + most ≤ vec_capacity bytes.old }
    ensures taken { bytes.new.items ≡ bytes.old.items ++ take most piece.now }
    ensures room { vec_capacity bytes.old ≤ vec_capacity bytes.new }
{
    let count = piece.len().min(most);
    if bytes.extend_from_slice(&piece[..count]).is_err() {
        unreachable!();
    }
}
