//! The search for a key and for a free place.

ghost use Rattle.std.specs.Prelude.{◌≡◌, ℕ, ◌+◌, ◌-◌, ◌^◌, ◌<◌, length, slice_get, Some, Contains, IfSome, IfNone, IfOk};
ghost use Rattle.base_tables.specs.unique_table.Places.{IsTable, IsFree, StandOnce, place_in};

use crate::unique_table::key::Key;
use base_lists::NoMemory;
use std::alloc::Global;

/// The number of the key; None exactly where it isn't among the keys.
pub(crate) fn number_of<K: Key>(keys: &[K], slots: &[u32], tries: u32, key: K) -> Option<u32>
    requires { IsTable K.place_at tries keys.now slots.now }
    ensures here { IfSome result (λ number. slice_get keys.now number ≡ Some key) }
    ensures absent { IfNone result (Contains keys.now key → ⊥) }
{
    for step in 0..(tries as usize).min(slots.len()) {
        let slot = slots[place_in(key, slots.len(), step as u32)];
        if slot == 0 {
            return None;
        }
        if keys[slot as usize - 1].is(key) {
            return Some(slot - 1);
        }
    }
    None
}

/// The first free place in the search for the key.
pub(crate) fn free_place<K: Key>(slots: &[u32], tries: u32, key: K) -> Option<usize>
    ensures { IfSome result (IsFree (K.place_at key) tries slots.now) }
{
    for step in 0..(tries as usize).min(slots.len()) {
        let place = place_in(key, slots.len(), step as u32);
        if slots[place] == 0 {
            return Some(place);
        }
    }
    None
}

/// The place of a step of the search in a table of this length.
fn place_in<K: Key>(key: K, len: usize, step: u32) -> usize
    requires { 0 < len }
    ensures is { result ≡ place_in (K.place_at key) len step }
    ensures within { result < len }
{
    key.place(step) as usize & (len - 1)
}

/// A table of this length with the numbers of the keys.
pub(crate) fn filled<K: Key>(
    alloc: Global,
    keys: &[K],
    tries: u32,
    len: usize,
) -> Result<Vec<u32>, NoMemory>
    requires few { length keys.now < 2 ^ 32 }
    requires once { StandOnce keys.now }
    ensures { IfOk result (λ slots. IsTable K.place_at tries keys.now slots.items) }
{
    let mut slots: Vec<u32> = vec![in alloc; 0; len]?;
    for number in 0..keys.len() {
        let Some(place) = free_place(slots.as_slice(), tries, keys[number]) else {
            return Err(NoMemory);
        };
        slots[place] = number as u32 + 1;
    }
    Ok(slots)
}
