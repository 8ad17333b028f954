//! The table of keys with their numbers.

ghost use Rattle.std.specs.Prelude.{◌≡◌, ℕ, ◌+◌, ◌^◌, ◌<◌, List, [], ◌∷◌, ◌++◌, length, slice_get, Some, Contains, IfSome, IfNone, IfOk, OnOk, OnErr};
ghost use Rattle.base_tables.specs.unique_table.Places.{StandOnce, IsWith};

use crate::unique_table::key::Key;
use crate::unique_table::search::{filled, free_place, number_of};
use base_lists::NoMemory;
use std::alloc::Global;
use std::marker::Model;

/// The least places of a table that has keys.
const LEAST: usize = 16;

/// Keys in the order in which they first came, each at the number of its place. A contract sees the list of keys.
pub struct UniqueTable<K: Key> {
    keys: Vec<K>,
    /// At each place one more than the number of a key, or 0.
    slots: Vec<u32>,
    /// At how many places a key is looked for.
    tries: u32,
}

/// It is let go by one call: an owner isn't taken apart field by field at each way out.
impl<K: Key> Drop for UniqueTable<K> {
    fn drop(self) {
        let UniqueTable {
            keys: _,
            slots: _,
            tries: _,
        } = self;
    }
}

impl<K: Key> Model for UniqueTable<K> {
    ghost use Rattle.std.specs.Prelude.{List};
    ghost use Rattle.base_tables.specs.unique_table.Places.{IsTable};

    ghost Value = { List K };

    ghost view = { λ t. t.keys.items };

    ghost invariant = { λ t. IsTable K.place_at t.tries t.keys.items t.slots.items };
}

impl<K: Key> UniqueTable<K> {
    /// The table without keys, where a key is looked for at no more places than `tries`. It takes no memory.
    pub fn new(alloc: Global, tries: u32) -> UniqueTable<K>
        ensures { result ≡ [] }
    {
        UniqueTable {
            keys: Vec::new(alloc),
            slots: Vec::new(alloc),
            tries,
        }
    }

    /// How many keys there are.
    pub fn len(&self) -> u32
        ensures { result ≡ length self.now }
    {
        self.keys.len() as u32
    }

    /// Tells a proof that no key stands twice, and that there are few. It does nothing.
    pub fn keeps(&self)
        ensures once { StandOnce self.now }
        ensures few { length self.now < 2 ^ 32 }
    {
        let _ = &self.keys;
    }

    /// The keys in their order.
    pub fn as_slice(&self) -> &[K]
        ensures { result.now ≡ self.now }
    {
        self.keys.as_slice()
    }

    /// The key with this number.
    pub fn key(&self, number: u32) -> K
        requires { number < length self.now }
        ensures { slice_get self.now number ≡ Some result }
    {
        self.keys[number as usize]
    }

    /// The key's number; None exactly where it isn't in the table.
    pub fn find(&self, key: K) -> Option<u32>
        ensures here { IfSome result (λ number. slice_get self.now number ≡ Some key) }
        ensures absent { IfNone result (Contains self.now key → ⊥) }
    {
        number_of(self.keys.as_slice(), self.slots.as_slice(), self.tries, key)
    }

    /// The key's number. A new key goes last. After `NoMemory` nothing has changed: it comes where memory was wanted, where none of
    /// the places that are looked at is free, and from a table that has 2^32 - 1 keys.
    pub fn insert(&mut self, key: K) -> Result<u32, NoMemory>
        ensures here { IfOk result (λ number. slice_get self.new number ≡ Some key) }
        ensures ok { OnOk result (IsWith self.old key self.new) }
        ensures err { OnErr result (self.new ≡ self.old) }
    {
        match self.find(key) {
            Some(number) => Ok(number),
            None => self.put(key),
        }
    }

    /// Puts a new key last and gives its number. After `NoMemory`, which comes as from `insert`, nothing has changed.
    pub fn put(&mut self, key: K) -> Result<u32, NoMemory>
        requires { Contains self.old key → ⊥ }
        ensures here { IfOk result (λ number. slice_get self.new number ≡ Some key) }
        ensures ok { OnOk result (self.new ≡ self.old ++ key ∷ []) }
        ensures err { OnErr result (self.new ≡ self.old) }
    {
        if self.len() == u32::MAX {
            return Err(NoMemory);
        }
        self.make_room()?;
        self.put_free(key)
    }

    /// Doubles the places where half of them are taken.
    fn make_room(&mut self) -> Result<(), NoMemory>
        ensures { self.new ≡ self.old }
    {
        let len = self.slots.len();
        if self.keys.len() >= len / 2 {
            let len = len.saturating_mul(2).max(LEAST);
            let alloc = *self.keys.allocator();
            let slots = filled(alloc, self.keys.as_slice(), self.tries, len)?;
            self.slots = slots;
        }
        Ok(())
    }

    /// Puts a new key last, if there is a free place for its number.
    fn put_free(&mut self, key: K) -> Result<u32, NoMemory>
        requires new { Contains self.old key → ⊥ }
        requires room { length self.old + 1 < 2 ^ 32 }
        ensures here { IfOk result (λ number. slice_get self.new number ≡ Some key) }
        ensures ok { OnOk result (self.new ≡ self.old ++ key ∷ []) }
        ensures err { OnErr result (self.new ≡ self.old) }
    {
        let Some(place) = free_place(self.slots.as_slice(), self.tries, key) else {
            return Err(NoMemory);
        };
        let number = self.keys.len() as u32;
        self.keys.push(key)?;
        self.slots[place] = number + 1;
        Ok(number)
    }
}
