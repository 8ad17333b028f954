//! The places that were met, with their literals.

ghost use Rattle.std.specs.Prelude.{◌≡◌, ◌≢◌, ◌<◌, ℕ, List, [], ◌∷◌, ◌++◌, IfSome, IfNone, OnOk, OnErr, Contains, map, length, slice_get, vec_len, vec_capacity, Some};
ghost use Rattle.std.specs.List.{AllPairs};
ghost use Rattle.aig.specs.declared.node.Lit.{Lit};

use crate::Lit;
use base_tables::UniqueTable;
use sec_base::NoMemory;
use std::alloc::Global;
use std::marker::Model;

/// A signal and when it is read: a cycle or a frame, and the signal's number.
pub type Place = (u32, u32);

/// Places with their literals, each place once, in the order in which they were put. A contract sees the list.
pub struct Memo {
    places: UniqueTable<Place>,
    lits: Vec<Lit>,
}

/// It is let go by one call: an owner isn't taken apart field by field at each way out.
impl Drop for Memo {
    fn drop(self) {
        let Memo { places: _, lits: _ } = self;
    }
}

impl Model for Memo {
    ghost use Rattle.std.specs.Prelude.{◌≡◌, List, ℕ, length};
    ghost use Rattle.std.specs.List.{zip};
    ghost use Rattle.aig.specs.declared.node.Lit.{Lit};

    ghost Value = { List ((ℕ × ℕ) × Lit) };

    ghost view = { λ m. zip m.places m.lits.items };

    ghost invariant = { λ m. length m.lits.items ≡ length m.places };
}

impl Memo {
    /// Without places. It takes no memory.
    pub fn new(alloc: Global) -> Memo
        ensures { result ≡ [] }
    {
        Memo {
            places: UniqueTable::new(alloc, u32::MAX),
            lits: Vec::new(alloc),
        }
    }

    /// Tells a proof that no place stands twice. It does nothing.
    pub fn keeps(&self)
        ensures { AllPairs (λ p q. p ≢ q) (map (λ e. e.0) self.now) }
    {
        self.places.keeps();
    }

    /// The literal of the place; None exactly where the place wasn't met.
    pub fn get(&self, place: Place) -> Option<Lit>
        ensures here { IfSome result (λ x. Contains self.now (place, x)) }
        ensures absent { IfNone result (Contains (map (λ e. e.0) self.now) place → ⊥) }
    {
        match self.places.find(place) {
            Some(number) => Some(self.lits[number as usize]),
            None => None,
        }
    }

    /// How many places were met.
    pub fn len(&self) -> usize
        ensures { result ≡ length self.now }
    {
        self.places.len() as usize
    }

    /// The place with this number, in the order in which they were put.
    pub fn place(&self, number: usize) -> Place
        requires { number < length self.now }
        ensures { (x : Lit) × (slice_get self.now number ≡ Some (result, x)) }
    {
        self.places.keeps();
        self.places.key(number as u32)
    }

    /// The number of a place that was met.
    pub fn number(&self, place: Place) -> usize
        requires { (x : Lit) × Contains self.now (place, x) }
        ensures { (x : Lit) × (slice_get self.now result ≡ Some (place, x)) }
    {
        match self.places.find(place) {
            Some(number) => number as usize,
            None => unreachable!(),
        }
    }

    /// The literal of a place that was met.
    pub fn met(&self, place: Place) -> Lit
        requires { (x : Lit) × Contains self.now (place, x) }
        ensures { Contains self.now (place, result) }
    {
        match self.get(place) {
            Some(lit) => lit,
            None => unreachable!(),
        }
    }

    /// Puts a place that wasn't met last. After `NoMemory` nothing has changed.
    pub fn put(&mut self, place: Place, lit: Lit) -> Result<(), NoMemory>
        requires { Contains (map (λ e. e.0) self.old) place → ⊥ }
        ensures ok { OnOk result (self.new ≡ self.old ++ (place, lit) ∷ []) }
        ensures err { OnErr result (self.new ≡ self.old) }
    {
        self.lits.reserve(1)?;
        self.places.put(place)?;
        put_last(&mut self.lits, lit);
        Ok(())
    }
}

/// Puts the literal last. There is room for it.
fn put_last(lits: &mut Vec<Lit>, lit: Lit)
    requires { vec_len lits.old < vec_capacity lits.old }
    ensures { lits.new.items ≡ lits.old.items ++ lit ∷ [] }
{
    if lits.push(lit).is_err() {
        unreachable!();
    }
}
