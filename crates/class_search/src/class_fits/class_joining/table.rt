//! The enables of the latches that have a class.

ghost use Rattle.std.specs.Prelude.{◌≡◌, ◌<◌, ℕ, List, [], ◌∷◌, ◌++◌, IfSome, IfNone, OnOk, OnErr, Contains, map, vec_len, vec_capacity};

use aig::Lit;
use base_tables::UniqueTable;
use sec_base::NoMemory;
use std::alloc::Global;
use std::marker::Model;

/// The class of the first latch with each enable: the literals of an enable and of its care, and the class. Latches whose literals are
/// the same belong to one class. A contract sees the list, in which the two literals stand as a pair of numbers.
pub struct EnableTable {
    enables: UniqueTable<(u32, u32)>,
    classes: Vec<u32>,
}

/// It is let go by one call: an owner isn't taken apart field by field at each way out.
impl Drop for EnableTable {
    fn drop(self) {
        let EnableTable {
            enables: _,
            classes: _,
        } = self;
    }
}

impl Model for EnableTable {
    ghost use Rattle.std.specs.Prelude.{◌≡◌, List, ℕ, length};
    ghost use Rattle.std.specs.List.{zip};

    ghost Value = { List ((ℕ × ℕ) × ℕ) };

    ghost view = { λ t. zip t.enables t.classes.items };

    ghost invariant = { λ t. length t.classes.items ≡ length t.enables };
}

impl EnableTable {
    /// Without enables. It takes no memory.
    pub fn new(alloc: Global) -> EnableTable
        ensures { result ≡ [] }
    {
        EnableTable {
            enables: UniqueTable::new(alloc, u32::MAX),
            classes: Vec::new(alloc),
        }
    }

    /// The class of the first latch whose enable and care have these literals; None exactly where there is none.
    pub fn class_of(&self, enable: Lit, care: Lit) -> Option<u32>
        ensures here { IfSome result (λ k. Contains self.now ((enable.0, care.0), k)) }
        ensures absent { IfNone result (Contains (map (λ e. e.0) self.now) (enable.0, care.0) → ⊥) }
    {
        match self.enables.find((enable.0, care.0)) {
            Some(number) => Some(self.classes[number as usize]),
            None => None,
        }
    }

    /// Puts an enable that isn't there with its class. After `NoMemory` nothing has changed.
    pub fn put(&mut self, enable: Lit, care: Lit, class: u32) -> Result<(), NoMemory>
        requires { Contains (map (λ e. e.0) self.old) (enable.0, care.0) → ⊥ }
        ensures ok { OnOk result (self.new ≡ self.old ++ ((enable.0, care.0), class) ∷ []) }
        ensures err { OnErr result (self.new ≡ self.old) }
    {
        self.classes.reserve(1)?;
        self.enables.put((enable.0, care.0))?;
        put_last(&mut self.classes, class);
        Ok(())
    }
}

/// Puts the class last. There is room for it.
fn put_last(classes: &mut Vec<u32>, class: u32)
    requires { vec_len classes.old < vec_capacity classes.old }
    ensures { classes.new.items ≡ classes.old.items ++ class ∷ [] }
{
    if classes.push(class).is_err() {
        unreachable!();
    }
}
