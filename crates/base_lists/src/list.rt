//! The list type of the project, and want of memory.

ghost use Rattle.std.specs.Prelude.{◌≡◌, false, List, [], ◌∷◌, ◌++◌, length, replicate, OnOk, OnErr, IfOk};

use std::alloc::{AllocError, AllocFailed, Global};
use std::marker::Model;

/// Memory was wanted and couldn't be had.
#[derive(Clone, Copy, PartialEq, Eq)]
pub struct NoMemory;

impl From<AllocError> for NoMemory {
    fn from(_error: AllocError) -> NoMemory {
        NoMemory
    }
}

impl<T: Drop> From<AllocFailed<T>> for NoMemory {
    fn from(_error: AllocFailed<T>) -> NoMemory {
        NoMemory
    }
}

/// A value that can be made again, equal to the first.
pub trait Duplicate: Drop {
    fn duplicate(&self, alloc: Global) -> Result<Self, NoMemory>
        ensures { IfOk result (λ made. made ≡ self.now) };
}

/// A list that grows at its end. A contract sees it as the list of its items.
pub struct Seq<T> {
    items: Vec<T>,
}

impl<T: Drop> Drop for Seq<T> {
    fn drop(self) {
        let Seq { items: _ } = self;
    }
}

impl<T> Model for Seq<T> {
    ghost Value = { List T };

    ghost view = { λ s. s.items.items };
}

impl<T: Drop> Seq<T> {
    /// The empty list. It takes no memory.
    pub fn new(alloc: Global) -> Self
        ensures { result ≡ [] }
    {
        Seq {
            items: Vec::new(alloc),
        }
    }

    /// Puts the item last. After `NoMemory` nothing has changed.
    pub fn push(&mut self, item: T) -> Result<(), NoMemory>
        ensures ok { OnOk result (self.new ≡ self.old ++ item ∷ []) }
        ensures err { OnErr result (self.new ≡ self.old) }
    {
        self.items.push(item)?;
        Ok(())
    }

    /// How many items there are.
    pub fn len(&self) -> usize
        ensures { result ≡ length self.now }
    {
        self.items.len()
    }

    /// The items as a slice.
    pub fn as_slice(&self) -> &[T]
        ensures { result.now ≡ self.now }
    {
        self.items.as_slice()
    }

    /// The list of a vector's items. It takes no memory.
    pub fn from_vec(items: Vec<T>) -> Self
        ensures { result ≡ items.items }
    {
        Seq { items }
    }

    /// The vector of the list's items. It takes no memory.
    pub fn into_vec(self) -> Vec<T>
        ensures { result.items ≡ self }
    {
        let Seq { items } = self;
        items
    }
}

impl<T: Duplicate> Seq<T> {
    /// An equal list.
    pub fn copy(&self) -> Result<Self, NoMemory>
        ensures { IfOk result (λ made. made ≡ self.now) }
    {
        let alloc = *self.items.allocator();
        let mut made = Seq::new(alloc);
        for item in self.items.iter() {
            made.push(item.duplicate(alloc)?)?;
        }
        Ok(made)
    }
}

impl<T: Duplicate> Duplicate for Seq<T> {
    fn duplicate(&self, _alloc: Global) -> Result<Seq<T>, NoMemory> {
        self.copy()
    }
}

impl<T: Duplicate> Duplicate for Option<T> {
    fn duplicate(&self, alloc: Global) -> Result<Option<T>, NoMemory> {
        match self {
            Some(value) => Ok(Some(value.duplicate(alloc)?)),
            None => Ok(None),
        }
    }
}

impl Duplicate for u8 {
    fn duplicate(&self, _alloc: Global) -> Result<u8, NoMemory> {
        Ok(*self)
    }
}

impl Duplicate for u32 {
    fn duplicate(&self, _alloc: Global) -> Result<u32, NoMemory> {
        Ok(*self)
    }
}

impl Duplicate for bool {
    fn duplicate(&self, _alloc: Global) -> Result<bool, NoMemory> {
        Ok(*self)
    }
}

/// So many bits, none of them set.
pub fn unset_bits(alloc: Global, count: usize) -> Result<Bits, NoMemory>
    ensures { IfOk result (λ bits. bits ≡ replicate count false) }
{
    Ok(Seq::from_vec(vec![in alloc; false; count]?))
}

/// A name or another word of a text, as its bytes.
pub type Word = Seq<u8>;

/// The bytes of a file.
pub type FileText = Seq<u8>;

/// The bytes of a report or of another text that the program makes.
pub type Text = Seq<u8>;

/// Words.
pub type Words = Seq<Word>;

/// Numbers, as of inputs, latches or variables.
pub type Ids = Seq<u32>;

/// Bits.
pub type Bits = Seq<bool>;

/// Rows of bits.
pub type BitRows = Seq<Bits>;

/// Rows of a cover, each of one byte for each fan-in.
pub type Cubes = Seq<Word>;
