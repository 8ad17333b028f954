//! Tables that number names, and pairs of numbers, in the order in which they first come.

ghost use Rattle.std.specs.Prelude.{◌≡◌, ◌+◌, ◌^◌, ◌<◌, ℕ, false, not, List, [], ◌∷◌, ◌++◌, length, if◌then◌else◌, slice_get, is_some, vec_len, vec_capacity, IsTrue, Contains, IfSome, IfNone, IfOk, OnOk, OnErr};
ghost use Rattle.std.specs.BTreeMap.{get_by};
ghost use Rattle.std.specs.Cmp.Lexicographic.{slice_cmp};
ghost use Rattle.std.specs.Ordering.{nat_cmp};
ghost use Rattle.base_tables.specs.Hashed.{hash_of, IsNameTable};
ghost use Rattle.base_tables.specs.Table.{is_among, AreDistinct};

use crate::unique_table::{NoMemory, Seq, UniqueTable, Word, Words};
use std::alloc::Global;
use std::collections::BTreeMap;
use std::marker::Model;

/// At how many places the hash of a name is looked for. Half of all places are free, so of names whose hashes lie at random none
/// finds so many taken.
const TRIES: u32 = 256;

/// Names in the order in which they first came, each at the number of its place. A contract sees the list of names.
///
/// The hashes of the first names stand in a hash table, up to the first name that finds no free place there or whose hash another
/// name has; that one and all later ones stand in an ordered map. So no choice of names makes looking up slow.
pub struct NameTable {
    names: Vec<Word>,
    /// The hashes of the first names.
    hashes: UniqueTable<(u32, u32)>,
    /// The numbers of the names behind them.
    late: BTreeMap<Vec<u8>, u32>,
}

/// It is let go by one call: an owner isn't taken apart field by field at each way out.
impl Drop for NameTable {
    fn drop(self) {
        let NameTable {
            names: _,
            hashes: _,
            late: _,
        } = self;
    }
}

impl Model for NameTable {
    ghost Value = { List (List ℕ) };

    ghost view = { λ t. t.names.items };

    ghost invariant = { λ t. IsNameTable t.names.items t.hashes (λ q. get_by (λ k. slice_cmp nat_cmp q k.items) t.late) };
}

impl NameTable {
    /// The table without names. It takes no memory.
    pub fn new(alloc: Global) -> NameTable
        ensures { result ≡ [] }
    {
        NameTable {
            names: Vec::new(alloc),
            hashes: UniqueTable::new(alloc, TRIES),
            late: BTreeMap::new(alloc),
        }
    }

    /// How many names there are.
    pub fn len(&self) -> u32
        ensures { result ≡ length self.now }
    {
        self.names.len() as u32
    }

    /// Tells a proof that no name stands twice. It does nothing.
    pub fn keeps(&self)
        ensures { AreDistinct self.now }
    {
        let _ = &self.names;
    }

    /// Whether the name is in the table.
    pub fn has(&self, name: &[u8]) -> bool
        ensures { result ≡ is_among self.now name.now }
    {
        self.find(name).is_some()
    }

    /// The name's number; None exactly where it isn't in the table.
    pub fn find(&self, name: &[u8]) -> Option<u32>
        ensures here { IfSome result (λ id. slice_get self.now id ≡ Some name.now) }
        ensures absent { IfNone result (Contains self.now name.now → ⊥) }
        ensures found { is_some result ≡ is_among self.now name.now }
    {
        self.hashes.keeps();
        if let Some(id) = self.hashes.find(name_hash(name)) {
            if self.names[id as usize].as_slice() == name {
                return Some(id);
            }
        }
        match self.late.get(name) {
            Some(id) => Some(*id),
            None => None,
        }
    }

    /// The name with this number.
    pub fn name(&self, id: u32) -> &[u8]
        requires { id < length self.now }
        ensures { slice_get self.now id ≡ Some result.now }
    {
        self.names[id as usize].as_slice()
    }

    /// The name's number. A new name goes last. After `NoMemory` nothing has changed.
    pub fn intern(&mut self, alloc: Global, name: &[u8]) -> Result<u32, NoMemory>
        requires { length self.old + 1 < 2 ^ 32 }
        ensures here { IfOk result (λ id. slice_get self.new id ≡ Some name.now) }
        ensures known { OnOk result (Contains self.old name.now → self.new ≡ self.old) }
        ensures added { OnOk result ((Contains self.old name.now → ⊥) → self.new ≡ self.old ++ name.now ∷ []) }
        ensures ok { OnOk result (self.new ≡ (if is_among self.old name.now then self.old else self.old ++ name.now ∷ [])) }
        ensures err { OnErr result (self.new ≡ self.old) }
    {
        match self.find(name) {
            Some(id) => Ok(id),
            None => self.put(alloc, name),
        }
    }

    /// Puts the name last if it isn't in the table, and says whether it was new. A table that has
    /// 2^32 - 1 names has no room for more, and answers `NoMemory`, as where memory was wanted; then
    /// nothing has changed.
    pub fn add(&mut self, alloc: Global, name: &[u8]) -> Result<bool, NoMemory>
        ensures new { IfOk result (λ added. added ≡ not (is_among self.old name.now)) }
        ensures ok { OnOk result (self.new ≡ (if is_among self.old name.now then self.old else self.old ++ name.now ∷ [])) }
        ensures err { OnErr result (self.new ≡ self.old) }
    {
        if self.has(name) {
            return Ok(false);
        }
        if self.len() == u32::MAX {
            return Err(NoMemory);
        }
        self.put(alloc, name)?;
        Ok(true)
    }

    /// Puts a new name last, and gives its number.
    fn put(&mut self, alloc: Global, name: &[u8]) -> Result<u32, NoMemory>
        requires new { is_among self.old name.now ≡ false }
        requires room { length self.old + 1 < 2 ^ 32 }
        ensures here { IfOk result (λ id. slice_get self.new id ≡ Some name.now) }
        ensures ok { OnOk result (self.new ≡ self.old ++ name.now ∷ []) }
        ensures err { OnErr result (self.new ≡ self.old) }
    {
        let word = name.to_vec(alloc)?;
        self.names.reserve(1)?;
        let names = self.names.as_slice();
        let id = put_number(alloc, names, &mut self.hashes, &mut self.late, name)?;
        put_last(&mut self.names, Seq::from_vec(word));
        Ok(id)
    }

    /// An equal table.
    pub fn copy(&self, alloc: Global) -> Result<NameTable, NoMemory>
        ensures { IfOk result (λ made. made ≡ self.now) }
    {
        self.keeps();
        let mut made = NameTable::new(alloc);
        for id in 0..self.len() {
            made.put(alloc, self.name(id))?;
        }
        Ok(made)
    }

    /// The names in their order.
    pub fn into_words(self, _alloc: Global) -> Result<Words, NoMemory>
        ensures { IfOk result (λ words. words ≡ self) }
    {
        let NameTable {
            names,
            hashes: _,
            late: _,
        } = self;
        Ok(Seq::from_vec(names))
    }
}

/// The hash of a name: that of Fowler, Noll and Vo over its bytes (FNV-1a, 64 bits).
#[tactic(auto, unfolding(crate::specs::Hashed::hash_of))]
fn name_hash(name: &[u8]) -> (u32, u32)
    ensures { result ≡ hash_of name.now }
{
    let mut state: u64 = 0xCBF2_9CE4_8422_2325;
    for byte in name {
        state = (state ^ u64::from(*byte)).wrapping_mul(0x100_0000_01B3);
    }
    (
        (state / 0x1_0000_0000) as u32,
        (state % 0x1_0000_0000) as u32,
    )
}

/// Puts the name last. There is room for it.
fn put_last(names: &mut Vec<Word>, name: Word)
    requires { vec_len names.old < vec_capacity names.old }
    ensures { names.new.items ≡ names.old.items ++ name ∷ [] }
{
    if names.push(name).is_err() {
        unreachable!();
    }
}

/// Makes the number of a new name known, which is to go last, and gives it.
fn put_number(
    alloc: Global,
    names: &[Word],
    hashes: &mut UniqueTable<(u32, u32)>,
    late: &mut BTreeMap<Vec<u8>, u32>,
    name: &[u8],
) -> Result<u32, NoMemory>
    requires table { IsNameTable names.now hashes.old (λ q. get_by (λ k. slice_cmp nat_cmp q k.items) late.old) }
    requires new { is_among names.now name.now ≡ false }
    requires room { length names.now + 1 < 2 ^ 32 }
    ensures last { IfOk result (λ id. id ≡ length names.now) }
    ensures put { OnOk result (IsNameTable (names.now ++ name.now ∷ []) hashes.new (λ q. get_by (λ k. slice_cmp nat_cmp q k.items) late.new)) }
    ensures err { OnErr result (IsNameTable names.now hashes.new (λ q. get_by (λ k. slice_cmp nat_cmp q k.items) late.new)) }
{
    let id = names.len() as u32;
    if puts_hash(hashes, id, name) {
        return Ok(id);
    }
    late.insert(name.to_vec(alloc)?, id)?;
    Ok(id)
}

/// Puts the hash of the name with this number into the table, if all names before have theirs there and it finds a place of its own.
fn puts_hash(hashes: &mut UniqueTable<(u32, u32)>, id: u32, name: &[u8]) -> bool
    ensures put { IsTrue result → (length hashes.old ≡ id) × (hashes.new ≡ hashes.old ++ hash_of name.now ∷ []) }
    ensures kept { result ≡ false → hashes.new ≡ hashes.old }
{
    if hashes.len() != id {
        return false;
    }
    match hashes.insert(name_hash(name)) {
        Ok(number) => number == id,
        Err(_) => false,
    }
}

/// Pairs of numbers in the order in which they first came, each at the number of its place. A contract sees the
/// list of pairs.
pub struct PlaceTable {
    pairs: UniqueTable<(u32, u32)>,
}

/// It is let go by one call: an owner isn't taken apart field by field at each way out.
impl Drop for PlaceTable {
    fn drop(self) {
        let PlaceTable { pairs: _ } = self;
    }
}

impl Model for PlaceTable {
    ghost Value = { List (ℕ × ℕ) };

    ghost view = { λ t. t.pairs };
}

impl PlaceTable {
    /// The table without pairs. It takes no memory.
    pub fn new(alloc: Global) -> PlaceTable
        ensures { result ≡ [] }
    {
        PlaceTable {
            pairs: UniqueTable::new(alloc, u32::MAX),
        }
    }

    /// How many pairs there are.
    pub fn len(&self) -> u32
        ensures { result ≡ length self.now }
    {
        self.pairs.len()
    }

    /// Tells a proof that no pair stands twice. It does nothing.
    pub fn keeps(&self)
        ensures { AreDistinct self.now }
    {
        self.pairs.keeps();
    }

    /// The pair's number. A new pair goes last. After `NoMemory` nothing has changed.
    pub fn intern(&mut self, input: u32, place: u32) -> Result<u32, NoMemory>
        requires { length self.old + 1 < 2 ^ 32 }
        ensures here { IfOk result (λ id. slice_get self.new id ≡ Some (input, place)) }
        ensures known { OnOk result (Contains self.old (input, place) → self.new ≡ self.old) }
        ensures added { OnOk result ((Contains self.old (input, place) → ⊥) → self.new ≡ self.old ++ (input, place) ∷ []) }
        ensures err { OnErr result (self.new ≡ self.old) }
    {
        self.pairs.insert((input, place))
    }

    /// The pair with this number.
    pub fn pair(&self, var: u32) -> (u32, u32)
        requires { var < length self.now }
        ensures { slice_get self.now var ≡ Some result }
    {
        self.pairs.key(var)
    }
}
