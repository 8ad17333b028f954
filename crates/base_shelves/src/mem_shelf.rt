//! A shelf in memory.

ghost use Rattle.std.specs.Prelude.{◌≡◌, ◌≢◌, ◌+◌, ◌^◌, ◌<◌, ◌≤◌, ◌↔◌, ℕ, List, length, Some, IsTrue, IsSome, Contains, IsErrOf, IsOk, IfOk, IfSome, OnOk, OnErr};
ghost use Rattle.base_shelves.specs.Outside.{Rose, SameHeld, NoneFell, Gives};
ghost use Rattle.base_shelves.specs.MemShelf.{held_by, faults_of, most_of, next_call, IsServed, IsServing};

use crate::shelves::{Shelf, ShelfError};
use base_lists::{FileText, Ids, NoMemory, Seq};
use std::alloc::Global;
use std::collections::BTreeMap;

/// A file of a `MemShelf`, with its count of faults.
#[derive(Drop)]
pub struct HeldFile {
    pub bytes: FileText,
    pub faults: u64,
}

/// Files in memory. The reads whose numbers are told, counted from 1, fail, and so does each read of a path that
/// isn't held. All paths that aren't held share one count of faults. A read gives one byte and `more` besides at most.
#[derive(Drop)]
pub struct MemShelf {
    pub files: BTreeMap<String, HeldFile>,
    pub fails: Ids,
    pub calls: u64,
    pub absent_faults: u64,
    pub more: usize,
}

impl MemShelf {
    /// The shelf that holds no file. Its reads give as much as there is room for. It takes no memory.
    pub fn new(alloc: Global, fails: Ids) -> MemShelf
        ensures held { (path : List ℕ) → held_by result path ≡ None }
        ensures faults { (path : List ℕ) → faults_of result path ≡ 0 }
        ensures fails { result.fails ≡ fails }
        ensures calls { result.calls ≡ 0 }
        ensures most { most_of result ≡ 2 ^ 64 }
    {
        MemShelf {
            files: BTreeMap::new(alloc),
            fails,
            calls: 0,
            absent_faults: 0,
            more: usize::MAX,
        }
    }

    /// Lets each later read give at most so many bytes. It takes no memory.
    pub fn set_most(&mut self, most: u32)
        requires { 0 < most }
        ensures most { most_of self.new ≡ most }
        ensures same { self.new ≡ record self.old { more = self.new.more } }
    {
        self.more = most as usize - 1;
    }

    /// Adds a file, or replaces it. A new file's count of faults starts at the count that the paths that aren't
    /// held have then. After `NoMemory` nothing has changed.
    pub fn put(&mut self, alloc: Global, path: &str, bytes: &[u8]) -> Result<(), NoMemory>
        ensures here { OnOk result (held_by self.new path.now ≡ Some bytes.now) }
        ensures others { OnOk result ((other : List ℕ) → other ≢ path.now → held_by self.new other ≡ held_by self.old other) }
        ensures counts { (other : List ℕ) → faults_of self.new other ≡ faults_of self.old other }
        ensures err { OnErr result (SameHeld (held_by self.old) (held_by self.new)) }
        ensures fails { self.new.fails ≡ self.old.fails }
        ensures calls { self.new.calls ≡ self.old.calls }
        ensures more { self.new.more ≡ self.old.more }
    {
        let text = bytes.to_vec(alloc)?;
        let faults = self.faults_at(path);
        let file = HeldFile {
            bytes: Seq::from_vec(text),
            faults,
        };
        match self.files.insert(String::from_str(alloc, path)?, file) {
            Ok(_) => Ok(()),
            Err(failed) => {
                // The pair is let go part by part: how a pair is let go would be proved besides.
                let (_path, _file) = failed.value;
                Err(NoMemory)
            }
        }
    }

    fn faults_at(&self, path: &str) -> u64
        ensures { result ≡ faults_of self.now path.now }
    {
        match self.files.get(path) {
            Some(file) => file.faults,
            None => self.absent_faults,
        }
    }

    fn next_call_fails(&mut self) -> bool
        ensures told { IsTrue result ↔ Contains self.old.fails (next_call self.old) }
        ensures same { self.new ≡ record self.old { calls = next_call self.old } }
    {
        self.calls = self.calls.saturating_add(1);
        is_among(self.fails.as_slice(), self.calls)
    }

    fn count_fault(&mut self, path: &str)
        ensures here { Rose (faults_of self.old path.now) (faults_of self.new path.now) }
        ensures later { NoneFell (faults_of self.old) (faults_of self.new) }
        ensures held { SameHeld (held_by self.old) (held_by self.new) }
        ensures others { (other : List ℕ) → other ≢ path.now → IsSome (held_by self.old other) → faults_of self.new other ≡ faults_of self.old other }
        ensures fails { self.new.fails ≡ self.old.fails }
        ensures calls { self.new.calls ≡ self.old.calls }
        ensures more { self.new.more ≡ self.old.more }
    {
        match self.files.get_mut(path) {
            Some(file) => file.faults = one_more(file.faults),
            None => self.absent_faults = one_more(self.absent_faults),
        }
    }
}

impl Shelf for MemShelf {
    ghost use Rattle.base_shelves.specs.MemShelf.{held_by, faults_of, IsServing};

    ghost held = { held_by };

    ghost faults = { faults_of };

    ghost serves = { IsServing };

    fn read_at(&mut self, path: &str, from: u64, room: &mut [u8]) -> Result<usize, ShelfError>
        // What each shelf keeps.
        ensures bound { IfOk result (λ count. count ≤ length room.new) }
        ensures gives { IfOk result (λ count. IfSome (held_by self.old path.now) (λ bytes. Gives bytes from count room.new)) }
        ensures keeps { SameHeld (held_by self.old) (held_by self.new) }
        ensures later { NoneFell (faults_of self.old) (faults_of self.new) }
        ensures cause { IsErrOf result ShelfError.Failed → Rose (faults_of self.old path.now) (faults_of self.new path.now) }
        ensures served { IsServing self.old path.now → IsErrOf result ShelfError.Failed → ⊥ }
        ensures serving { (other : List ℕ) → IsServing self.old other → IsServing self.new other }

        // It reads exactly where the path is held and the call isn't told to fail, and never more than it is let.
        ensures read { IsOk result ↔ IsServed self.old path.now }
        ensures most { IfOk result (λ count. count ≤ most_of self.old) }
        ensures failed { OnErr result (result ≡ Err ShelfError.Failed) }
        ensures counts { OnOk result ((other : List ℕ) → faults_of self.new other ≡ faults_of self.old other) }
        ensures others { (other : List ℕ) → other ≢ path.now → IsSome (held_by self.old other) → faults_of self.new other ≡ faults_of self.old other }
        ensures calls { self.new.calls ≡ next_call self.old }
        ensures fails { self.new.fails ≡ self.old.fails }
        ensures more { self.new.more ≡ self.old.more }
    {
        if self.next_call_fails() {
            self.count_fault(path);
            return Err(ShelfError::Failed);
        }
        match self.files.get(path) {
            Some(file) => Ok(read_piece(file.bytes.as_slice(), from, room, self.more)),
            None => {
                self.count_fault(path);
                Err(ShelfError::Failed)
            }
        }
    }
}

#[tactic(auto, using(crate::proofs::Calls::at_call, crate::proofs::Calls::no_call))]
fn is_among(calls: &[u32], number: u64) -> bool
    ensures { IsTrue result ↔ Contains calls.now number }
{
    for call in calls {
        if u64::from(*call) == number {
            return true;
        }
    }
    false
}

fn one_more(count: u64) -> u64
    ensures later { count ≤ result }
    ensures rose { Rose count result }
{
    count.saturating_add(1)
}

/// Puts what is there into the room, from the place on: one byte and so many more at most.
fn read_piece(bytes: &[u8], from: u64, room: &mut [u8], more: usize) -> usize
    ensures bound { result ≤ length room.new }
    ensures gives { Gives bytes.now from result room.new }
    ensures most { result ≤ more + 1 }
{
    let start = bytes.len().min(from as usize);
    let rest = &bytes[start..];
    let count = rest.len().min(room.len()).min(more.saturating_add(1));
    room[..count].copy_from_slice(&rest[..count]);
    count
}
