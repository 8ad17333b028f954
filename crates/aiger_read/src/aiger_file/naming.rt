//! The names of inputs, latches and outputs, and whether they are distinct.

ghost use Rattle.std.specs.Prelude.{◌≡◌, ◌++◌, ◌||◌, [], true, not, ◌<◌, length, slice_get, Some, IfOk};
ghost use Rattle.aiger_read.specs.aiger_file.Names.{key_of, name_of, names_from, repeats};

use crate::aiger_file::symbol::Named;
use base_tables::NameTable;
use sec_base::{NoMemory, put_number};
use std::alloc::Global;

/// The word that names number k of the kind with this letter.
fn key_of(alloc: Global, letter: u8, k: u64) -> Result<Vec<u8>, NoMemory>
    ensures { IfOk result (λ key. key.items ≡ key_of letter k) }
{
    let mut key = Vec::new(alloc);
    key.push(letter)?;
    put_number(alloc, &mut key, k)?;
    Ok(key)
}

/// A copy of the bytes.
fn bytes_of(alloc: Global, bytes: &[u8]) -> Result<Vec<u8>, NoMemory>
    ensures { IfOk result (λ copy. copy.items ≡ bytes.now) }
{
    Ok(bytes.to_vec(alloc)?)
}

impl Named {
    /// The name of the symbol at this place.
    fn name_at(&self, place: u32) -> &[u8]
        requires { place < length self.now.names }
        ensures { slice_get self.now.names place ≡ Some result.now }
    {
        self.names.as_slice()[place as usize].as_slice()
    }

    /// The name of number k of the kind with this letter: that of its symbol, or else the word that names it.
    pub fn name_of(&self, alloc: Global, letter: u8, k: u64) -> Result<Vec<u8>, NoMemory>
        requires { length self.now.keys ≡ length self.now.names }
        ensures { IfOk result (λ name. name.items ≡ name_of self.now letter k) }
    {
        let key = key_of(alloc, letter, k)?;
        self.keys.keeps();
        let Some(id) = self.keys.find(key.as_slice()) else {
            return Ok(key);
        };
        bytes_of(alloc, self.name_at(id))
    }

    /// Adds so many names of the kind with this letter, and says whether each of them was new.
    fn add_names(
        &self,
        alloc: Global,
        table: &mut NameTable,
        letter: u8,
        count: u64,
    ) -> Result<bool, NoMemory>
        requires { length self.now.keys ≡ length self.now.names }
        ensures fresh { IfOk result (λ fresh. fresh ≡ not (repeats table.old (names_from self.now letter count 0))) }
        ensures ok { IfOk result (λ fresh. fresh ≡ true → table.new ≡ table.old ++ names_from self.now letter count 0) }
    {
        for k in 0..count {
            let name = self.name_of(alloc, letter, k)?;
            if !table.add(alloc, name.as_slice())? {
                return Ok(false);
            }
        }
        Ok(true)
    }

    /// Whether the names of so many inputs and latches are distinct, and those of so many outputs.
    pub fn are_distinct(
        &self,
        alloc: Global,
        inputs: u64,
        latches: u64,
        outputs: u64,
    ) -> Result<bool, NoMemory>
        requires { length self.now.keys ≡ length self.now.names }
        ensures { IfOk result
            (λ distinct. distinct ≡ not (repeats [] (names_from self.now 105 inputs 0 ++ names_from self.now 108 latches 0) || repeats [] (names_from self.now 111 outputs 0))) }
    {
        let mut sources = NameTable::new(alloc);
        if !self.add_names(alloc, &mut sources, b'i', inputs)? {
            return Ok(false);
        }
        if !self.add_names(alloc, &mut sources, b'l', latches)? {
            return Ok(false);
        }
        let mut targets = NameTable::new(alloc);
        self.add_names(alloc, &mut targets, b'o', outputs)
    }
}
