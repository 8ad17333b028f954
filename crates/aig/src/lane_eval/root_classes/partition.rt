//! Classes of places that agree in all rows of bits so far.

ghost use Rattle.std.specs.Prelude.{◌≡◌, ℕ, ◌+◌, ◌*◌, ◌^◌, ◌<◌, Bool, true, false, cond, length, slice_get, slice_index_or, Some, nat_eq, IfOk, OnOk, IsTrue};
ghost use Rattle.indexmap.specs.IndexMap.{get};
ghost use Rattle.aig.specs.lane_eval.root_classes.Splits.{AgreeSoFar, IsSplit, IsHead, key_at};

use crate::NoMemory;
use indexmap::IndexMap;
use std::alloc::Global;

/// Splits the classes by one more row of bits. For each place stands the first place of its class.
pub(crate) fn refine(alloc: Global, bits: &[bool], firsts: &mut Vec<usize>) -> Result<(), NoMemory>
    requires within { (i p : ℕ) → slice_get firsts.old.items i ≡ Some p → p < length bits.now }
    requires each { length firsts.old.items ≡ length bits.now }
    ensures { OnOk result ((row : ℕ → ℕ → Bool) (rows : ℕ) → AgreeSoFar row (length bits.now) rows firsts.old.items → ((i : ℕ) (b : Bool) → slice_get bits.now i ≡ Some b → b ≡ row rows i) → AgreeSoFar row (length bits.now) (rows + 1) firsts.new.items) }
{
    if !all_follow(bits, firsts.as_slice()) {
        *firsts = split(alloc, firsts.as_slice(), bits)?;
    }
    Ok(())
}

/// Whether each place has the bit of the first place of its class.
fn all_follow(bits: &[bool], firsts: &[usize]) -> bool
    requires within { (i p : ℕ) → slice_get firsts.now i ≡ Some p → p < length bits.now }
    requires each { length firsts.now ≡ length bits.now }
    ensures { IsTrue result → (i p : ℕ) → slice_get firsts.now i ≡ Some p → slice_index_or bits.now i false ≡ slice_index_or bits.now p false }
{
    for i in 0..firsts.len() {
        if bits[i] != bits[firsts[i]] {
            return false;
        }
    }
    true
}

/// The classes of the places that agree in their class and in this row.
fn split(alloc: Global, firsts: &[usize], bits: &[bool]) -> Result<Vec<usize>, NoMemory>
    requires within { (i p : ℕ) → slice_get firsts.now i ≡ Some p → p < length bits.now }
    requires each { length firsts.now ≡ length bits.now }
    ensures { IfOk result (λ new. IsSplit firsts.now bits.now (length firsts.now) new.items) }
{
    let mut heads = IndexMap::new(alloc);
    let mut new = Vec::new(alloc);
    for i in 0..firsts.len() {
        let first = head_of(&mut heads, key_of(firsts[i], bits[i]), i)?;
        new.push(first)?;
    }
    Ok(new)
}

fn key_of(first: usize, bit: bool) -> u64
    requires { first < 2 ^ 62 }
    ensures { result ≡ 2 * first + cond bit 1 0 }
{
    2 * (first as u64) + if bit { 1 } else { 0 }
}

/// The place that stands for the key: this one, if there is none yet.
fn head_of(heads: &mut IndexMap<u64, usize>, key: u64, i: usize) -> Result<usize, NoMemory>
    ensures { IfOk result (λ p. IsHead (get nat_eq heads.old) (get nat_eq heads.new) key i p) }
{
    match heads.get(&key).copied() {
        Some(p) => Ok(p),
        None => {
            heads.insert(key, i)?;
            Ok(i)
        }
    }
}
