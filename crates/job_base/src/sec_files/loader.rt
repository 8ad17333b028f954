//! From the bytes of a file to a flat net.

ghost use Rattle.std.specs.Prelude.{◌≡◌, ℕ, List, true, false, IfOk, IfErr, IfSome, IsErrOf, ◌≤◌, length, Some};
ghost use Rattle.base_shelves.specs.Outside.{Rose, SameHeld, NoneFell};
ghost use Rattle.flat_net.specs.Comparable.{IsComparable};
ghost use Rattle.job_base.specs.sec_files.Formats.{is_aiger};
ghost use Rattle.job_base.specs.sec_files.Loading.{Loads, LoadFails};

use aiger_read::{AigerError, read_aiger};
use base_shelves::{FetchError, Shelf, fetch};
use blif_read::{ReadError, read_design};
use flat_net::Net;
use flatten::{FlatError, flatten};
use sec_base::MAX_FILE_BYTES;
use std::alloc::Global;

/// Why a file isn't loaded.
#[derive(Drop)]
pub enum LoadError {
    Fetch(FetchError),
    Read(ReadError),
    Flat(FlatError),
    Aiger(AigerError),
}

/// Fetches the file at the path and makes the net of it: one that begins with `aag ` or `aig ` is read as AIGER, each other as
/// BLIF, whose design is flattened. A refusal of one step ends the work.
pub fn load<S: Shelf>(alloc: Global, shelf: &mut S, path: &str) -> Result<Net, LoadError>
    ensures ok { IfOk result (λ net. IfSome (S.held shelf.old path.now) (λ text. Loads text net)) }
    ensures comparable { IfOk result IsComparable }
    ensures err { IfErr result (LoadFails (S.held shelf.old path.now) (Rose (S.faults shelf.old path.now) (S.faults shelf.new path.now))) }
    ensures keeps { SameHeld (S.held shelf.old) (S.held shelf.new) }
    ensures later { NoneFell (S.faults shelf.old) (S.faults shelf.new) }
    ensures served { S.serves shelf.old path.now → IsErrOf result (LoadError.Fetch FetchError.Failed) → ⊥ }
    ensures serving { (other : List ℕ) → S.serves shelf.old other → S.serves shelf.new other }
{
    let text = match fetch(alloc, shelf, path, MAX_FILE_BYTES) {
        Ok(text) => text,
        Err(error) => return Err(LoadError::Fetch(error)),
    };
    net_of(alloc, text.as_slice())
}

/// Whether the text begins as the header of an AIGER file does.
fn is_aiger(text: &[u8]) -> bool
    ensures { result ≡ is_aiger text.now }
{
    text.starts_with(b"aag ") || text.starts_with(b"aig ")
}

/// The net of a text.
fn net_of(alloc: Global, text: &[u8]) -> Result<Net, LoadError>
    requires { length text.now ≤ MAX_FILE_BYTES }
    ensures ok { IfOk result (λ net. Loads text.now net) }
    ensures comparable { IfOk result IsComparable }
    ensures err { IfErr result (LoadFails (Some text.now) ⊥) }
{
    if is_aiger(text) {
        read_file(alloc, text)
    } else {
        read_and_flatten(alloc, text)
    }
}

/// The net of an AIGER file.
fn read_file(alloc: Global, text: &[u8]) -> Result<Net, LoadError>
    requires short { length text.now ≤ MAX_FILE_BYTES }
    requires aiger { is_aiger text.now ≡ true }
    ensures ok { IfOk result (λ net. Loads text.now net) }
    ensures comparable { IfOk result IsComparable }
    ensures err { IfErr result (LoadFails (Some text.now) ⊥) }
{
    match read_aiger(alloc, text) {
        Ok(net) => Ok(net),
        Err(error) => Err(LoadError::Aiger(error)),
    }
}

/// The net of a BLIF text.
fn read_and_flatten(alloc: Global, text: &[u8]) -> Result<Net, LoadError>
    requires short { length text.now ≤ MAX_FILE_BYTES }
    requires blif { is_aiger text.now ≡ false }
    ensures ok { IfOk result (λ net. Loads text.now net) }
    ensures comparable { IfOk result IsComparable }
    ensures err { IfErr result (LoadFails (Some text.now) ⊥) }
{
    let design = match read_design(alloc, text) {
        Ok(design) => design,
        Err(error) => return Err(LoadError::Read(error)),
    };
    match flatten(alloc, &design) {
        Ok(net) => Ok(net),
        Err(error) => Err(LoadError::Flat(error)),
    }
}
