//! A whole file in memory.

ghost use Rattle.std.specs.Prelude.{◌≡◌, ◌≤◌, ◌<◌, ◌++◌, ℕ, List, length, take, vec_len, IsErrOf, IfOk, IfSome, OnOk};
ghost use Rattle.base_shelves.specs.Outside.{Rose, SameHeld, NoneFell};

use crate::shelves::{Shelf, ShelfError};
use base_lists::{FileText, NoMemory, Seq};
use std::alloc::{AllocError, Global};
use thiserror::Error;

/// The bytes of one read.
const PIECE: usize = 65_536;

/// Why a file wasn't fetched whole.
#[derive(Debug, Drop, Error)]
pub enum FetchError {
    /// A read of the path was answered with `ShelfError::Failed`; the path's count of faults rose in the call by 1 at
    /// least, or stands at the last value of u64.
    #[error("a read failed")]
    Failed,
    /// More bytes are held at the path than the limit of the call, which is a number of bytes.
    #[error("the file is too long")]
    TooLong,
    /// Memory was wanted and couldn't be had: for the 65,536 bytes of one read, for the bytes of the file, or by the
    /// shelf, which answered `ShelfError::NoMemory`.
    #[error("out of memory")]
    NoMemory,
}

impl From<ShelfError> for FetchError {
    ghost use Rattle.base_shelves.specs.Fetch.{fetch_error_of};

    ghost from_gives = { λ e f. f ≡ fetch_error_of e };

    fn from(error: ShelfError) -> FetchError {
        match error {
            ShelfError::Failed => FetchError::Failed,
            ShelfError::NoMemory => FetchError::NoMemory,
        }
    }
}

impl From<NoMemory> for FetchError {
    ghost use Rattle.base_shelves.specs.declared.whole_file.FetchError.TheVariants as fetch_error;

    ghost from_gives = { λ _ f. f ≡ fetch_error.NoMemory };

    fn from(_error: NoMemory) -> FetchError {
        FetchError::NoMemory
    }
}

/// The whole file at the path, in reads of 65,536 bytes. `TooLong` comes exactly where more than `limit` bytes are
/// held. `Failed` comes only where the path's count of faults rose in this call, or stands at the last value of u64.
pub fn fetch<S: Shelf>(
    alloc: Global,
    shelf: &mut S,
    path: &str,
    limit: u32,
) -> Result<FileText, FetchError>
    ensures ok { IfOk result (λ text. IfSome (S.held shelf.old path.now) (λ bytes. text ≡ bytes)) }
    ensures short { IfOk result (λ text. length text ≤ limit) }
    ensures too_long { IsErrOf result FetchError.TooLong → IfSome (S.held shelf.old path.now) (λ bytes. limit < length bytes) }
    ensures cause { IsErrOf result FetchError.Failed → Rose (S.faults shelf.old path.now) (S.faults shelf.new path.now) }
    ensures keeps { SameHeld (S.held shelf.old) (S.held shelf.new) }
    ensures later { NoneFell (S.faults shelf.old) (S.faults shelf.new) }
    ensures served { S.serves shelf.old path.now → IsErrOf result FetchError.Failed → ⊥ }
    ensures serving { (other : List ℕ) → S.serves shelf.old other → S.serves shelf.new other }
{
    let mut room = make_room(alloc, PIECE)?;
    fetch_through(alloc, shelf, path, limit, room.as_mut_slice())
}

fn make_room(alloc: Global, size: usize) -> Result<Vec<u8>, NoMemory>
    ensures { IfOk result (λ room. vec_len room ≡ size) }
{
    Ok(vec![in alloc; 0u8; size]?)
}

fn fetch_through<S: Shelf>(
    alloc: Global,
    shelf: &mut S,
    path: &str,
    limit: u32,
    room: &mut [u8],
) -> Result<FileText, FetchError>
    requires { 0 < length room.old }
    ensures ok { IfOk result (λ text. IfSome (S.held shelf.old path.now) (λ bytes. text ≡ bytes)) }
    ensures short { IfOk result (λ text. length text ≤ limit) }
    ensures too_long { IsErrOf result FetchError.TooLong → IfSome (S.held shelf.old path.now) (λ bytes. limit < length bytes) }
    ensures cause { IsErrOf result FetchError.Failed → Rose (S.faults shelf.old path.now) (S.faults shelf.new path.now) }
    ensures keeps { SameHeld (S.held shelf.old) (S.held shelf.new) }
    ensures later { NoneFell (S.faults shelf.old) (S.faults shelf.new) }
    ensures served { S.serves shelf.old path.now → IsErrOf result FetchError.Failed → ⊥ }
    ensures serving { (other : List ℕ) → S.serves shelf.old other → S.serves shelf.new other }
{
    let mut text: Vec<u8> = Vec::new(alloc);
    while text.len() <= limit as usize {
        let count = shelf.read_at(path, text.len() as u64, room)?;
        if count == 0 {
            return Ok(Seq::from_vec(text));
        }
        append_front(&mut text, room, count)?;
    }
    Err(FetchError::TooLong)
}

fn append_front(text: &mut Vec<u8>, room: &[u8], count: usize) -> Result<(), NoMemory>
    requires { count ≤ length room.now }
    ensures ok { OnOk result (text.new.items ≡ text.old.items ++ take count room.now) }
{
    text.extend_from_slice(&room[..count])?;
    Ok(())
}
