//! Where files are read from.

ghost use Rattle.std.specs.Prelude.{◌≤◌, ℕ, List, Option, None, length, IsErrOf, IfOk, IfSome};
ghost use Rattle.base_shelves.specs.Outside.{Rose, SameHeld, NoneFell, Gives};

use std::io::{Read, Seek, SeekFrom};
use std::rt::Files;
use std::{fs, io};

/// Why a read of a path failed.
#[derive(Clone, Copy)]
pub enum ShelfError {
    /// The outside failed: the file can't be opened, or its bytes can't be had; of real files, each `std::io::Error` of
    /// another kind than `OutOfMemory`. The path's count of faults has risen by 1 at least, or stands at the last value
    /// of u64.
    Failed,
    /// Memory was wanted and couldn't be had; of real files, an `std::io::Error` of the kind `OutOfMemory`. It comes
    /// without a fault of the outside: real files count none for it.
    NoMemory,
}

/// Files that can be read in pieces.
pub trait Shelf {
    /// The bytes held at a path, where they are told. No call changes them.
    ghost held: { Self → List ℕ → Option (List ℕ) };

    /// The count of faults at a path. It never falls.
    ghost faults: { Self → List ℕ → ℕ };

    /// That no read of a path fails from now on. A shelf need not promise it.
    ghost serves: { Self → List ℕ → Type 0 } = { λ _ _. ⊥ };

    /// Puts bytes of the file from place `from` on into the front of the room, and says how many. They are none
    /// only at the file's end or past it, or without room. `Failed` comes only where the path's count of faults
    /// rose, or stands at the last value of u64.
    fn read_at(&mut self, path: &str, from: u64, room: &mut [u8]) -> Result<usize, ShelfError>
        ensures bound { IfOk result (λ count. count ≤ length room.new) }
        ensures gives { IfOk result (λ count. IfSome (held self.old path.now) (λ bytes. Gives bytes from count room.new)) }
        ensures keeps { SameHeld (held self.old) (held self.new) }
        ensures later { NoneFell (faults self.old) (faults self.new) }
        ensures cause { IsErrOf result ShelfError.Failed → Rose (faults self.old path.now) (faults self.new path.now) }
        ensures served { serves self.old path.now → IsErrOf result ShelfError.Failed → ⊥ }
        ensures serving { (other : List ℕ) → serves self.old other → serves self.new other };
}

/// Real files. It tells no content, and has one count of faults for all paths.
#[derive(Drop)]
pub struct FileShelf<'a, R: Files> {
    rt: &'a R,
    faults: u64,
}

impl<'a, R: Files> FileShelf<'a, R> {
    /// The files that this runtime opens.
    pub fn new(rt: &'a R) -> FileShelf<'a, R> {
        FileShelf { rt, faults: 0 }
    }
}

impl<'a, R: Files> Shelf for FileShelf<'a, R> {
    ghost held = { λ _ _. None };

    ghost faults = { λ s _. s.faults };

    fn read_at(&mut self, path: &str, from: u64, room: &mut [u8]) -> Result<usize, ShelfError> {
        match read_file(self.rt, path, from, room) {
            Ok(count) => Ok(count),
            Err(error) => {
                if error.kind() == io::ErrorKind::OutOfMemory {
                    return Err(ShelfError::NoMemory);
                }
                self.faults = self.faults.saturating_add(1);
                Err(ShelfError::Failed)
            }
        }
    }
}

fn read_file<R: Files>(rt: &R, path: &str, from: u64, room: &mut [u8]) -> io::Result<usize>
    ensures { IfOk result (λ count. count ≤ length room.new) }
{
    let mut file = fs::open(rt, path)?;
    file.seek(SeekFrom::Start(from))?;
    file.read(room)
}
