//! The path of a file.

ghost use Rattle.std.specs.Prelude.{◌≡◌, ℕ, List, string_bytes, IfOk};

use base_lists::{Duplicate, NoMemory};
use std::alloc::Global;
use std::marker::Model;

/// The path of a file. A contract sees it as its bytes.
#[derive(Drop)]
pub struct FilePath {
    text: String,
}

impl Model for FilePath {
    ghost Value = { List ℕ };

    ghost view = { λ p. string_bytes p.text };
}

impl FilePath {
    /// The path that the text spells.
    pub fn from_str(alloc: Global, text: &str) -> Result<FilePath, NoMemory>
        ensures { IfOk result (λ path. path ≡ text.now) }
    {
        Ok(FilePath {
            text: String::from_str(alloc, text)?,
        })
    }

    /// The path as text.
    pub fn as_str(&self) -> &str
        ensures { result.now ≡ self.now }
    {
        self.text.as_str()
    }
}

impl Duplicate for FilePath {
    fn duplicate(&self, alloc: Global) -> Result<FilePath, NoMemory> {
        FilePath::from_str(alloc, self.text.as_str())
    }
}
