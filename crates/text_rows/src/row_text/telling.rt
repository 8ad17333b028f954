//! A text that is told piece by piece.

use sec_base::put;
use std::alloc::Global;

/// A text that is told piece by piece. It isn't whole once a piece is lost, where memory ran out or a file wasn't read. So a piece is
/// put without a result, and what is asked at the end is whether all is there.
pub struct Telling {
    text: Vec<u8>,
    pub(crate) is_whole: bool,
}

/// It is let go by one call: an owner isn't taken apart field by field at each way out.
impl Drop for Telling {
    fn drop(self) {
        let Telling {
            text: _,
            is_whole: _,
        } = self;
    }
}

impl Telling {
    /// The empty text.
    pub fn new(alloc: Global) -> Telling {
        Telling {
            text: Vec::new(alloc),
            is_whole: true,
        }
    }

    /// What is told so far.
    pub fn bytes(&self) -> &[u8] {
        self.text.as_slice()
    }

    /// Puts the bytes.
    pub fn put(&mut self, bytes: &[u8]) {
        if put(&mut self.text, bytes).is_err() {
            self.is_whole = false;
        }
    }

    /// Puts a byte.
    pub fn put_byte(&mut self, byte: u8) {
        self.put(&[byte]);
    }
}
