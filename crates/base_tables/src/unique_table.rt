//! Tables that number keys in the order in which they first come. Each key is found by an open table of the numbers: as nodes are
//! found in the unique table of a package of decision diagrams (Brace, Rudell and Bryant, Efficient Implementation of a BDD
//! Package, 1990).

mod key;
mod search;
mod table;

pub use base_lists::{NoMemory, Seq, Word, Words};
pub use key::{Key, mixed};
pub use table::UniqueTable;
