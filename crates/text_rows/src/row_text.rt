//! What the row programs share: pieces that a program writes at once, the rows of its files, and what they give a run.

mod pieces;
mod rows;
mod runs;
mod telling;

pub use pieces::{file_of, show, show_bit, show_byte, show_count, show_number, show_word};
pub use rows::{number_of, split_at, text_of, words_of};
pub use runs::{run_words, shelf_of};
pub use telling::Telling;
