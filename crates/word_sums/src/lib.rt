//! Words of literals that are sums and products of others in another shape: whether two words spell one number under every assignment,
//! by rewriting their difference as a sum of literals.
#![tactic(auto)]

mod adders;
mod answer;
mod carries;
mod coefficients;
mod cut_lists;
mod cuts;
mod difference;
mod rewriting;
mod sides;
mod vanishing;
mod words;

pub use adders::majority;
pub use answer::Words;
pub use carries::{Carry, guessed_carries};
pub use words::{MAX_WORD, same_words};
