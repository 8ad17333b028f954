//! What is asked of pairs in the event form under an assumption on the inputs: of each query of the event form one with the assumption as a
//! further care, at each event node that has a variable of the query. It is asked over a graph of its own, so that the event graph stays as it is.

mod asked;
mod places;
mod sides;

pub use asked::{EventQuestions, ask_under};
pub use assume_queries::UnderError;
