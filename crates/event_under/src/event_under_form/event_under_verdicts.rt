//! What is found of pairs in the event form under an assumption on the inputs fits the circuits, once each query was decided and the verdict is
//! shown. How it is shown is no matter here.

pub mod laws;
