//! What it means that an outcome fits two circuits under an assumption on their inputs, in the plain form and from the latches' initial
//! values. It has definitions alone.
