//! What is found of pairs in the event form under an assumption can be told by the names of inputs and latches. It has lemmas alone.
