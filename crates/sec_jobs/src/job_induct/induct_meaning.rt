//! What is found of two files that are compared by blocks of latches, and what the status says of the circuits that they spell.
