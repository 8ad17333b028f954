//! What is found of two files that are searched for a difference, and what the status says of the circuits that they spell.
