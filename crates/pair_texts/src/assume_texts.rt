//! What the answers of a comparison under an assumption mean for the circuits that three texts spell. It has definitions and lemmas alone.
