//! What the answers of a comparison in the event mode mean for the circuits that two texts spell. It has definitions and lemmas alone.
