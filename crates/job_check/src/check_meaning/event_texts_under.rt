//! What the answers of a comparison in the event mode under an assumption mean for the circuits that three texts spell. It has definitions and lemmas
//! alone.
