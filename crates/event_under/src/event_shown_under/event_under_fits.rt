//! What it means that what is found of pairs fits two circuits in the event form under an assumption on the inputs. How it is found is no matter
//! here.
