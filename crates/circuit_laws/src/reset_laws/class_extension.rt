//! What stays of a class map where the next latch is given its class: the variables of enables, what tells two classes apart, what
//! unfoldings visit, and the event nodes that they reach.

pub mod laws;
