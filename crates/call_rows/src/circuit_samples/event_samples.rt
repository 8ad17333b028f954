//! Small pairs of circuits that meet the premises of the laws, and what the laws then say of them.

pub mod samples;
