//! Tables of the names of a stimulus and of a circuit's ports, and the first name that is missing.

mod tables;

pub use tables::{first_missing, table_of_inputs, table_of_names, table_of_ports, word_of};
