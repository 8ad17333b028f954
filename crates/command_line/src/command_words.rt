//! The command `sec` with its subcommands, as `clap` is to read it.

mod command;

pub use command::sec_command;
