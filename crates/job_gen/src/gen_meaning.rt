//! A generated pair: its report, what this means, and that a comparison of it is never refused. The job itself is done by `job_gen`.

mod generation;
mod report;

pub use generation::Generation;
pub use plain_check::CompareError;
pub use report::summary;
