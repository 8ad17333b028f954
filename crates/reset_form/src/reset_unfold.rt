//! The unfolding from the initial values: a signal of a net with latches in one cycle, as a function of the inputs in that
//! cycle and earlier ones, and of the latches that have no initial value.

mod cone;
pub mod laws;
mod leaves;
mod unfolder;

pub use cone::Cone;
pub use unfolder::ResetUnfolder;
