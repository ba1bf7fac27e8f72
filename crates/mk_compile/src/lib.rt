//! The compiler: a program's masked code, made of the blocks of a certificate, and the laws that such code
//! computes on shares what the blocks stand for.
#![tactic(auto)]

mod bundle;
mod code;
mod emit;
mod laws;
mod positions;
mod program;

pub use laws::{correct_law, values_law};
pub use program::compile;
