//! The evaluation of source programs: the elements of the outputs for given public inputs and secrets.
#![tactic(auto)]

mod evaluation;
mod inputs;
mod refusal;

pub use evaluation::eval;
pub use refusal::EvalRefusal;
