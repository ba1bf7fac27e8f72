//! Simplifying: of values with equal operators and operands one is kept, and of those that no output needs
//! none. What the outputs stand for stays the same.
#![tactic(auto)]

mod laws;
mod merging;
mod needs;
mod numbering;
mod simplified;

pub use laws::simplified_law;
pub use simplified::simplify;
