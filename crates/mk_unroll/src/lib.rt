//! Unrolling: a source is executed with an operand in place of each element, and what it does becomes a
//! list of values.
#![tactic(auto)]

mod beginning;
mod elements;
mod expressions;
mod frame;
mod indexes;
mod meter;
mod names;
mod operators;
mod outputs;
mod programs;
mod statements;
mod turns;
mod variables;

/// The most elements that a program declares.
pub const MOST_ELEMENTS: u64 = 65_536;

/// The most that the operations times the square of the number of shares may be.
pub const MOST_SIZE: u64 = 1_000_000;

pub use beginning::{Inputs, check_elements, inputs_of};
pub use programs::unroll;
