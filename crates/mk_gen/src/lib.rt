//! The generator of large sources: a loop of so many turns, over two arrays of 16 elements. Each turn has
//! five operators on elements and is 14 units of work.
#![tactic(auto)]

mod laws;
mod text;

pub use laws::generated_law;
pub use text::gen_text;
