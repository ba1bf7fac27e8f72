//! Sources from tables: a program over bytes whose one output is the element of a table of 256 at its
//! secret.
#![tactic(auto)]

mod classes;
mod coefficients;
mod images;
mod laws;
mod program;
#[cfg(test)]
mod program_tests;
mod source;
mod text;

/// How many elements a table has, one for each byte.
pub const TABLE_BYTES: u32 = 256;

pub use laws::interpolation_law;
pub use program::program_of_table;
pub use text::table_text;
