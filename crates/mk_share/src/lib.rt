//! Boolean sharings: a value is held as N shares whose sum it is. Share 0 corrects the sum, and the
//! others are random.
#![tactic(auto)]

mod share;
#[cfg(test)]
mod share_tests;
mod with_order;

pub use share::{Bank, Sharing, decode, encode, encoding_law, value_of};
pub use with_order::shares_at;
