//! The two fields that a program computes in, GF(2) and GF(2^8), and additive maps on bytes. The sum
//! is exclusive or in both; the product of bytes is that of FIPS 197 section 4.
#![tactic(auto)]

mod field;
mod laws;
mod map;
mod powers;
#[cfg(test)]
mod product_tests;

pub use field::{Field, FieldId, Gf2, Gf256};
pub use laws::{map_laws, product_laws, sum_laws};
pub use map::AddMap;
