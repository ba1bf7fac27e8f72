//! Placement of refreshes: which uses of shared values go through a refresh, so that no value comes to
//! both operands of one product.
#![tactic(auto)]

mod laws;
mod layout;
mod marking;
mod need;
mod placement;

pub use laws::{different_law, placement_law};
pub use placement::place;
