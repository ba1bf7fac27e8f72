//! Gadgets: the templates that operators on shared values stand for, and emitters that append them to
//! a code in the making.
#![tactic(auto)]

mod laws;
mod linear;
mod strong;

pub use laws::{cost_law, placed_law, steady_law, strong_law};
pub use linear::{emit_add, emit_add_public, emit_lift, emit_map, emit_scale_public, emit_sq};
pub use strong::{emit_mul, emit_refresh};
