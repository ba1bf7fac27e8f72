//! Gadgets that a user brings: their form, the polynomials of their positions, and whether what they
//! compute is right.
#![tactic(auto)]

mod counting;
mod form;
mod gadget;
mod kind;
mod laws;
mod occurrences;
mod positions;
mod refusal;
mod rightness;
mod ring;
mod shown;
mod term;
mod terms;
mod verdict;

pub use form::{are_outs, fits, has_form};
pub use gadget::Gadget;
pub use kind::GadgetKind;
pub use laws::{polynomial_laws, positions_law, rest_law, strength_law};
pub use refusal::{PadRefusal, Verdict};
pub use rightness::right_value;
pub use verdict::verify_gadget;

/// The greatest order of a user's gadget.
pub const TOP_GADGET_ORDER: u8 = 8;

/// The most instructions of a user's gadget.
pub const MOST_GADGET_INSTRS: u32 = 512;

/// The most terms that a position of a gadget may count.
pub const MOST_TERMS: u64 = 1_024;

/// The most sets of positions that are looked at.
pub const MOST_SETS: u64 = 2_097_152;

/// The most positions of a set that is looked at.
pub(crate) const MOST_PROBES: usize = 8;
