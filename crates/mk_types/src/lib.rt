//! The typing of source programs: which program is well typed, and the first offence of one that is
//! not.
#![tactic(auto)]

mod declarations;
mod expressions;
mod found;
mod indexes;
mod kinds;
mod names;
mod offence;
mod scope;
mod statements;
mod typed;

/// The most units of work of an execution.
pub const MOST_WORK: u32 = 65_536;

/// The most operations of an execution.
pub const MOST_OPERATIONS: u32 = 16_384;

/// The greatest value that an operator of an index gives.
pub const GREATEST_INDEX: u64 = 65_535;

pub use kinds::is_shared_variable;
pub use names::Names;
pub use offence::{Offence, OffenceKind, first_law};
pub use typed::{Typed, check_types};
