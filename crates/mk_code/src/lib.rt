//! Straight-line code over shares: its instructions, whole codes and how they are built one
//! instruction after the other.
//!
//! The trace of a code lists the shares of the secrets, then the public inputs, then one value for
//! each instruction. Share j of secret i is at position `i * (order + 1) + j`, public input k at
//! `secrets * (order + 1) + k` and the value of instruction k at `secrets * (order + 1) + publics + k`.
#![tactic(auto)]

mod builder;
mod code;
mod instr;
mod laws;
mod machine;
#[cfg(test)]
mod machine_tests;

pub use builder::CodeBuilder;
pub use code::{Code, InstrList, MapList, PositionList};
pub use instr::Instr;
pub use laws::{columns_law, counting_laws, encodings_law, run_laws};
pub use machine::{Machine, Used};

/// The most secrets, public inputs or outputs of a code.
pub const MOST_INPUTS: u32 = 65_536;

/// The most additive maps of a code.
pub const MOST_MAPS: u32 = 32_768;

/// The most instructions of a code.
pub const MOST_INSTRS: u32 = 8_388_608;
