//! Code over reused registers: each instruction reads registers and writes one.
//!
//! On entry register i holds entry i of the trace, for all shares and public inputs, and the other
//! registers hold nothing. The value of an instruction is then what its register holds.
#![tactic(auto)]

mod allocation;
mod code;
mod free;
mod instr;
mod last;
mod laws;
mod refusal;
#[cfg(test)]
mod register_tests;
mod rename;
mod renamer;
mod room;

pub use allocation::{allocate, width};
pub use code::{RegCode, RegInstrList};
pub use instr::RegInstr;
pub use laws::{allocation_law, renaming_law, transitions_law, width_law};
pub use refusal::RegRefusal;
pub use rename::{rename_back, rename_outs};
pub use renamer::Renamer;

/// The most registers of register code.
pub const MOST_REGISTERS: u32 = 16_777_216;
