//! The top call: it carries out the command that its words ask for, `compile`, `check`, `eval`, `run`, `count`,
//! `report`, `gen`, `trial`, `table`, `gadget` or `regs`, from the bytes that are read to the bytes that are written,
//! and promises what the answer means.
#![tactic(auto)]

mod answer;
mod bundle;
mod counts;
mod fault;
mod gadgets;
mod outputs;
mod reading;
mod registers;
mod reports;
mod runs;
mod source;
mod tables;
mod top;
mod trials;

pub use fault::Fault;
pub use mk_gen::gen_text;
pub use mk_parse::MOST_SOURCE_BYTES;
pub use mk_words::{Status, code_of};
pub use registers::correctness_law;
pub use top::mask_main;
