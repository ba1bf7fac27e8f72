//! The words that the program is started with, what they ask for, and the lines that it tells faults by.
//!
//! A word of elements has two hexadecimal digits for each, of either case, and is `-` for none; one of probes has
//! decimal numbers below 2^32 with commas between, and is `-` for none. `form_asked` says what words ask for, and
//! keeps the words of elements and probes as they stand; `elements_of` and `probes_of` decode them. A fault line
//! takes no memory; a status is a number from 0 to 10.
#![tactic(auto)]

mod command;
mod elements;
mod fault;
mod numbers;
mod status;

pub use command::{Form, TapeForm, form_asked};
pub use elements::{elements_of, push_elements};
pub use fault::{CheckFault, FaultLine, InputFault, SourceFault, counted, fixed, numbered};
pub use numbers::probes_of;
pub use status::{Status, code_of};
