//! Gadgets that a user brings, as texts. Each gadget has one text.
//!
//! Each line ends with a line feed. Its words stand one space apart: numbers are decimal and without
//! leading zeros, and elements are two lower-case hexadecimal digits. The lines are, in this order:
//!
//! - `gadget mul` or `gadget refresh`, `field gf2` or `field gf256`, and `order T`, T from 1 to 8;
//! - for each instruction `rnd`, `const C`, `copy P`, `add P P`, `mul P P` or `sq P`, at most 512;
//! - `out` and the positions of the outs, one for each share, and then `end`.
//!
//! Share j of operand k has the position `k * (T + 1) + j`, and the instructions have those behind all
//! shares. Positions in an instruction are earlier, those of the outs are different ones of instructions,
//! and elements are of the field.
//!
//! Reading names the first line where no gadget text goes on. A text is cut into lines that end with a
//! line feed; what stands behind the last one is a further line, which lacks it.
#![tactic(auto)]

mod draft;
mod laws;
mod read;
mod refusal;

pub use laws::texts_differ;
pub use read::read_gadget;
pub use refusal::{GadgetList, LibRefusal};

/// The most bytes of a gadget text that is read.
pub const MOST_GADGET_BYTES: u32 = 65_536;
