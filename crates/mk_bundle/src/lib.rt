//! Bundle texts: a code and its certificate as lines of text. Each pair has one text.
//!
//! Each line ends with a line feed. Its words stand one space apart: numbers are decimal and without
//! leading zeros, elements are two lower-case hexadecimal digits, and `V` is an operand, `sK`, `pK` or
//! `bK`, for the secret, the public input or the block of number K. The lines are, in this order:
//!
//! - `mask 1`, `field gf2` or `field gf256`, `order T`, `secrets A`, `publics B`;
//! - `map H` for each additive map, H being the images of the eight bits, that of bit 0 first;
//! - for each block `block const C`, `block padd V V`, `block pmul V V`, `block psq V`,
//!   `block pmap M V`, `block lift V`, `block add V V`, `block addp V V`, `block scale V V`,
//!   `block sq V`, `block map M V`, `block mul V V` or `block refresh V`;
//! - `claim V` for each claim, and then `code`;
//! - for each instruction `rnd`, `const C`, `copy P`, `add P P`, `mul P P`, `sq P` or `map M P`;
//! - `out` and the positions of its shares for each output, and then `end`.
//!
//! That is version 1, of code over positions, whose order T is 1 to 8. Version 2 is of code over registers. It is the same with these
//! differences, D and S being registers:
//!
//! - the first line is `mask 2`, and `registers R` stands behind the maps, R being the number of registers;
//! - the order T is 1 to 15;
//! - the instructions are `rnd D`, `const D C`, `copy D S`, `add D S S`, `mul D S S`, `sq D S` or
//!   `map D M S`, where D is the register that is written;
//! - `out` has registers, which are read behind the last instruction.
//!
//! A text has at most 131,072 blocks and 65,536 claims; a code keeps the limits on its own lines.
//! Positions and maps in the lines of a code are those that there are, and elements are of its field. In
//! the lines of blocks numbers are any of 32 bits, and so are registers in those of instructions and outputs.
//!
//! Both versions are read as code over positions: while version 2 is read, each register is replaced by the
//! position of the entry that it holds. Reading names the first line where no bundle text goes on. A text is cut into
//! lines that end with a line feed; what stands behind the last one is a further line, which lacks it. Where all lines
//! are read, but a register isn't there or is read while it holds nothing, the first instruction that does so is named.
#![tactic(auto)]

mod collect;
mod draft;
mod event;
mod input;
mod notes;
mod read;
mod reader;
mod refusal;
mod step;
mod text;
mod write;

/// The most bytes of a text that is read.
pub const MOST_BYTES: u32 = 268_435_456;

/// The greatest masking order of a text of version 1.
pub const TEXT_TOP_ORDER: u8 = 8;

/// The most bytes that a reader takes of a source behind the lines for which the events that it answered stand.
pub const MOST_HELD: usize = 4096;

pub use collect::collect_bundle;
pub use event::{Event, Head};
pub use read::{BundleRefusal, read_bundle, register_texts_differ, texts_differ};
pub use reader::BundleReader;
pub use refusal::StreamRefusal;
pub use text::to_text;
pub use write::{write_bundle, write_registers};
