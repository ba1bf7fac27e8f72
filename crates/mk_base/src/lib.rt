//! The ground of the compiler: what a program reads from and writes to, lists that contracts see as
//! lists, and places in a text. The two loops over the outside, `read_all` and `write_all`, say byte
//! for byte what was read and written, and answer a fault only where the outside counted one.
#![tactic(auto)]

mod decimal;
mod inputs;
mod items;
mod memory;
mod outside;
mod plain;
mod streams;

pub use decimal::{decimal_number, hex_value};
pub use inputs::{InputRefusal, check_each, check_number};
pub use items::{Bytes, Items, Memory, Words};
pub use memory::{MemSink, MemSource};
pub use outside::{Failed, Sink, Source};
pub use plain::{DropSink, SureSource};
pub use streams::{ReadRefusal, read_all, write_all};

/// The greatest masking order: a value is held as at most `TOP_ORDER + 1` shares.
pub const TOP_ORDER: u8 = 15;

/// A place in a text. Both numbers are counted from 1, the column in bytes. Wherever sources are spoken of, a
/// place is one of these: where an element stands in its array is its index, and where a declaration stands
/// among the others is its number.
#[derive(Clone, Copy, Debug, PartialEq, Eq)]
pub struct Place {
    pub line: u32,
    pub column: u32,
}

/// Which of the words of elements that a program is given.
#[derive(Clone, Copy, Debug, PartialEq, Eq)]
pub enum Which {
    /// The public inputs.
    Public,
    /// The secrets.
    Secret,
    /// The secrets of the other of two worlds.
    Other,
    /// The random elements.
    Tape,
}
