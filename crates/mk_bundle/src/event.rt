//! What a bundle's text is read as, one event after the other.

use mk_code::{Instr, MapList, PositionList};
use mk_field::FieldId;
use mk_ssa::{Op, Operand};

/// What stands before the blocks, but for the number of registers: the field, the order, the numbers of secrets and of
/// publics, and the additive maps in the order of their lines.
#[derive(Debug, Drop)]
pub struct Head {
    pub field: FieldId,
    pub order: u8,
    pub secrets: u32,
    pub publics: u32,
    pub maps: MapList,
}

/// What one line says, or the lines of the head together.
#[derive(Debug, Drop)]
pub enum Event {
    /// The lines up to the last map, and in version 2 that of the number of registers too.
    Head(Head),
    /// A block.
    Block(Op),
    /// A claim.
    Claim(Operand),
    /// The line `code`.
    Code,
    /// An instruction.
    Instr(Instr),
    /// The positions in the trace of the shares of an output, that of share 0 first: one more than the order says, each
    /// below the number of entries.
    Out(PositionList),
    /// The last line, at the end of the text.
    End,
}
