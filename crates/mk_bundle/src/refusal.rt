use mk_base::{Failed, Memory};
use mk_regs::RegRefusal;
use std::alloc::AllocError;
use thiserror::Error;

/// Why a bundle is not read from a source.
#[derive(Clone, Copy, Debug, PartialEq, Eq, Error)]
pub enum StreamRefusal {
    /// The source failed.
    #[error("the source failed")]
    Fault,
    /// More bytes came than the limit.
    #[error("the input is too long")]
    TooLong,
    /// No bundle has the bytes as its text, and this is the first line, counted from 1, such that no bundle has a text
    /// that begins with the lines up to it. What stands behind the last line feed is a further line. The source was
    /// read to its end, which came before a fault and before more bytes than the limit.
    #[error("line {line} doesn't go on with a bundle text")]
    Form { line: u32 },
    /// The bytes are the text of register code, and its instruction of this number, from 0, is the first that can't be
    /// carried out: it reads a register that holds nothing. An out counts as read by the instruction behind the last. The
    /// source was read to its end, which came before a fault and before more bytes than the limit.
    #[error("instruction {instr} reads a register that holds nothing")]
    Unset { instr: u32 },
    /// The same, where the instruction names a register that isn't there.
    #[error("instruction {instr} names a register that isn't there")]
    Register { instr: u32 },
    /// Memory was wanted and not found.
    #[error("out of memory")]
    Memory,
}

impl From<Failed> for StreamRefusal {
    ghost use Rattle.std.specs.Prelude.{◌≡◌};
    ghost use Rattle.mk_bundle.specs.declared.refusal.StreamRefusal.TheVariants.{Fault};

    ghost from_gives = { λ _ e. e ≡ Fault };

    fn from(_failed: Failed) -> StreamRefusal {
        StreamRefusal::Fault
    }
}

impl From<Memory> for StreamRefusal {
    ghost use Rattle.std.specs.Prelude.{◌≡◌};
    ghost use Rattle.mk_bundle.specs.declared.refusal.StreamRefusal.TheVariants.{Memory};

    ghost from_gives = { λ _ e. e ≡ Memory };

    fn from(_memory: Memory) -> StreamRefusal {
        StreamRefusal::Memory
    }
}

impl From<AllocError> for StreamRefusal {
    ghost use Rattle.std.specs.Prelude.{◌≡◌};
    ghost use Rattle.mk_bundle.specs.declared.refusal.StreamRefusal.TheVariants.{Memory};

    ghost from_gives = { λ _ e. e ≡ Memory };

    fn from(_error: AllocError) -> StreamRefusal {
        StreamRefusal::Memory
    }
}

impl From<RegRefusal> for StreamRefusal {
    ghost use Rattle.std.specs.Prelude.{◌≡◌};
    ghost use Rattle.mk_bundle.specs.Stepping.{stream_of};

    ghost from_gives = { λ refusal e. e ≡ stream_of refusal };

    fn from(refusal: RegRefusal) -> StreamRefusal {
        match refusal {
            RegRefusal::Unset { instr } => StreamRefusal::Unset { instr },
            RegRefusal::Register { instr } => StreamRefusal::Register { instr },
            RegRefusal::Memory => StreamRefusal::Memory,
        }
    }
}
