use mk_base::Memory;
use thiserror::Error;

/// Why register code can't be renamed to code over positions.
#[derive(Clone, Copy, Debug, PartialEq, Eq, Error)]
pub enum RegRefusal {
    /// 42: the instruction of this number, from 0, reads a register that holds nothing. An out counts as
    /// read by the instruction behind the last.
    #[error("a register that holds nothing is read")]
    Unset { instr: u32 },
    /// 43: the instruction of this number, from 0, names a register that isn't there. An out counts as
    /// named by the instruction behind the last.
    #[error("a register isn't there")]
    Register { instr: u32 },
    /// Memory was wanted and not found.
    #[error("out of memory")]
    Memory,
}

impl From<Memory> for RegRefusal {
    ghost use Rattle.std.specs.Prelude.{◌≡◌};
    ghost use Rattle.mk_regs.specs.declared.refusal.RegRefusal.TheVariants.{Memory};

    ghost from_gives = { λ _ e. e ≡ Memory };

    fn from(_memory: Memory) -> RegRefusal {
        RegRefusal::Memory
    }
}
