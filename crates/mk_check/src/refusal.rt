use mk_base::Memory;
use mk_ssa::Operand;
use thiserror::Error;

/// Why a code isn't accepted with its certificate: the first part of the rule that doesn't hold, and
/// the first place where it doesn't.
#[derive(Clone, Copy, Debug, PartialEq, Eq, Error)]
pub enum CheckRefusal {
    /// The first block of which an operand isn't there or isn't of its kind.
    #[error("operand {block}")]
    Operand { block: u32 },
    /// The first instruction at which the code differs from the templates of the blocks, or the length
    /// of the shorter of the two.
    #[error("tile {instr}")]
    Tile { instr: u32 },
    /// The first output that isn't the bank of its claim, or the smaller one of their numbers.
    #[error("output {index}")]
    Output { index: u32 },
    /// The first product of which a value reaches both places, and the first such value.
    #[error("doubled {value:?} {block}")]
    Doubled { value: Operand, block: u32 },
    /// Memory was wanted and not found.
    #[error("out of memory")]
    Memory,
}

impl From<Memory> for CheckRefusal {
    ghost use Rattle.std.specs.Prelude.{◌≡◌};
    ghost use Rattle.mk_check.specs.declared.refusal.CheckRefusal.TheVariants.{Memory};

    ghost from_gives = { λ _ e. e ≡ Memory };

    fn from(_memory: Memory) -> CheckRefusal {
        CheckRefusal::Memory
    }
}
