use mk_base::Memory;
use mk_code::PositionList;
use thiserror::Error;

/// Why a gadget can't be looked at.
#[derive(Clone, Copy, Debug, PartialEq, Eq, Error)]
pub enum PadRefusal {
    /// There are so many sets of positions, which are too many.
    #[error("sets {sets}")]
    TooManySets { sets: u64 },
    /// The first position that counts too many terms counts so many.
    #[error("terms {terms}")]
    TooManyTerms { terms: u64 },
    /// Memory was wanted and not found.
    #[error("out of memory")]
    Memory,
}

impl From<Memory> for PadRefusal {
    ghost use Rattle.std.specs.Prelude.{◌≡◌};
    ghost use Rattle.mk_pad.specs.declared.refusal.PadRefusal.TheVariants.{Memory};

    ghost from_gives = { λ _ e. e ≡ Memory };

    fn from(_memory: Memory) -> PadRefusal {
        PadRefusal::Memory
    }
}

/// What is known of a gadget.
#[derive(Debug, Drop)]
pub enum Verdict {
    /// Every set of at most as many positions as its order is shown, so that it is strong.
    Strong,
    /// The first set that isn't shown.
    NotShown { probes: PositionList },
}
