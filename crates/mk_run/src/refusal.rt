//! Why a code is not run, and why the tapes of its runs are not counted.

use mk_base::{InputRefusal, Memory, Which};
use thiserror::Error;

/// Why secrets are not encoded, or a code is not run.
#[derive(Clone, Copy, Debug, PartialEq, Eq, Error)]
pub enum RunRefusal {
    /// 51: so many inputs were given, and so many are wanted.
    #[error("the number of inputs is not that of the code")]
    Length { given: u32, wanted: u32 },
    /// 52: the input of this number, from 0, is no element of the field.
    #[error("an input is no element of the field")]
    Element { which: Which, index: u32 },
    /// 53: the tape has so many elements, and at least so many are wanted.
    #[error("the tape is too short")]
    TapeShort { given: u32, wanted: u32 },
    /// Memory was wanted and not found.
    #[error("out of memory")]
    Memory,
}

impl From<InputRefusal> for RunRefusal {
    ghost use Rattle.std.specs.Prelude.{◌≡◌};
    ghost use Rattle.mk_run.specs.Refusals.{run_refusal_of};

    ghost from_gives = { λ refusal e. e ≡ run_refusal_of refusal };

    fn from(refusal: InputRefusal) -> RunRefusal {
        match refusal {
            InputRefusal::Length { given, wanted } => RunRefusal::Length { given, wanted },
            InputRefusal::Element { which, index } => RunRefusal::Element { which, index },
        }
    }
}

impl From<Memory> for RunRefusal {
    ghost use Rattle.std.specs.Prelude.{◌≡◌};
    ghost use Rattle.mk_run.specs.declared.refusal.RunRefusal.TheVariants.{Memory};

    ghost from_gives = { λ _ e. e ≡ Memory };

    fn from(_memory: Memory) -> RunRefusal {
        RunRefusal::Memory
    }
}

/// Why the tapes of a code's runs are not counted.
#[derive(Clone, Copy, Debug, PartialEq, Eq, Error)]
pub enum CountRefusal {
    /// 51: so many inputs were given, and so many are wanted.
    #[error("the number of inputs is not that of the code")]
    Length { given: u32, wanted: u32 },
    /// 52: the input of this number, from 0, is no element of the field.
    #[error("an input is no element of the field")]
    Element { which: Which, index: u32 },
    /// 54: the probe of this number, from 0, is one too many, or is no position of the trace.
    #[error("a probe too many, or outside the trace")]
    Probe { index: u32 },
    /// 91: there are too many tapes of so many elements.
    #[error("too many tapes")]
    Tapes { elements: u32 },
    /// Memory was wanted and not found.
    #[error("out of memory")]
    Memory,
}

impl From<InputRefusal> for CountRefusal {
    ghost use Rattle.std.specs.Prelude.{◌≡◌};
    ghost use Rattle.mk_run.specs.Refusals.{count_refusal_of};

    ghost from_gives = { λ refusal e. e ≡ count_refusal_of refusal };

    fn from(refusal: InputRefusal) -> CountRefusal {
        match refusal {
            InputRefusal::Length { given, wanted } => CountRefusal::Length { given, wanted },
            InputRefusal::Element { which, index } => CountRefusal::Element { which, index },
        }
    }
}

impl From<Memory> for CountRefusal {
    ghost use Rattle.std.specs.Prelude.{◌≡◌};
    ghost use Rattle.mk_run.specs.declared.refusal.CountRefusal.TheVariants.{Memory};

    ghost from_gives = { λ _ e. e ≡ Memory };

    fn from(_memory: Memory) -> CountRefusal {
        CountRefusal::Memory
    }
}
