//! Why a program is not evaluated.

use mk_ast::Limit;
use mk_base::{InputRefusal, Memory, Place, Which};
use thiserror::Error;

/// Why a program is not evaluated on its inputs.
#[derive(Clone, Copy, Debug, PartialEq, Eq, Error)]
pub enum EvalRefusal {
    /// 37: an index past its array or its range, with the place of the array's name.
    #[error("an index past its array or its range")]
    Index(Place),
    /// 38: a limit is exceeded.
    #[error("a limit is exceeded")]
    Large(Limit),
    /// 51: so many inputs were given, and so many are wanted.
    #[error("the number of inputs is not the declared one")]
    Length { given: u32, wanted: u32 },
    /// 52: the input of this number, from 0, is no element of the field.
    #[error("an input is no element of the field")]
    Element { which: Which, index: u32 },
    /// Memory was wanted and not found.
    #[error("out of memory")]
    Memory,
}

impl From<InputRefusal> for EvalRefusal {
    ghost use Rattle.std.specs.Prelude.{◌≡◌};
    ghost use Rattle.mk_eval.specs.Refusals.{refusal_of_input};

    ghost from_gives = { λ refusal e. e ≡ refusal_of_input refusal };

    fn from(refusal: InputRefusal) -> EvalRefusal {
        match refusal {
            InputRefusal::Length { given, wanted } => EvalRefusal::Length { given, wanted },
            InputRefusal::Element { which, index } => EvalRefusal::Element { which, index },
        }
    }
}

impl From<Memory> for EvalRefusal {
    ghost use Rattle.std.specs.Prelude.{◌≡◌};
    ghost use Rattle.mk_eval.specs.declared.refusal.EvalRefusal.TheVariants.{Memory};

    ghost from_gives = { λ _ e. e ≡ Memory };

    fn from(_memory: Memory) -> EvalRefusal {
        EvalRefusal::Memory
    }
}
