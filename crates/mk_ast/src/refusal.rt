//! Why a source is refused.

use mk_base::{Memory, Place};
use std::alloc::AllocError;
use thiserror::Error;

/// A limit that a source exceeds.
#[derive(Clone, Copy, Debug, PartialEq, Eq)]
pub enum Limit {
    /// At most 65,536 declared elements.
    Elements,
    /// At most 65,536 units of work.
    Work,
    /// At most 16,384 operations on elements.
    Operations,
    /// At most 1,000,000 for the operations times the square of the number of shares.
    Size,
}

/// Why a source is refused, with the place where.
#[derive(Clone, Copy, Debug, PartialEq, Eq, Error)]
pub enum SourceRefusal {
    /// 31: no program begins so.
    #[error("no program begins so")]
    Syntax(Place),
    /// 32: a name that is not declared.
    #[error("a name that is not declared")]
    Unknown(Place),
    /// 33: a name that is declared twice.
    #[error("a name that is declared twice")]
    Twice(Place),
    /// 34: a name or an element of another kind than its place wants.
    #[error("a name or an element of another kind than its place wants")]
    Kind(Place),
    /// 35: an assignment to an input.
    #[error("an assignment to an input")]
    AssignInput(Place),
    /// 36: a map that the field does not have.
    #[error("a map that the field does not have")]
    MapForm(Place),
    /// 37: an index past its array or its range.
    #[error("an index past its array or its range")]
    Index(Place),
    /// 38: a limit is exceeded.
    #[error("a limit is exceeded")]
    Large(Limit),
    /// Memory was wanted and not found.
    #[error("out of memory")]
    Memory,
}

impl From<Memory> for SourceRefusal {
    ghost use Rattle.std.specs.Prelude.{◌≡◌};
    ghost use Rattle.mk_ast.specs.declared.refusal.SourceRefusal.TheVariants.{Memory};

    ghost from_gives = { λ _ e. e ≡ Memory };

    fn from(_memory: Memory) -> SourceRefusal {
        SourceRefusal::Memory
    }
}

impl From<AllocError> for SourceRefusal {
    ghost use Rattle.std.specs.Prelude.{◌≡◌};
    ghost use Rattle.mk_ast.specs.declared.refusal.SourceRefusal.TheVariants.{Memory};

    ghost from_gives = { λ _ e. e ≡ Memory };

    fn from(_error: AllocError) -> SourceRefusal {
        SourceRefusal::Memory
    }
}
