//! Values: the operators that a program's values are made by, over secrets, public inputs and earlier
//! values.
#![tactic(auto)]

ghost use Rattle.std.specs.Prelude.{◌≡◌};
ghost use Rattle.mk_ssa.specs.Kinds.{is_public as public_by_kind};

use mk_base::Items;
use mk_field::AddMap;

mod builder;
mod evaluation;
mod operators;
mod values;

pub use builder::SsaBuilder;
pub use evaluation::denote;
pub use values::Ssa;

/// An operand: a secret, a public input or an earlier value, each by its number from 0.
#[derive(Clone, Copy, Debug, PartialEq, Eq, Hash)]
pub enum Operand {
    Secret(u32),
    Public(u32),
    Block(u32),
}

/// An operator with its operands. Maps are named by their numbers.
#[derive(Clone, Copy, Debug, PartialEq, Eq, Hash)]
pub enum Op {
    /// A public constant.
    Const { value: u8 },
    /// The public sum of two publics.
    PubAdd { left: Operand, right: Operand },
    /// The public product of two publics.
    PubMul { left: Operand, right: Operand },
    /// The public square of a public.
    PubSq { arg: Operand },
    /// The public image of a public under a map.
    PubMap { map: u32, arg: Operand },
    /// A public value as a shared one.
    Lift { arg: Operand },
    /// The sum of two shared values.
    Add { left: Operand, right: Operand },
    /// The sum of a shared value and a public one.
    AddPub { left: Operand, right: Operand },
    /// The product of a shared value and a public one.
    Scale { left: Operand, right: Operand },
    /// The square of a shared value.
    Sq { arg: Operand },
    /// The image of a shared value under a map.
    Map { map: u32, arg: Operand },
    /// The product of two shared values.
    Mul { left: Operand, right: Operand },
    /// The same shared value, shared afresh.
    Refresh { arg: Operand },
}

impl Op {
    /// Whether the value is public.
    pub fn is_public(&self) -> bool
        ensures { result ≡ public_by_kind self.now }
    {
        matches!(
            self,
            Op::Const { .. }
                | Op::PubAdd { .. }
                | Op::PubMul { .. }
                | Op::PubSq { .. }
                | Op::PubMap { .. }
        )
    }
}

/// A list of operators.
pub type OpList = Items<Op>;

/// A list of operands.
pub type OperandList = Items<Operand>;

/// A list of additive maps.
pub type MapList = Items<AddMap>;
