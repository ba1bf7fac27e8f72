//! What operators say of their operands, and operators over other operands.

ghost use Rattle.std.specs.Prelude.{◌≡◌, ◌∷◌, ◌++◌, [], length, take, slice_get, option_to_list};
ghost use Rattle.std.specs.List.{AllByRecursion};
ghost use Rattle.mk_ssa.specs.declared.Operand.{Operand};
ghost use Rattle.mk_ssa.specs.Kinds.{shared_operands as shared_of, public_operands as public_of};
ghost use Rattle.mk_ssa.specs.Operators.{operator, operands as operands_of, operator_word, with_operands as over};

use crate::{Op, Operand};

impl Op {
    /// The first and the second operand.
    pub fn operands(&self) -> (Option<Operand>, Option<Operand>)
        ensures all { option_to_list result.0 ++ option_to_list result.1 ≡ operands_of self.now }
        ensures first { result.0 ≡ slice_get (operands_of self.now) 0 }
        ensures second { result.1 ≡ slice_get (operands_of self.now) 1 }
    {
        match *self {
            Op::Const { .. } => (None, None),
            Op::PubSq { arg }
            | Op::PubMap { arg, .. }
            | Op::Lift { arg }
            | Op::Sq { arg }
            | Op::Map { arg, .. }
            | Op::Refresh { arg } => (Some(arg), None),
            Op::PubAdd { left, right }
            | Op::PubMul { left, right }
            | Op::Add { left, right }
            | Op::AddPub { left, right }
            | Op::Scale { left, right }
            | Op::Mul { left, right } => (Some(left), Some(right)),
        }
    }

    /// The first and the second operand that is to be shared.
    pub fn shared_operands(&self) -> (Option<Operand>, Option<Operand>)
        ensures all { option_to_list result.0 ++ option_to_list result.1 ≡ shared_of self.now }
        ensures first { result.0 ≡ slice_get (shared_of self.now) 0 }
        ensures second { result.1 ≡ slice_get (shared_of self.now) 1 }
    {
        match *self {
            Op::Const { .. }
            | Op::PubAdd { .. }
            | Op::PubMul { .. }
            | Op::PubSq { .. }
            | Op::PubMap { .. }
            | Op::Lift { .. } => (None, None),
            Op::AddPub { left, .. } | Op::Scale { left, .. } => (Some(left), None),
            Op::Sq { arg } | Op::Map { arg, .. } | Op::Refresh { arg } => (Some(arg), None),
            Op::Add { left, right } | Op::Mul { left, right } => (Some(left), Some(right)),
        }
    }

    /// The operator over the operands that the function answers for its own.
    pub fn with_operands<F: Fn(Operand) -> Operand>(self, f: F) -> Op
        requires { AllByRecursion (F.pre f) (operands_of self) }
        ensures { (g : Operand → Operand) → AllByRecursion (λ v. (w : Operand) → F.post f v w → w ≡ g v) (operands_of self) → result ≡ over g self }
    {
        match self {
            Op::Const { value } => Op::Const { value },
            Op::PubAdd { left, right } => Op::PubAdd {
                left: f(left),
                right: f(right),
            },
            Op::PubMul { left, right } => Op::PubMul {
                left: f(left),
                right: f(right),
            },
            Op::PubSq { arg } => Op::PubSq { arg: f(arg) },
            Op::PubMap { map, arg } => Op::PubMap { map, arg: f(arg) },
            Op::Lift { arg } => Op::Lift { arg: f(arg) },
            Op::Add { left, right } => Op::Add {
                left: f(left),
                right: f(right),
            },
            Op::AddPub { left, right } => Op::AddPub {
                left: f(left),
                right: f(right),
            },
            Op::Scale { left, right } => Op::Scale {
                left: f(left),
                right: f(right),
            },
            Op::Sq { arg } => Op::Sq { arg: f(arg) },
            Op::Map { map, arg } => Op::Map { map, arg: f(arg) },
            Op::Mul { left, right } => Op::Mul {
                left: f(left),
                right: f(right),
            },
            Op::Refresh { arg } => Op::Refresh { arg: f(arg) },
        }
    }

    /// The operator with these for its first and its second shared operand.
    pub fn with_shared_operands(self, first: Operand, second: Operand) -> Op
        ensures operator { operator result ≡ operator self }
        ensures shared { shared_of result ≡ take (length (shared_of self)) (first ∷ second ∷ []) }
        ensures public { public_of result ≡ public_of self }
    {
        match self {
            Op::Add { .. } => Op::Add {
                left: first,
                right: second,
            },
            Op::AddPub { right, .. } => Op::AddPub { left: first, right },
            Op::Scale { right, .. } => Op::Scale { left: first, right },
            Op::Sq { .. } => Op::Sq { arg: first },
            Op::Map { map, .. } => Op::Map { map, arg: first },
            Op::Mul { .. } => Op::Mul {
                left: first,
                right: second,
            },
            Op::Refresh { .. } => Op::Refresh { arg: first },
            unshared => unshared,
        }
    }

    /// The word that stands for the operator in texts.
    pub fn word(&self) -> &'static str
        ensures { result.now ≡ operator_word self.now }
    {
        match self {
            Op::Const { .. } => "const",
            Op::PubAdd { .. } => "padd",
            Op::PubMul { .. } => "pmul",
            Op::PubSq { .. } => "psq",
            Op::PubMap { .. } => "pmap",
            Op::Lift { .. } => "lift",
            Op::Add { .. } => "add",
            Op::AddPub { .. } => "addp",
            Op::Scale { .. } => "scale",
            Op::Sq { .. } => "sq",
            Op::Map { .. } => "map",
            Op::Mul { .. } => "mul",
            Op::Refresh { .. } => "refresh",
        }
    }
}
