//! Operands and operators with other numbers.

ghost use Rattle.std.specs.Prelude.{◌≡◌, length};
ghost use Rattle.std.specs.List.{AllByRecursion};
ghost use Rattle.mk_ssa.specs.Operators.{operands, with_operands};
ghost use Rattle.mk_simplify.specs.Renumbering.{IsBelow, renumbered as renumbered_by};

use mk_ssa::{Op, Operand};

/// The operand with the number that stands in the list at its own, where it is a value.
pub(crate) fn renumbered(operand: Operand, numbers: &[u32]) -> Operand
    requires { IsBelow (length numbers.now) operand }
    ensures { result ≡ renumbered_by numbers.now operand }
{
    match operand {
        Operand::Block(k) => Operand::Block(numbers[k as usize]),
        input => input,
    }
}

/// The operator with its operands renumbered.
pub(crate) fn with_renumbered(op: Op, numbers: &[u32]) -> Op
    requires { AllByRecursion (IsBelow (length numbers.now)) (operands op) }
    ensures { result ≡ with_operands (renumbered_by numbers.now) op }
{
    op.with_operands(|operand| renumbered(operand, numbers))
}
