//! Which values outputs are made of.

ghost use Rattle.std.specs.Prelude.{◌≡◌, length, All, IfOk, fold};
ghost use Rattle.std.specs.List.{AllByRecursion};
ghost use Rattle.mk_ssa.specs.Operators.{operands};
ghost use Rattle.mk_simplify.specs.Renumbering.{IsBelow, AreEarlier, AreMarked, with_mark};

use mk_base::Memory;
use mk_ssa::{Op, Operand};
use std::alloc::Global;

/// Marks an operand as needed, where it is a value.
fn mark(marks: &mut Vec<bool>, operand: Operand)
    requires { IsBelow (length marks.old.items) operand }
    ensures { marks.new.items ≡ with_mark marks.old.items operand }
{
    if let Operand::Block(k) = operand {
        marks[k as usize] = true;
    }
}

/// Marks the operands of an operator as needed.
fn mark_operands(marks: &mut Vec<bool>, op: Op)
    requires { AllByRecursion (IsBelow (length marks.old.items)) (operands op) }
    ensures { marks.new.items ≡ fold with_mark marks.old.items (operands op) }
{
    let (left, right) = op.operands();
    if let Some(left) = left {
        mark(marks, left);
    }
    if let Some(right) = right {
        mark(marks, right);
    }
}

/// For each value, whether an output needs it, directly or through operands.
pub(crate) fn needs(alloc: Global, ops: &[Op], outs: &[Operand]) -> Result<Vec<bool>, Memory>
    requires earlier { AreEarlier ops.now }
    requires outs { All (IsBelow (length ops.now)) outs.now }
    ensures { IfOk result (λ marks. AreMarked ops.now outs.now marks.items) }
{
    let mut marks = vec![in alloc; false; ops.len()]?;
    for out in outs {
        mark(&mut marks, *out);
    }
    let mut k = ops.len();
    while k > 0 {
        k -= 1;
        if marks[k] {
            mark_operands(&mut marks, ops[k]);
        }
    }
    Ok(marks)
}
