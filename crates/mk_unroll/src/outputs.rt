//! The operands of the outputs.

ghost use Rattle.std.specs.Prelude.{◌≡◌, [], ◌++◌, Some, length, if◌then◌else◌, OnOk, IfOk};
ghost use Rattle.mk_types.specs.Elements.{is_output_class};
ghost use Rattle.mk_types.specs.Environment.{output_elements};
ghost use Rattle.mk_types.specs.Scope.{is_variable};

use crate::variables::Variables;
use mk_ast::{Class, Decl, What};
use mk_base::{Items, Memory};
use mk_ssa::{Operand, OperandList};
use std::alloc::Global;

/// Whether a declaration makes an output.
fn is_output(what: &What) -> bool
    ensures { result ≡ is_variable is_output_class (Some what.now) }
{
    match what {
        What::Map { .. } => false,
        What::Var { class, .. } => matches!(*class, Class::Output),
    }
}

/// Appends these operands.
fn push_all(outs: &mut OperandList, operands: &[Operand]) -> Result<(), Memory>
    ensures { OnOk result (outs.new ≡ outs.old ++ operands.now) }
{
    for operand in operands {
        outs.push(*operand)?;
    }
    Ok(())
}

/// Appends the operands of a variable, if it is an output.
fn push_output(outs: &mut OperandList, what: &What, operands: &[Operand]) -> Result<(), Memory>
    ensures { OnOk result (outs.new ≡ outs.old ++ (if is_variable is_output_class (Some what.now) then operands.now else [])) }
{
    if !is_output(what) {
        return Ok(());
    }
    push_all(outs, operands)
}

/// The operands of the outputs, in order of declaration.
pub(crate) fn outputs(
    alloc: Global,
    decls: &[Decl],
    variables: &Variables,
) -> Result<OperandList, Memory>
    requires { length decls.now ≡ length variables.now }
    ensures { IfOk result (λ outs. outs ≡ output_elements decls.now variables.now) }
{
    let mut outs = Items::new(alloc);
    for (number, decl) in decls.iter().enumerate() {
        push_output(&mut outs, &decl.what, variables.variable(number))?;
    }
    Ok(outs)
}
