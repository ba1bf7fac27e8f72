//! The inputs of a program: as many as it declares, and elements of its field.

ghost use Rattle.std.specs.Prelude.{◌≡◌, ◌≤◌, ◌<◌, ◌^◌, Some, None, OnOk, IfErr, length};
ghost use Rattle.mk_unroll.specs.declared.TheConstants.{MOST_ELEMENTS};
ghost use Rattle.mk_types.specs.Elements.{elements_of};
ghost use Rattle.mk_eval.specs.Refusals.{too_many_elements, given_refusal, inputs_refusal};

use crate::refusal::EvalRefusal;
use mk_ast::{Limit, Program};
use mk_base::{InputRefusal, Which, check_each, check_number};
use mk_unroll::{check_elements, inputs_of};

/// Whether the program declares too many elements.
fn check_size(p: &Program) -> Result<(), EvalRefusal>
    ensures right { OnOk result (too_many_elements p.now ≡ None) }
    ensures wrong { IfErr result (λ e. too_many_elements p.now ≡ Some e) }
{
    match check_elements(p.decls.as_slice()) {
        Ok(()) => Ok(()),
        Err(_) => Err(EvalRefusal::Large(Limit::Elements)),
    }
}

/// Whether these inputs are as many as the program declares, and elements.
fn check_given(p: &Program, publics: &[u8], secrets: &[u8]) -> Result<(), InputRefusal>
    requires few { elements_of p.now ≤ MOST_ELEMENTS }
    requires publics { length publics.now < 2 ^ 32 }
    requires secrets { length secrets.now < 2 ^ 32 }
    ensures right { OnOk result (given_refusal p.now publics.now secrets.now ≡ None) }
    ensures wrong { IfErr result (λ e. given_refusal p.now publics.now secrets.now ≡ Some e) }
{
    let wanted = inputs_of(p.decls.as_slice());
    check_number(publics, wanted.publics)?;
    check_number(secrets, wanted.secrets)?;
    check_each(Which::Public, p.field.size(), publics)?;
    check_each(Which::Secret, p.field.size(), secrets)
}

/// Whether the program can be executed on these inputs: it declares few elements, and the inputs are as
/// many as it declares, and elements.
pub(crate) fn check_inputs(p: &Program, publics: &[u8], secrets: &[u8]) -> Result<(), EvalRefusal>
    requires publics { length publics.now < 2 ^ 32 }
    requires secrets { length secrets.now < 2 ^ 32 }
    ensures right { OnOk result (inputs_refusal p.now publics.now secrets.now ≡ None) }
    ensures wrong { IfErr result (λ e. inputs_refusal p.now publics.now secrets.now ≡ Some e) }
{
    check_size(p)?;
    check_given(p, publics, secrets)?;
    Ok(())
}
