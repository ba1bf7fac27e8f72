//! The evaluation of a program.

ghost use Rattle.std.specs.Prelude.{◌≡◌, ◌⊎◌, ◌^◌, ◌<◌, ◌≤◌, Some, None, IfOk, IfErr, length, option_map};
ghost use Rattle.mk_unroll.specs.declared.TheConstants.{MOST_ELEMENTS};
ghost use Rattle.mk_types.specs.Elements.{elements_of};
ghost use Rattle.mk_types.specs.Meaning.{result as result_of};
ghost use Rattle.mk_types.specs.Stops.{stop};
ghost use Rattle.mk_types.specs.Units.{units};
ghost use Rattle.mk_unroll.specs.Unrolled.{unrolled};
ghost use Rattle.mk_eval.specs.Refusals.{refusal_of_event, refusal};
ghost use Rattle.mk_eval.specs.declared.refusal.EvalRefusal.TheVariants as refusal_;

use crate::inputs::check_inputs;
use crate::refusal::EvalRefusal;
use mk_ast::SourceRefusal;
use mk_base::Bytes;
use mk_ssa::{Ssa, denote};
use mk_types::Typed;
use mk_unroll::unroll;
use std::alloc::Global;

/// The values of a program, or why its execution stops.
fn values_of(alloc: Global, p: &Typed) -> Result<Ssa, EvalRefusal>
    requires { elements_of p.now ≤ MOST_ELEMENTS }
    ensures values { IfOk result (λ s. s ≡ unrolled p.now) }
    ensures ends { IfOk result (λ _. stop (units p.now) ≡ None) }
    ensures stops { IfErr result (λ e. (e ≡ refusal_.Memory) ⊎ (option_map refusal_of_event (stop (units p.now)) ≡ Some e)) }
{
    // At order 1 no program within the other limits exceeds that on its size.
    match unroll(alloc, p, 1) {
        Ok(values) => Ok(values),
        Err(SourceRefusal::Index(at)) => Err(EvalRefusal::Index(at)),
        Err(SourceRefusal::Large(limit)) => Err(EvalRefusal::Large(limit)),
        Err(SourceRefusal::Memory) => Err(EvalRefusal::Memory),
        // Unrolling has no other refusals.
        Err(_) => unreachable!(),
    }
}

/// The elements of the outputs of a program, in order of declaration, arrays from index 0 on, for public
/// inputs and secrets in order of declaration. Refused are, in this order: more than 65,536 declared
/// elements; a number of public inputs, then of secrets, that is not the declared one; a public input, then
/// a secret, that is no element; and what stops execution, an index that goes wrong or a limit that is
/// exceeded. `Large` is never of the size. `Memory` may stand in the place of any answer.
pub fn eval(alloc: Global, p: &Typed, publics: &[u8], secrets: &[u8]) -> Result<Bytes, EvalRefusal>
    requires publics { length publics.now < 2 ^ 32 }
    requires secrets { length secrets.now < 2 ^ 32 }
    ensures outputs { IfOk result (λ outputs. result_of p.now publics.now secrets.now ≡ Some outputs) }
    ensures few { IfOk result (λ outputs. length outputs ≤ MOST_ELEMENTS) }
    ensures taken { IfOk result (λ _. refusal p.now publics.now secrets.now ≡ None) }
    ensures refused { IfErr result (λ e. (e ≡ refusal_.Memory) ⊎ (refusal p.now publics.now secrets.now ≡ Some e)) }
{
    check_inputs(p.program(), publics, secrets)?;
    let values = values_of(alloc, p)?;
    Ok(denote(alloc, &values, publics, secrets)?)
}
