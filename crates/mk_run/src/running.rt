//! One run of a code.

ghost use Rattle.std.specs.Prelude.{◌≡◌, ◌⊎◌, ◌+◌, ◌*◌, ◌≤◌, ◌<◌, ◌^◌, Some, None, IfOk, IfErr, length};
ghost use Rattle.mk_field.specs.Field.{size};
ghost use Rattle.mk_code.specs.Counting.{Elements};
ghost use Rattle.mk_code.specs.Listing.{trace_len};
ghost use Rattle.mk_code.specs.Machine.{needed, outcome};
ghost use Rattle.mk_code.specs.Trace.{randoms, trace};
ghost use Rattle.mk_run.specs.Refusals.{run_refusal};
ghost use Rattle.mk_run.specs.declared.refusal.RunRefusal.TheVariants as refusal_;

use crate::inputs::check_run;
use crate::refusal::RunRefusal;
use mk_base::{Bytes, Memory};
use mk_code::{Code, Machine, Used};
use std::alloc::Global;

/// The values of a run: the shares of the secrets, secret by secret, the public inputs, and one element for
/// each instruction.
pub type Trace = Bytes;

/// Carries out all instructions that are left, over the elements of the tape in order.
pub(crate) fn finish(machine: &mut Machine<'_>, tape: &[u8])
    requires tape { Elements (size machine.old.code.field) (length tape.now) tape.now }
    requires enough { needed machine.old ≤ length tape.now }
    ensures outcome { machine.new.entries ≡ outcome machine.old tape.now }
    ensures code { machine.new.code ≡ machine.old.code }
    ensures done { length machine.new.code.instrs ≤ machine.new.at }
{
    let mut taken = 0;
    while !machine.done() {
        let word = if taken < tape.len() { tape[taken] } else { 0 };
        if machine.step(word) == Used::Word {
            taken += 1;
        }
    }
}

/// The trace of a run on inputs that fit.
pub(crate) fn traced(
    alloc: Global,
    code: &Code,
    publics: &[u8],
    shares: &[u8],
    tape: &[u8],
) -> Result<Trace, Memory>
    requires publics { Elements (size code.now.field) code.now.publics publics.now }
    requires shares { Elements (size code.now.field) (code.now.secrets * (code.now.order + 1)) shares.now }
    requires tape { Elements (size code.now.field) (length tape.now) tape.now }
    requires enough { randoms code.now.instrs ≤ length tape.now }
    ensures trace { IfOk result (λ entries. entries ≡ trace code.now publics.now shares.now tape.now) }
    ensures elements { IfOk result (λ entries. Elements (size code.now.field) (trace_len code.now) entries) }
{
    let mut machine = Machine::new(alloc, code, publics, shares)?;
    finish(&mut machine, tape);
    Ok(machine.into_trace())
}

/// The trace of one run of a code on these public inputs and on these shares of its secrets, secret by
/// secret, over the elements of the tape in order. What is left of a longer tape isn't used. Refused are, in
/// this order: a number of public inputs, then of shares, that is not the code's; a public input, then a
/// share, then an element of the tape, that is no element of the field; and a tape that has fewer elements
/// than the code takes. `Memory` may stand in the place of any answer.
pub fn run_code(
    alloc: Global,
    code: &Code,
    publics: &[u8],
    shares: &[u8],
    tape: &[u8],
) -> Result<Trace, RunRefusal>
    requires publics { length publics.now < 2 ^ 32 }
    requires shares { length shares.now < 2 ^ 32 }
    requires tape { length tape.now < 2 ^ 32 }
    ensures trace { IfOk result (λ entries. entries ≡ trace code.now publics.now shares.now tape.now) }
    ensures elements { IfOk result (λ entries. Elements (size code.now.field) (trace_len code.now) entries) }
    ensures taken { IfOk result (λ _. run_refusal code.now publics.now shares.now tape.now ≡ None) }
    ensures refused { IfErr result (λ e. (e ≡ refusal_.Memory) ⊎ (run_refusal code.now publics.now shares.now tape.now ≡ Some e)) }
{
    check_run(code, publics, shares, tape)?;
    Ok(traced(alloc, code, publics, shares, tape)?)
}
