//! One run of a code whose secrets are encoded by the first elements of its tape.

ghost use Rattle.std.specs.Prelude.{◌≡◌, ◌⊎◌, ◌≤◌, ◌<◌, ◌^◌, Some, None, IfOk, IfErr, OnOk, length};
ghost use Rattle.mk_field.specs.Field.{size};
ghost use Rattle.mk_code.specs.Counting.{Elements};
ghost use Rattle.mk_code.specs.Listing.{trace_len};
ghost use Rattle.mk_code.specs.Private.{masked_trace};
ghost use Rattle.mk_run.specs.Refusals.{inputs_refusal, whole_refusal, tape_len};
ghost use Rattle.mk_run.specs.declared.refusal.RunRefusal.TheVariants as refusal_;

use crate::encoding::encoded;
use crate::inputs::{check_each, check_tape, spent_by, tape_len_of};
use crate::refusal::RunRefusal;
use crate::running::{Trace, traced};
use mk_base::{InputRefusal, Which, check_number};
use mk_code::Code;
use std::alloc::Global;

/// Whether these public inputs and secrets are as many as the code takes, and they and the tape are elements.
fn check_inputs(
    code: &Code,
    publics: &[u8],
    secrets: &[u8],
    tape: &[u8],
) -> Result<(), InputRefusal>
    requires publics { length publics.now < 2 ^ 32 }
    requires secrets { length secrets.now < 2 ^ 32 }
    requires tape { length tape.now < 2 ^ 32 }
    ensures right { OnOk result (inputs_refusal code.now publics.now secrets.now tape.now ≡ None) }
    ensures wrong { IfErr result (λ e. inputs_refusal code.now publics.now secrets.now tape.now ≡ Some e) }
    ensures publics { OnOk result (Elements (size code.now.field) code.now.publics publics.now) }
    ensures secrets { OnOk result (Elements (size code.now.field) code.now.secrets secrets.now) }
    ensures tape { OnOk result (Elements (size code.now.field) (length tape.now) tape.now) }
{
    let field = code.field();
    check_number(publics, code.publics())?;
    check_number(secrets, code.secrets())?;
    check_each(field, Which::Public, publics)?;
    check_each(field, Which::Secret, secrets)?;
    check_each(field, Which::Tape, tape)
}

/// Whether the code can be run on these public inputs and secrets with this whole tape.
fn check_whole(code: &Code, publics: &[u8], secrets: &[u8], tape: &[u8]) -> Result<(), RunRefusal>
    requires publics { length publics.now < 2 ^ 32 }
    requires secrets { length secrets.now < 2 ^ 32 }
    requires tape { length tape.now < 2 ^ 32 }
    ensures right { OnOk result (whole_refusal code.now publics.now secrets.now tape.now ≡ None) }
    ensures wrong { IfErr result (λ e. whole_refusal code.now publics.now secrets.now tape.now ≡ Some e) }
    ensures publics { OnOk result (Elements (size code.now.field) code.now.publics publics.now) }
    ensures secrets { OnOk result (Elements (size code.now.field) code.now.secrets secrets.now) }
    ensures tape { OnOk result (Elements (size code.now.field) (length tape.now) tape.now) }
    ensures enough { OnOk result (tape_len code.now ≤ length tape.now) }
{
    check_inputs(code, publics, secrets, tape)?;
    check_tape(tape, tape_len_of(code))
}

/// The trace of one run of a code on these public inputs and secrets, with one tape for both: its first
/// elements encode the secrets, secret by secret, and the code takes its random elements from the rest, in
/// order. What is left of a longer tape isn't used. Refused are, in this order: a number of public inputs,
/// then of secrets, that is not the code's; a public input, then a secret, then an element of the tape, that
/// is no element of the field; and a tape that has fewer elements than the encodings and the code take.
/// `Memory` may stand in the place of any answer.
pub fn run_masked(
    alloc: Global,
    code: &Code,
    publics: &[u8],
    secrets: &[u8],
    tape: &[u8],
) -> Result<Trace, RunRefusal>
    requires publics { length publics.now < 2 ^ 32 }
    requires secrets { length secrets.now < 2 ^ 32 }
    requires tape { length tape.now < 2 ^ 32 }
    ensures trace { IfOk result (λ entries. entries ≡ masked_trace code.now publics.now secrets.now tape.now) }
    ensures elements { IfOk result (λ entries. Elements (size code.now.field) (trace_len code.now) entries) }
    ensures taken { IfOk result (λ _. whole_refusal code.now publics.now secrets.now tape.now ≡ None) }
    ensures refused { IfErr result (λ e. (e ≡ refusal_.Memory) ⊎ (whole_refusal code.now publics.now secrets.now tape.now ≡ Some e)) }
{
    check_whole(code, publics, secrets, tape)?;
    let (first, rest) = tape.split_at(spent_by(code) as usize);
    let shares = encoded(alloc, code, secrets, first)?;
    Ok(traced(alloc, code, publics, shares.as_slice(), rest)?)
}
