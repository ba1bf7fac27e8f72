//! Runs of the code of a bundle.

ghost use Rattle.std.specs.Prelude.{◌≡◌, ◌⊎◌, ◌≤◌, ◌<◌, ◌^◌, ℕ, List, Some, None, IfOk, IfErr, length};
ghost use Rattle.mk_bundle.specs.Pairs.{IsBundleOf};
ghost use Rattle.mk_code.specs.Private.{masked_trace};
ghost use Rattle.mk_run.specs.Refusals.{whole_refusal};
ghost use Rattle.mk_run.specs.declared.refusal.RunRefusal.TheVariants as refusal_;
ghost use Rattle.mk_words.specs.Words.{Run};
ghost use Rattle.mk_top.specs.Forms.{given_of, IsShort};
ghost use Rattle.mk_top.specs.Runs.{Runs, tape_of, run_text};
ghost use Rattle.mk_top.specs.Seen.{seen};
ghost use Rattle.mk_top.specs.Running.{NotMade, Made, NoText};

use crate::fault::Fault;
use crate::outputs::outputs_text;
use crate::reading::whole_bundle;
use mk_base::{Bytes, Source};
use mk_code::Code;
use mk_rules::Bundle;
use mk_run::{RunRefusal, run_masked, tape_from_seed, tape_len_of};
use std::alloc::Global;

/// Where the whole tape of a run comes from.
#[derive(Clone, Copy)]
pub(crate) enum WholeTape<'a> {
    /// From a seed.
    Seed { seed: [u8; 32] },
    /// These are its elements.
    Elements { elements: &'a [u8] },
}

/// The lines of the outputs of a run with this whole tape.
fn text_on(
    alloc: Global,
    code: &Code,
    publics: &[u8],
    secrets: &[u8],
    tape: &[u8],
) -> Result<Bytes, RunRefusal>
    requires publics { length publics.now < 2 ^ 32 }
    requires secrets { length secrets.now < 2 ^ 32 }
    requires tape { length tape.now < 2 ^ 32 }
    ensures text { IfOk result (λ bytes. bytes ≡ run_text code.now
        (masked_trace code.now publics.now secrets.now tape.now)) }
    ensures taken { IfOk result (λ _. whole_refusal code.now publics.now secrets.now tape.now ≡ None) }
    ensures refused { IfErr result (λ e. (e ≡ refusal_.Memory)
        ⊎ (whole_refusal code.now publics.now secrets.now tape.now ≡ Some e)) }
{
    let entries = run_masked(alloc, code, publics, secrets, tape)?;
    Ok(outputs_text(alloc, code, entries.as_slice())?)
}

/// The same, wherever the tape comes from.
fn text_of_run(
    alloc: Global,
    code: &Code,
    publics: &[u8],
    secrets: &[u8],
    tape: WholeTape<'_>,
) -> Result<Bytes, RunRefusal>
    requires publics { length publics.now < 2 ^ 32 }
    requires secrets { length secrets.now < 2 ^ 32 }
    requires tape { IsShort tape }
    ensures text { IfOk result (λ bytes. bytes ≡ run_text code.now
        (masked_trace code.now publics.now secrets.now (tape_of code.now (given_of tape.entry)))) }
    ensures taken { IfOk result (λ _. whole_refusal code.now publics.now secrets.now
        (tape_of code.now (given_of tape.entry)) ≡ None) }
    ensures refused { IfErr result (λ e. (e ≡ refusal_.Memory)
        ⊎ (whole_refusal code.now publics.now secrets.now (tape_of code.now (given_of tape.entry)) ≡ Some e)) }
{
    match tape {
        WholeTape::Seed { seed } => {
            let elements = tape_from_seed(alloc, code.field(), &seed, tape_len_of(code))?;
            text_on(alloc, code, publics, secrets, elements.as_slice())
        }
        WholeTape::Elements { elements } => text_on(alloc, code, publics, secrets, elements),
    }
}

/// The lines of the outputs of a run of a bundle.
fn run_of(
    alloc: Global,
    bundle: &Bundle,
    publics: &[u8],
    secrets: &[u8],
    tape: WholeTape<'_>,
) -> Result<Bytes, Fault>
    requires publics { length publics.now < 2 ^ 32 }
    requires secrets { length secrets.now < 2 ^ 32 }
    requires tape { IsShort tape }
    ensures runs { (text : List ℕ) → IsBundleOf text bundle.now.code bundle.now.cert
        → IfOk result (Runs publics.now secrets.now (given_of tape.entry) (Some text)) }
    ensures fault { (text : List ℕ) → IsBundleOf text bundle.now.code bundle.now.cert
        → IfErr result (NotMade (Run publics.now secrets.now (given_of tape.entry)) text) }
{
    Ok(text_of_run(alloc, &bundle.code, publics, secrets, tape)?)
}

/// Reads a bundle to its end, and answers the lines of the outputs of its run.
pub(crate) fn ran_text<S: Source>(
    alloc: Global,
    src: &mut S,
    publics: &[u8],
    secrets: &[u8],
    tape: WholeTape<'_>,
) -> Result<Bytes, Fault>
    requires publics { length publics.now < 2 ^ 32 }
    requires secrets { length secrets.now < 2 ^ 32 }
    requires tape { IsShort tape }
    ensures made { IfOk result (Made (Run publics.now secrets.now (given_of tape.entry))
        (seen S.left S.faults src.old src.new)) }
    ensures unmade { IfErr result (NoText (Run publics.now secrets.now (given_of tape.entry))
        (seen S.left S.faults src.old src.new)) }
    ensures reads { S.faults src.old ≤ S.faults src.new }
{
    let bundle = whole_bundle(alloc, src)?;
    run_of(alloc, &bundle, publics, secrets, tape)
}
