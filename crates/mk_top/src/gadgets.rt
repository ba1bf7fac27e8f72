//! Gadgets: read to their end, and what is known of them.

ghost use Rattle.std.specs.Prelude.{◌≡◌, ◌≤◌, ◌++◌, ℕ, List, Some, OnOk, IfOk, IfErr, length, string_bytes, codes, decimal, flat_map};
ghost use Rattle.mk_lib.specs.declared.TheConstants.{MOST_GADGET_BYTES};
ghost use Rattle.mk_lib.specs.Texts.{IsTextOf};
ghost use Rattle.mk_words.specs.Words as words;
ghost use Rattle.mk_words.specs.Words.{probes_word};
ghost use Rattle.mk_top.specs.Gadgets.{Judges, verdict_line, value_line};
ghost use Rattle.mk_top.specs.Seen.{seen};
ghost use Rattle.mk_top.specs.Running.{NotMade, Made, NoText};

use crate::fault::Fault;
use crate::outputs::bytes_of;
use crate::reading::whole_text;
use mk_base::{Bytes, Memory, Source};
use mk_lib::{MOST_GADGET_BYTES, read_gadget};
use mk_pad::{Gadget, Verdict, right_value, verify_gadget};
use std::alloc::{AllocError, Global};

/// Appends the numbers of positions, a comma before each.
fn push_others(text: &mut String, positions: &[u32]) -> Result<(), AllocError>
    ensures { OnOk result (string_bytes text.new ≡ string_bytes text.old
        ++ flat_map (λ q. codes "," ++ decimal q) positions.now) }
{
    for position in positions {
        write!(text, ",{position}")?;
    }
    Ok(())
}

/// Appends the numbers of positions with commas between, or a dash.
fn push_set(text: &mut String, set: &[u32]) -> Result<(), AllocError>
    ensures { OnOk result (string_bytes text.new ≡ string_bytes text.old ++ probes_word set.now) }
{
    match set.split_first() {
        Some((first, others)) => {
            write!(text, "{first}")?;
            push_others(text, others)
        }
        None => text.push_str("-"),
    }
}

/// Appends the line of a verdict.
fn push_verdict(text: &mut String, verdict: &Verdict) -> Result<(), AllocError>
    ensures { OnOk result (string_bytes text.new ≡ string_bytes text.old ++ verdict_line verdict.now) }
{
    match verdict {
        Verdict::Strong => text.push_str("strong\n"),
        Verdict::NotShown { probes } => {
            text.push_str("not shown ")?;
            push_set(text, probes.as_slice())?;
            text.push_str("\n")
        }
    }
}

/// The lines of a verdict and of whether a value is right.
fn judgement(alloc: Global, verdict: &Verdict, right: bool) -> Result<Bytes, Memory>
    ensures { IfOk result (λ bytes. bytes ≡ verdict_line verdict.now ++ value_line right) }
{
    let mut text = String::new(alloc);
    push_verdict(&mut text, verdict)?;
    text.push_str(if right { "right\n" } else { "wrong\n" })?;
    bytes_of(text)
}

/// What is known of a gadget, in two lines.
fn judged_gadget(alloc: Global, gadget: &Gadget) -> Result<Bytes, Fault>
    ensures judges { (bytes : List ℕ) → IsTextOf bytes gadget.now → IfOk result (Judges (Some bytes)) }
    ensures fault { (bytes : List ℕ) → IsTextOf bytes gadget.now → IfErr result (NotMade words.Gadget bytes) }
{
    let verdict = verify_gadget(alloc, gadget)?;
    let right = right_value(alloc, gadget)?;
    Ok(judgement(alloc, &verdict, right)?)
}

/// What is known of the gadget with this text.
fn judged_bytes(alloc: Global, bytes: &[u8]) -> Result<Bytes, Fault>
    requires { length bytes.now ≤ MOST_GADGET_BYTES }
    ensures judges { IfOk result (Judges (Some bytes.now)) }
    ensures fault { IfErr result (NotMade words.Gadget bytes.now) }
{
    let gadget = read_gadget(alloc, bytes)?;
    judged_gadget(alloc, &gadget)
}

/// Reads a gadget text to its end, at most 65,536 bytes, and answers what is known of its gadget.
pub(crate) fn judged_text<S: Source>(alloc: Global, src: &mut S) -> Result<Bytes, Fault>
    ensures made { IfOk result (Made words.Gadget (seen S.left S.faults src.old src.new)) }
    ensures unmade { IfErr result (NoText words.Gadget (seen S.left S.faults src.old src.new)) }
    ensures reads { S.faults src.old ≤ S.faults src.new }
{
    let bytes = whole_text(alloc, src, MOST_GADGET_BYTES)?;
    judged_bytes(alloc, bytes.as_slice())
}
