//! The limits of a count: on its probes, and on the number of tapes.

ghost use Rattle.std.specs.Prelude.{◌≡◌, ◌≤◌, ◌<◌, ◌^◌, Some, None, IfSome, IfNone, IfOk, IfErr, OnOk, length, not, nat_lt};
ghost use Rattle.std.specs.List.{position};
ghost use Rattle.mk_code.specs.Counting.{AllBelow};
ghost use Rattle.mk_code.specs.Listing.{trace_len};
ghost use Rattle.mk_run.specs.Refusals.{tape_len, tapes, wrong_probe, too_many_tapes};
ghost use Rattle.mk_run.specs.declared.limits.TheConstants.{MOST_TAPES};
ghost use Rattle.mk_run.specs.declared.refusal.CountRefusal.TheVariants as refusal_;

use crate::inputs::tape_len_of;
use crate::refusal::CountRefusal;
use mk_code::Code;

/// The most tapes of a count.
const MOST_TAPES: u64 = 1_048_576;

/// The most entries of all traces of a count together.
const MOST_ENTRIES: u64 = 4_294_967_296;

/// The number of the first probe that is no position of a trace with so many entries.
fn first_outside(len: u32, probes: &[u32]) -> Option<usize>
    ensures { result ≡ position (λ p. not (nat_lt p len)) probes.now }
{
    probes.iter().position(|probe| *probe >= len)
}

/// Whether there are at most as many probes as the order, each of them a position of the trace.
pub(crate) fn check_probes(code: &Code, probes: &[u32]) -> Result<(), CountRefusal>
    requires { length probes.now < 2 ^ 32 }
    ensures right { OnOk result (wrong_probe code.now probes.now ≡ None) }
    ensures wrong { IfErr result (λ e. wrong_probe code.now probes.now ≡ Some e) }
    ensures within { OnOk result (AllBelow (trace_len code.now) probes.now) }
{
    let most = u32::from(code.order());
    if probes.len() as u32 > most {
        return Err(CountRefusal::Probe { index: most });
    }
    match first_outside(code.trace_len(), probes) {
        None => Ok(()),
        Some(index) => Err(CountRefusal::Probe {
            index: index as u32,
        }),
    }
}

/// How many tapes there are, where they are not too many.
fn few_tapes(code: &Code) -> Option<u32>
    ensures few { IfSome result (λ _. too_many_tapes code.now ≡ None) }
    ensures many { IfNone result (too_many_tapes code.now ≡ Some (refusal_.Tapes (tape_len code.now))) }
    ensures count { IfSome result (λ count. count ≡ tapes code.now) }
    ensures most { IfSome result (λ count. count ≤ MOST_TAPES) }
{
    let count = u64::from(code.field().size()).checked_pow(tape_len_of(code))?;
    if count > MOST_TAPES || count * u64::from(code.trace_len()) > MOST_ENTRIES {
        return None;
    }
    Some(count as u32)
}

/// Whether there are not too many tapes, and how many there are.
pub(crate) fn check_tapes(code: &Code) -> Result<u32, CountRefusal>
    ensures right { IfOk result (λ _. too_many_tapes code.now ≡ None) }
    ensures wrong { IfErr result (λ e. too_many_tapes code.now ≡ Some e) }
    ensures count { IfOk result (λ count. count ≡ tapes code.now) }
    ensures most { IfOk result (λ count. count ≤ MOST_TAPES) }
{
    match few_tapes(code) {
        Some(count) => Ok(count),
        None => Err(CountRefusal::Tapes {
            elements: tape_len_of(code),
        }),
    }
}
