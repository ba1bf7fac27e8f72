//! Inputs: read to their end.

ghost use Rattle.std.specs.Prelude.{◌≤◌, IfOk, IfErr, IfSome, length};
ghost use Rattle.mk_base.specs.Streams.{ReadsAll};
ghost use Rattle.mk_bundle.specs.declared.TheConstants.{MOST_BYTES};
ghost use Rattle.mk_bundle.specs.Reads.{Collected};
ghost use Rattle.mk_top.specs.Seen.{seen};
ghost use Rattle.mk_top.specs.Running.{NotRead, NoBundle};

use crate::fault::Fault;
use mk_base::{Bytes, ReadRefusal, Source, read_all};
use mk_bundle::{MOST_BYTES, collect_bundle};
use mk_rules::Bundle;
use std::alloc::Global;

/// Reads the whole of a text, at most `limit` bytes.
pub(crate) fn whole_text<S: Source>(alloc: Global, src: &mut S, limit: u32) -> Result<Bytes, Fault>
    ensures read { IfOk result (λ bytes. IfSome (S.left src.old) (λ rest. ReadsAll rest bytes (S.left src.new))) }
    ensures within { IfOk result (λ bytes. length bytes ≤ limit) }
    ensures fault { IfErr result (NotRead limit (seen S.left S.faults src.old src.new)) }
    ensures never_falls { S.faults src.old ≤ S.faults src.new }
{
    match read_all(alloc, src, limit) {
        Ok(bytes) => Ok(bytes),
        Err(ReadRefusal::Fault) => Err(Fault::ReadFault),
        Err(ReadRefusal::TooLong) => Err(Fault::TooLong { limit }),
        Err(ReadRefusal::Memory) => Err(Fault::Memory),
    }
}

/// Reads a bundle, whose text is all that the input gives, at most 268,435,456 bytes. Beside the code and the
/// certificate no more is kept than a few lines, and of a bundle over registers what these hold.
pub(crate) fn whole_bundle<S: Source>(alloc: Global, src: &mut S) -> Result<Bundle, Fault>
    ensures read { IfOk result (λ bundle. Collected bundle MOST_BYTES (S.left src.old) (S.left src.new)) }
    ensures fault { IfErr result (NoBundle (seen S.left S.faults src.old src.new)) }
    ensures never_falls { S.faults src.old ≤ S.faults src.new }
{
    Ok(collect_bundle(alloc, src, MOST_BYTES)?)
}
