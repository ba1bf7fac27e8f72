//! Tables: read to their end, and the sources that give their elements.

ghost use Rattle.std.specs.Prelude.{◌≤◌, Some, IfOk, IfErr, length};
ghost use Rattle.mk_table.specs.declared.TheConstants.{TABLE_BYTES};
ghost use Rattle.mk_words.specs.Words.{Table};
ghost use Rattle.mk_top.specs.Tables.{Tabulates};
ghost use Rattle.mk_top.specs.Seen.{seen};
ghost use Rattle.mk_top.specs.Running.{NotMade, Made, NoText};

use crate::fault::Fault;
use crate::reading::whole_text;
use mk_base::{Bytes, Source};
use mk_table::{TABLE_BYTES, table_text};
use mk_words::InputFault;
use std::alloc::Global;

/// The source of a table of these bytes.
fn source_of_table(alloc: Global, bytes: &[u8]) -> Result<Bytes, Fault>
    requires { length bytes.now ≤ TABLE_BYTES }
    ensures made { IfOk result (Tabulates (Some bytes.now)) }
    ensures fault { IfErr result (NotMade Table bytes.now) }
{
    match <&[u8; 256]>::try_from(bytes) {
        Ok(table) => Ok(table_text(alloc, table)?),
        Err(_) => Err(Fault::Inputs(InputFault::Length {
            given: bytes.len() as u32,
            wanted: TABLE_BYTES,
        })),
    }
}

/// Reads a table of 256 bytes to its end, and answers the source that gives its elements.
pub(crate) fn tabulated_text<S: Source>(alloc: Global, src: &mut S) -> Result<Bytes, Fault>
    ensures made { IfOk result (Made Table (seen S.left S.faults src.old src.new)) }
    ensures unmade { IfErr result (NoText Table (seen S.left S.faults src.old src.new)) }
    ensures reads { S.faults src.old ≤ S.faults src.new }
{
    let bytes = whole_text(alloc, src, TABLE_BYTES)?;
    source_of_table(alloc, bytes.as_slice())
}
