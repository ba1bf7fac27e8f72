//! Counts: a bundle read, and the tapes of its code counted in two worlds.

ghost use Rattle.std.specs.Prelude.{◌≡◌, ◌++◌, ◌≤◌, ◌<◌, ◌^◌, ℕ, List, Some, IfOk, IfErr, OnOk, length};
ghost use Rattle.std.specs.Prelude.{string_bytes, nat_eq, flat_map};
ghost use Rattle.std.specs.List.{list_all};
ghost use Rattle.mk_bundle.specs.Pairs.{IsBundleOf};
ghost use Rattle.mk_words.specs.Words.{Count};
ghost use Rattle.mk_top.specs.Counts.{Counts, row_line, table_text};
ghost use Rattle.mk_top.specs.Seen.{seen};
ghost use Rattle.mk_top.specs.Running.{NotMade, Made, NoText};

use crate::fault::Fault;
use crate::outputs::bytes_of;
use crate::reading::whole_bundle;
use mk_base::{Bytes, Memory, Source};
use mk_rules::Bundle;
use mk_run::{Row, count};
use mk_words::push_elements;
use std::alloc::Global;

/// Appends the line of a row.
fn push_row(alloc: Global, text: &mut String, row: &Row) -> Result<(), Memory>
    ensures { OnOk result (string_bytes text.new ≡ string_bytes text.old ++ row_line row.now) }
{
    push_elements(alloc, text, row.seen.as_slice())?;
    let (first, second) = (row.first, row.second);
    write!(text, " {first} {second}\n")?;
    Ok(())
}

/// Whether every row has the same number in both worlds.
fn are_equal(rows: &[Row]) -> bool
    ensures { result ≡ list_all (λ row. nat_eq row.first row.second) rows.now }
{
    rows.iter().all(|row| row.first == row.second)
}

/// Appends the lines of rows.
fn push_rows(alloc: Global, text: &mut String, rows: &[Row]) -> Result<(), Memory>
    ensures { OnOk result (string_bytes text.new ≡ string_bytes text.old ++ flat_map row_line rows.now) }
{
    for row in rows {
        push_row(alloc, text, row)?;
    }
    Ok(())
}

/// The lines of a table.
fn table_lines(alloc: Global, rows: &[Row]) -> Result<Bytes, Memory>
    ensures { IfOk result (λ bytes. bytes ≡ table_text rows.now) }
{
    let mut text = String::new(alloc);
    push_rows(alloc, &mut text, rows)?;
    let verdict = if are_equal(rows) {
        "equal\n"
    } else {
        "differs\n"
    };
    text.push_str(verdict)?;
    bytes_of(text)
}

/// The lines of the table of the code of a bundle.
fn count_of(
    alloc: Global,
    bundle: &Bundle,
    publics: &[u8],
    first: &[u8],
    second: &[u8],
    probes: &[u32],
) -> Result<Bytes, Fault>
    requires publics { length publics.now < 2 ^ 32 }
    requires first { length first.now < 2 ^ 32 }
    requires second { length second.now < 2 ^ 32 }
    requires probes { length probes.now < 2 ^ 32 }
    ensures counts { (text : List ℕ) → IsBundleOf text bundle.now.code bundle.now.cert
        → IfOk result (Counts publics.now first.now second.now probes.now (Some text)) }
    ensures fault { (text : List ℕ) → IsBundleOf text bundle.now.code bundle.now.cert
        → IfErr result (NotMade (Count publics.now first.now second.now probes.now) text) }
{
    let table = count(alloc, &bundle.code, publics, first, second, probes)?;
    Ok(table_lines(alloc, table.as_slice())?)
}

/// Reads a bundle to its end, and answers the lines of the table of its code.
pub(crate) fn counted_text<S: Source>(
    alloc: Global,
    src: &mut S,
    publics: &[u8],
    first: &[u8],
    second: &[u8],
    probes: &[u32],
) -> Result<Bytes, Fault>
    requires publics { length publics.now < 2 ^ 32 }
    requires first { length first.now < 2 ^ 32 }
    requires second { length second.now < 2 ^ 32 }
    requires probes { length probes.now < 2 ^ 32 }
    ensures made { IfOk result (Made (Count publics.now first.now second.now probes.now)
        (seen S.left S.faults src.old src.new)) }
    ensures unmade { IfErr result (NoText (Count publics.now first.now second.now probes.now)
        (seen S.left S.faults src.old src.new)) }
    ensures reads { S.faults src.old ≤ S.faults src.new }
{
    let bundle = whole_bundle(alloc, src)?;
    count_of(alloc, &bundle, publics, first, second, probes)
}
