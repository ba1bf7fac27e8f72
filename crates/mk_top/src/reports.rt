//! Reports: a bundle read, checked, and then reported on.

ghost use Rattle.std.specs.Prelude.{◌≤◌, ℕ, List, Some, IfOk, IfErr};
ghost use Rattle.mk_bundle.specs.Pairs.{IsBundleOf};
ghost use Rattle.mk_words.specs.Words.{Report};
ghost use Rattle.mk_top.specs.Headline.{Reports};
ghost use Rattle.mk_top.specs.Seen.{seen};
ghost use Rattle.mk_top.specs.Running.{NotMade, Made, NoText};

use crate::fault::Fault;
use crate::reading::whole_bundle;
use mk_base::{Bytes, Source};
use mk_check::check;
use mk_report::report;
use mk_rules::Bundle;
use std::alloc::Global;

/// The report of a bundle.
fn report_of(alloc: Global, bundle: &Bundle) -> Result<Bytes, Fault>
    ensures reports { (text : List ℕ) → IsBundleOf text bundle.now.code bundle.now.cert
        → IfOk result (Reports (Some text)) }
    ensures fault { (text : List ℕ) → IsBundleOf text bundle.now.code bundle.now.cert
        → IfErr result (NotMade Report text) }
{
    check(alloc, &bundle.code, &bundle.cert)?;
    Ok(report(alloc, &bundle.code, &bundle.cert)?)
}

/// Reads a bundle to its end, checks it, and answers its report.
pub(crate) fn reported_text<S: Source>(alloc: Global, src: &mut S) -> Result<Bytes, Fault>
    ensures made { IfOk result (Made Report (seen S.left S.faults src.old src.new)) }
    ensures unmade { IfErr result (NoText Report (seen S.left S.faults src.old src.new)) }
    ensures reads { S.faults src.old ≤ S.faults src.new }
{
    let bundle = whole_bundle(alloc, src)?;
    report_of(alloc, &bundle)
}
