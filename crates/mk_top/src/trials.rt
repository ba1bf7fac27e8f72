//! Trials: the generator's text, and what it is compiled to.

ghost use Rattle.std.specs.Prelude.{◌≡◌, ◌≤◌, [], IfOk, IfErr, count_by};
ghost use Rattle.mk_base.specs.declared.TheConstants.{TOP_ORDER};
ghost use Rattle.mk_words.specs.Words.{Gen, Trial};
ghost use Rattle.mk_top.specs.Headline.{Generates, Tries, is_refresh, trial_line};
ghost use Rattle.mk_top.specs.Running.{NotMade};

use crate::fault::Fault;
use crate::outputs::bytes_of;
use crate::source::typed_source;
use mk_base::{Bytes, Memory};
use mk_code::Code;
use mk_compile::compile;
use mk_gen::gen_text;
use mk_rules::Cert;
use mk_ssa::Op;
use std::alloc::Global;

/// The generator's text with so many turns.
pub(crate) fn generated_text(alloc: Global, turns: u32) -> Result<Bytes, Fault>
    requires turns { (1 ≤ turns) × (turns ≤ 3276) }
    ensures generates { IfOk result (Generates turns) }
    ensures fault { IfErr result (NotMade (Gen turns) []) }
{
    Ok(gen_text(alloc, turns)?)
}

/// How many of the blocks are refreshes.
fn refreshes(blocks: &[Op]) -> usize
    ensures { result ≡ count_by is_refresh blocks.now }
{
    blocks
        .iter()
        .filter(|op| matches!(op, Op::Refresh { .. }))
        .count()
}

/// The line of a trial.
fn line_of_trial(alloc: Global, code: &Code, cert: &Cert) -> Result<Bytes, Memory>
    ensures { IfOk result (λ bytes. bytes ≡ trial_line code.now cert.now) }
{
    let mut text = String::new(alloc);
    let blocks = cert.blocks().len();
    let refreshes = refreshes(cert.blocks().as_slice());
    let instrs = code.instrs().len();
    let randoms = code.randoms();
    write!(
        text,
        "blocks {blocks} refreshes {refreshes} instructions {instrs} randoms {randoms} accepted\n"
    )?;
    bytes_of(text)
}

/// The line of what the generator's text with so many turns is compiled to at an order.
pub(crate) fn tried_text(alloc: Global, turns: u32, order: u8) -> Result<Bytes, Fault>
    requires turns { (1 ≤ turns) × (turns ≤ 3276) }
    requires order { (1 ≤ order) × (order ≤ TOP_ORDER) }
    ensures tries { IfOk result (Tries turns order) }
    ensures fault { IfErr result (NotMade (Trial turns order) []) }
{
    let source = gen_text(alloc, turns)?;
    let typed = typed_source(alloc, source.as_slice())?;
    let bundle = compile(alloc, &typed, order)?;
    Ok(line_of_trial(alloc, &bundle.code, &bundle.cert)?)
}
