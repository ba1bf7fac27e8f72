//! Sources: read, typed, and then compiled or evaluated.

ghost use Rattle.std.specs.Prelude.{◌≤◌, ◌<◌, ◌^◌, Some, IfOk, IfErr, length};
ghost use Rattle.mk_code.specs.declared.TheConstants.{MOST_MAPS};
ghost use Rattle.mk_parse.specs.declared.TheConstants.{MOST_SOURCE_BYTES};
ghost use Rattle.mk_base.specs.declared.TheConstants.{TOP_ORDER};
ghost use Rattle.mk_types.specs.Elements.{maps_of};
ghost use Rattle.mk_bundle.specs.Pairs.{IsRegisterPair};
ghost use Rattle.mk_bundle.specs.Text.{register_text};
ghost use Rattle.mk_words.specs.Words.{Compile, Eval};
ghost use Rattle.mk_top.specs.Headline.{CompilesSo, Evaluates};
ghost use Rattle.mk_top.specs.Sources.{IsSourceOf};
ghost use Rattle.mk_top.specs.Seen.{seen};
ghost use Rattle.mk_top.specs.Running.{NotMade, NotTyped, Made, NoText};

use crate::answer::RegisterBundle;
use crate::fault::Fault;
use crate::outputs::elements_line;
use crate::reading::whole_text;
use crate::registers::over_registers;
use mk_base::{Bytes, Source};
use mk_compile::compile;
use mk_eval::eval;
use mk_parse::{MOST_SOURCE_BYTES, parse};
use mk_types::{Typed, check_types};
use std::alloc::Global;

/// The well typed program that a source spells. It has at most 32,768 maps.
pub(crate) fn typed_source(alloc: Global, source: &[u8]) -> Result<Typed, Fault>
    requires { length source.now ≤ MOST_SOURCE_BYTES }
    ensures typed { IfOk result (IsSourceOf source.now) }
    ensures maps { IfOk result (λ tree. length (maps_of tree.decls) ≤ MOST_MAPS) }
    ensures fault { IfErr result (NotTyped source.now) }
{
    let tree = parse(alloc, source)?;
    Ok(check_types(alloc, tree)?)
}

/// The bundle over registers that a source is compiled to at an order.
fn bundle_of_source(alloc: Global, source: &[u8], order: u8) -> Result<RegisterBundle, Fault>
    requires order { (1 ≤ order) × (order ≤ TOP_ORDER) }
    requires within { length source.now ≤ MOST_SOURCE_BYTES }
    ensures compiled { IfOk result (λ made. CompilesSo order (Some source.now) (register_text made.code made.cert)) }
    ensures pair { IfOk result (λ made. IsRegisterPair made.code made.cert) }
    ensures fault { IfErr result (NotMade (Compile order) source.now) }
{
    let typed = typed_source(alloc, source)?;
    let bundle = compile(alloc, &typed, order)?;
    Ok(over_registers(alloc, bundle)?)
}

/// The line of the outputs that a source is evaluated to on these elements.
fn text_of_outputs(
    alloc: Global,
    source: &[u8],
    publics: &[u8],
    secrets: &[u8],
) -> Result<Bytes, Fault>
    requires within { length source.now ≤ MOST_SOURCE_BYTES }
    requires publics { length publics.now < 2 ^ 32 }
    requires secrets { length secrets.now < 2 ^ 32 }
    ensures evaluated { IfOk result (Evaluates publics.now secrets.now (Some source.now)) }
    ensures fault { IfErr result (NotMade (Eval publics.now secrets.now) source.now) }
{
    let typed = typed_source(alloc, source)?;
    let outputs = eval(alloc, &typed, publics, secrets)?;
    Ok(elements_line(alloc, outputs.as_slice())?)
}

/// Reads a source to its end, and answers the bundle over registers that it is compiled to at an order.
pub(crate) fn compiled_bundle<S: Source>(
    alloc: Global,
    src: &mut S,
    order: u8,
) -> Result<RegisterBundle, Fault>
    requires { (1 ≤ order) × (order ≤ TOP_ORDER) }
    ensures made { IfOk result (λ made. Made (Compile order) (seen S.left S.faults src.old src.new)
        (register_text made.code made.cert)) }
    ensures pair { IfOk result (λ made. IsRegisterPair made.code made.cert) }
    ensures unmade { IfErr result (NoText (Compile order) (seen S.left S.faults src.old src.new)) }
    ensures reads { S.faults src.old ≤ S.faults src.new }
{
    let source = whole_text(alloc, src, MOST_SOURCE_BYTES)?;
    bundle_of_source(alloc, source.as_slice(), order)
}

/// Reads a source to its end, and answers the line of the outputs that it is evaluated to.
pub(crate) fn evaluated_text<S: Source>(
    alloc: Global,
    src: &mut S,
    publics: &[u8],
    secrets: &[u8],
) -> Result<Bytes, Fault>
    requires publics { length publics.now < 2 ^ 32 }
    requires secrets { length secrets.now < 2 ^ 32 }
    ensures made { IfOk result (Made (Eval publics.now secrets.now) (seen S.left S.faults src.old src.new)) }
    ensures unmade { IfErr result (NoText (Eval publics.now secrets.now) (seen S.left S.faults src.old src.new)) }
    ensures reads { S.faults src.old ≤ S.faults src.new }
{
    let source = whole_text(alloc, src, MOST_SOURCE_BYTES)?;
    text_of_outputs(alloc, source.as_slice(), publics, secrets)
}
