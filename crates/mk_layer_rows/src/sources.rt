//! What a source is on each floor, for the tests of these floors.

ghost use Rattle.std.specs.Prelude.{◌≤◌, IfOk, length};
ghost use Rattle.mk_ast.specs.Regular.{IsRegular};
ghost use Rattle.mk_parse.specs.Parsed.{FewMaps};
ghost use Rattle.mk_types.specs.Elements.{maps_of};

use mk_ast::{Program, SourceRefusal};
use mk_base::Place;
use mk_compile::compile;
use mk_parse::parse;
use mk_rules::Bundle;
use mk_types::{Typed, check_types};
use std::alloc::Global;

/// A place.
pub(crate) fn at(line: u32, column: u32) -> Place {
    Place { line, column }
}

/// The program that a text of at most 1,000 bytes spells.
pub(crate) fn program_of(alloc: Global, text: &str) -> Result<Program, SourceRefusal>
    ensures regular { IfOk result IsRegular }
    ensures few { IfOk result FewMaps }
{
    if text.len() > 1000 {
        return Err(SourceRefusal::Memory);
    }
    parse(alloc, text.as_bytes())
}

/// The same, well typed.
#[tactic(auto, using(mk_compile::proofs::Maps::few_maps))]
pub(crate) fn typed_of(alloc: Global, text: &str) -> Result<Typed, SourceRefusal>
    ensures { IfOk result (λ t. length (maps_of t.decls) ≤ 32768) }
{
    let program = program_of(alloc, text)?;
    check_types(alloc, program)
}

/// The same, compiled with two shares.
pub(crate) fn small_bundle_of(alloc: Global, text: &str) -> Result<Bundle, SourceRefusal> {
    let typed = typed_of(alloc, text)?;
    compile(alloc, &typed, 1)
}

/// The same, compiled with three shares.
pub(crate) fn bundle_of(alloc: Global, text: &str) -> Result<Bundle, SourceRefusal> {
    let typed = typed_of(alloc, text)?;
    compile(alloc, &typed, 2)
}
