ghost use Rattle.std.specs.Prelude.{◌≡◌, ◌≤◌, ◌<◌, ℕ, Bool, List, [], length, map, All, IfOk, OnOk};
ghost use Rattle.mk_field.specs.Field.{size};
ghost use Rattle.mk_ssa.specs.Operators.{Operator};
ghost use Rattle.mk_ssa.specs.Denoted.{denoted};
ghost use Rattle.mk_ssa.specs.Values.{IsDraft, IsValues, draft};
ghost use Rattle.mk_simplify.specs.Simplified.{IsSimplified, IsUsed, AllDiffer, count_operators, is_constant};
ghost use Rattle.mk_simplify.specs.Renumbering.{IsBelow, renumbered as renumbered_by, IsMerged, AreClosed, ArePlaced};

use crate::merging::{Merged, merge};
use crate::needs::needs;
use crate::numbering::{renumbered, with_renumbered};
use mk_base::{Items, Memory};
use mk_ssa::{Op, Operand, OperandList, Ssa, SsaBuilder};
use std::alloc::Global;

/// The operands renumbered.
fn all_renumbered(alloc: Global, list: &[Operand], numbers: &[u32]) -> Result<OperandList, Memory>
    requires { All (IsBelow (length numbers.now)) list.now }
    ensures { IfOk result (λ others. others ≡ map (renumbered_by numbers.now) list.now) }
{
    let mut others = Items::new(alloc);
    for operand in list {
        others.push(renumbered(*operand, numbers))?;
    }
    Ok(others)
}

/// The values that are marked, in order, with their operands renumbered; and for each value its place
/// among them.
fn keep(
    alloc: Global,
    builder: &mut SsaBuilder,
    ops: &[Op],
    marks: &[bool],
) -> Result<Items<u32>, Memory>
    requires empty { builder.old.values ≡ [] }
    requires made { IsDraft (record builder.old { values = ops.now }) }
    requires count { length marks.now ≡ length ops.now }
    requires closed { AreClosed ops.now marks.now }
    ensures placed { IfOk result (λ places. ArePlaced (length ops.now) ops.now marks.now builder.new.values places) }
    ensures same { OnOk result (builder.new ≡ record builder.old { values = builder.new.values }) }
    ensures fit { OnOk result (IsDraft builder.new) }
{
    let mut places = Items::new(alloc);
    for (k, op) in ops.iter().enumerate() {
        places.push(builder.len())?;
        if marks[k] {
            builder.push(with_renumbered(*op, places.as_slice()))?;
        }
    }
    Ok(places)
}

/// Of merged values those that an output needs.
fn needed_of(alloc: Global, s: &Ssa, merged: &Merged) -> Result<Ssa, Memory>
    requires { IsMerged (draft s.now) merged.now.ops.keys merged.now.numbers }
    ensures simplified { IfOk result (λ r. IsSimplified s.now r) }
    ensures fits { IfOk result IsValues }
{
    let ops = merged.ops.as_slice();
    s.law();
    let outs = all_renumbered(alloc, s.outs().as_slice(), merged.numbers.as_slice())?;
    let marks = needs(alloc, ops, outs.as_slice())?;
    let maps = s.maps().copy(alloc)?;
    let mut builder = SsaBuilder::new(alloc, s.field(), s.secrets(), s.publics(), maps);
    let places = keep(alloc, &mut builder, ops, marks.as_slice())?;
    let outs = all_renumbered(alloc, outs.as_slice(), places.as_slice())?;
    Ok(builder.finish(outs))
}

/// The values simplified: of those with equal operators over equal operands the first is kept, and of
/// these the ones that an output needs, directly or through operands. What the outputs stand for stays the
/// same.
pub fn simplify(alloc: Global, s: Ssa) -> Result<Ssa, Memory>
    ensures simplified { IfOk result (λ r. IsSimplified s r) }
    ensures field { IfOk result (λ r. r.field ≡ s.field) }
    ensures secrets { IfOk result (λ r. r.secrets ≡ s.secrets) }
    ensures publics { IfOk result (λ r. r.publics ≡ s.publics) }
    ensures maps { IfOk result (λ r. r.maps ≡ s.maps) }
    ensures meaning { IfOk result (λ r. (publics secrets : List ℕ) → denoted r publics secrets ≡ denoted s publics secrets) }
    ensures used { IfOk result (λ r. (k : ℕ) → k < length r.values → IsUsed r k) }
    ensures different { IfOk result (λ r. AllDiffer r) }
    ensures operators { IfOk result (λ r. (p : Operator → Bool) → count_operators p r ≤ count_operators p s) }
    ensures constants { IfOk result (λ r. count_operators is_constant r ≤ size r.field) }
{
    let merged = merge(alloc, &s)?;
    needed_of(alloc, &s, &merged)
}
