//! Values with equal operators and operands as one.

ghost use Rattle.std.specs.Prelude.{IfOk};
ghost use Rattle.mk_ssa.specs.Values.{draft};
ghost use Rattle.mk_simplify.specs.Renumbering.{IsMerged};

use crate::numbering::with_renumbered;
use indexmap::IndexSet;
use mk_base::{Items, Memory};
use mk_ssa::{Op, Ssa};
use std::alloc::Global;

/// The different values, in order, and for each value its number among them.
#[derive(Drop)]
pub(crate) struct Merged {
    pub(crate) ops: IndexSet<Op>,
    pub(crate) numbers: Items<u32>,
}

/// The different values of a list.
pub(crate) fn merge(alloc: Global, s: &Ssa) -> Result<Merged, Memory>
    ensures { IfOk result (λ m. IsMerged (draft s.now) m.ops.keys m.numbers) }
{
    let mut ops = IndexSet::new(alloc);
    let mut numbers = Items::new(alloc);
    for op in s.values().as_slice() {
        let (number, _) = ops.insert_full(with_renumbered(*op, numbers.as_slice()))?;
        numbers.push(number as u32)?;
    }
    Ok(Merged { ops, numbers })
}
