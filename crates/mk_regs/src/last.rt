//! Up to which instruction each entry is read.

ghost use Rattle.std.specs.Prelude.{◌≡◌, ◌+◌, ◌<◌, ◌≤◌, length, IfOk, All};
ghost use Rattle.std.specs.List.{AllByRecursion, fold};
ghost use Rattle.mk_regs.specs.Form.{operands};
ghost use Rattle.mk_regs.specs.Tables.{marked, TellsReads};

use mk_base::Memory;
use mk_code::{Code, Instr};
use std::alloc::Global;

/// For each entry, one more than the number of the last instruction that reads it, where an out reads behind the
/// last instruction, or 0 where nothing reads it.
pub(crate) fn last_readers(alloc: Global, code: &Code) -> Result<Vec<u32>, Memory>
    ensures { IfOk result (λ last. TellsReads code.now last.items) }
{
    code.law();
    let instrs = code.instrs().as_slice();
    let count = instrs.len() as u32;
    let mut last = vec![in alloc; 0; code.trace_len() as usize]?;
    for out in code.outs().as_slice() {
        last[*out as usize] = count + 1;
    }
    for k in (0..count).rev() {
        mark_operands(&mut last, instrs[k as usize], k + 1);
    }
    Ok(last)
}

/// Marks the operands of an instruction that aren't marked yet.
fn mark_operands(last: &mut Vec<u32>, instr: Instr, reader: u32)
    requires { AllByRecursion (λ q. q < length last.old.items) (operands instr) }
    ensures { last.new.items ≡ fold (marked reader) last.old.items (operands instr) }
{
    match instr {
        Instr::Rnd | Instr::Const { .. } => {}
        Instr::Copy { from } | Instr::Sq { from } | Instr::Map { from, .. } => mark(
            last, from, reader,
        ),
        Instr::Add { left, right } | Instr::Mul { left, right } => {
            mark(last, left, reader);
            mark(last, right, reader);
        }
    }
}

/// Marks an entry that isn't marked yet.
fn mark(last: &mut Vec<u32>, entry: u32, reader: u32)
    requires { entry < length last.old.items }
    ensures { last.new.items ≡ marked reader last.old.items entry }
{
    if last[entry as usize] == 0 {
        last[entry as usize] = reader;
    }
}
