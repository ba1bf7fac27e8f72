//! Register code as code over positions.

ghost use Rattle.std.specs.Prelude.{◌≡◌, ℕ, ◌+◌, ◌≤◌, ◌⊎◌, List, Some, None, length, map, IfOk, OnOk, IfErr};
ghost use Rattle.mk_code.specs.declared.TheConstants.{MOST_INSTRS};
ghost use Rattle.mk_regs.specs.Renaming.{position_in, held_behind, renamed_instrs, renamed, outs_refusal, first_refusal, refusal_of};

use crate::code::RegCode;
use crate::instr::RegInstr;
use crate::refusal::RegRefusal;
use crate::renamer::Renamer;
use crate::room::room_for;
use mk_code::{Code, InstrList, PositionList};
use std::alloc::Global;

/// The code in which each register read is replaced by the position of the entry that the register
/// holds.
///
/// `Register` and `Unset` come exactly at the first instruction that names a register that isn't there,
/// or reads one that holds nothing, `Register` before `Unset` at one instruction. An out that is refused
/// is named by the number of instructions, and outs are looked at one by one.
pub fn rename_back(alloc: Global, r: &RegCode) -> Result<Code, RegRefusal>
    ensures renamed { IfOk result (λ code. code ≡ renamed r.now) }
    ensures accepted { OnOk result (refusal_of r.now ≡ None) }
    ensures refused { IfErr result (λ e. (e ≡ RegRefusal.Memory) ⊎ (refusal_of r.now ≡ Some e)) }
{
    r.law();
    let mut renamer = Renamer::new(alloc, r.entries(), r.registers())?;
    let instrs = rename_instrs(alloc, &mut renamer, r.instrs().as_slice())?;
    let outs = rename_outs(alloc, &renamer, r.outs().as_slice())?;
    let maps = r.maps().copy(alloc)?;
    Ok(Code::new(
        r.field(),
        r.order(),
        r.secrets(),
        r.publics(),
        maps,
        instrs,
        outs,
    ))
}

/// The instructions over positions.
fn rename_instrs(
    alloc: Global,
    renamer: &mut Renamer,
    instrs: &[RegInstr],
) -> Result<InstrList, RegRefusal>
    requires { renamer.old.accepted + length instrs.now ≤ MOST_INSTRS }
    ensures renamed { IfOk result (λ is. is ≡ renamed_instrs renamer.old.held (renamer.old.entries + renamer.old.accepted) instrs.now) }
    ensures held { OnOk result (renamer.new.held ≡ held_behind renamer.old.held (renamer.old.entries + renamer.old.accepted) instrs.now) }
    ensures accepted { OnOk result ((outs : List ℕ) → first_refusal renamer.old.entries renamer.old.accepted renamer.old.held instrs.now outs ≡ outs_refusal renamer.new.held renamer.new.accepted outs) }
    ensures refused { IfErr result (λ e. (e ≡ RegRefusal.Memory) ⊎ ((outs : List ℕ) → first_refusal renamer.old.entries renamer.old.accepted renamer.old.held instrs.now outs ≡ Some e)) }
{
    let mut renamed = room_for(alloc, instrs.len())?;
    for instr in instrs {
        let over_positions = renamer.step(instr)?;
        renamed.push(over_positions)?;
    }
    Ok(renamed)
}

/// The positions of the entries that registers hold, to be read as outs behind the instructions so far. They are looked
/// at one by one: `Register` comes where the first one that is refused isn't there, and `Unset` where it holds nothing.
pub fn rename_outs(
    alloc: Global,
    renamer: &Renamer,
    outs: &[u32],
) -> Result<PositionList, RegRefusal>
    ensures renamed { IfOk result (λ positions. positions ≡ map (position_in renamer.now.held) outs.now) }
    ensures accepted { OnOk result (outs_refusal renamer.now.held renamer.now.accepted outs.now ≡ None) }
    ensures refused { IfErr result (λ e. (e ≡ RegRefusal.Memory) ⊎ (outs_refusal renamer.now.held renamer.now.accepted outs.now ≡ Some e)) }
{
    let mut positions = room_for(alloc, outs.len())?;
    for out in outs {
        let position = renamer.out(*out)?;
        positions.push(position)?;
    }
    Ok(positions)
}
