//! Register code with as few registers as can be.

ghost use Rattle.std.specs.Prelude.{◌≡◌, ℕ, ◌+◌, ◌<◌, ◌≤◌, length, map, slice_index, nat_lt, nat_le, nat_eq, ◌&&◌, IfOk, OnOk, All};
ghost use Rattle.std.specs.BinaryHeap.{heap_items};
ghost use Rattle.std.specs.List.{AllByRecursion, range_with_len};
ghost use Rattle.mk_regs.specs.Form.{RegListing, IsRegListing, operands, with_operands};
ghost use Rattle.mk_regs.specs.Renaming.{IsRenamed};
ghost use Rattle.mk_regs.specs.Width.{width};
ghost use Rattle.mk_regs.specs.Allocation.{IsAllocated};
ghost use Rattle.mk_regs.specs.Tables.{times_free, freed, one_where, TellsReads};

use crate::code::RegCode;
use crate::free::FreeRegisters;
use crate::instr::RegInstr;
use crate::last::last_readers;
use crate::room::room_for;
use mk_base::{Items, Memory};
use mk_code::{Code, Instr, PositionList};
use std::alloc::Global;

/// The register code that is renamed to the code and has as many registers as the code is wide, in which
/// each result goes to the least register that holds no entry which a later instruction or an out reads.
/// No register code that is renamed to the code has fewer registers.
pub fn allocate(alloc: Global, code: &Code) -> Result<RegCode, Memory>
    ensures allocated { IfOk result (λ r. IsAllocated code.now r) }
    ensures registers { IfOk result (λ r. r.registers ≡ width code.now) }
    ensures fewest { IfOk result (λ r. (s : RegListing) → IsRegListing s → IsRenamed s code.now → r.registers ≤ s.registers) }
{
    code.law();
    let instrs = code.instrs().as_slice();
    let entries = code.trace_len() - instrs.len() as u32;
    let last = last_readers(alloc, code)?;
    let mut register_of = Vec::with_capacity(alloc, last.len())?;
    let mut free = FreeRegisters::new(alloc, entries, last.len())?;
    place_inputs(&mut register_of, &mut free, last.as_slice(), entries)?;
    let mut allocated = Vec::with_capacity(alloc, instrs.len())?;
    let mut behind = 0;
    for instr in instrs {
        behind += 1;
        let operation = over_registers(register_of.as_slice(), *instr);
        free_operands(
            &mut free,
            register_of.as_slice(),
            last.as_slice(),
            behind,
            *instr,
        )?;
        let to = free.take();
        free_unread(&mut free, to, last[register_of.len()], behind)?;
        register_of.push(to)?;
        allocated.push(RegInstr::new(to, operation))?;
    }
    let outs = registers_of(alloc, register_of.as_slice(), code.outs().as_slice())?;
    let maps = code.maps().copy(alloc)?;
    Ok(RegCode::new(
        code.field(),
        code.order(),
        code.secrets(),
        code.publics(),
        free.next,
        maps,
        Items::from_vec(allocated),
        outs,
    ))
}

/// The width of the code: the least number of registers of register code that is renamed to it.
pub fn width(alloc: Global, code: &Code) -> Result<u32, Memory>
    ensures { IfOk result (λ n. n ≡ width code.now) }
{
    let allocated = allocate(alloc, code)?;
    Ok(allocated.registers())
}

/// Places input i in register i. The registers of those that nothing reads are free.
fn place_inputs(
    register_of: &mut Vec<u32>,
    free: &mut FreeRegisters,
    last: &[u32],
    entries: u32,
) -> Result<(), Memory>
    requires none { length register_of.old.items ≡ 0 }
    requires known { entries ≤ length last.now }
    ensures registers { OnOk result (register_of.new.items ≡ range_with_len 0 entries) }
    ensures next { OnOk result (free.new.next ≡ free.old.next) }
    ensures free { OnOk result ((r : ℕ) → times_free (heap_items free.new.heap) r ≡ times_free (heap_items free.old.heap) r + one_where (nat_lt r entries && nat_le (slice_index last.now r) 0)) }
{
    for entry in 0..entries {
        free_unread(free, entry, last[entry as usize], 0)?;
        register_of.push(entry)?;
    }
    Ok(())
}

/// The instruction with the registers of its operands as operands.
fn over_registers(register_of: &[u32], instr: Instr) -> Instr
    requires { AllByRecursion (λ q. q < length register_of.now) (operands instr) }
    ensures { result ≡ with_operands (slice_index register_of.now) instr }
{
    match instr {
        Instr::Rnd => Instr::Rnd,
        Instr::Const { value } => Instr::Const { value },
        Instr::Copy { from } => Instr::Copy {
            from: register_of[from as usize],
        },
        Instr::Add { left, right } => Instr::Add {
            left: register_of[left as usize],
            right: register_of[right as usize],
        },
        Instr::Mul { left, right } => Instr::Mul {
            left: register_of[left as usize],
            right: register_of[right as usize],
        },
        Instr::Sq { from } => Instr::Sq {
            from: register_of[from as usize],
        },
        Instr::Map { map, from } => Instr::Map {
            map,
            from: register_of[from as usize],
        },
    }
}

/// Frees the registers of those operands that nothing reads from instruction `from` on.
fn free_operands(
    free: &mut FreeRegisters,
    register_of: &[u32],
    last: &[u32],
    from: u32,
    instr: Instr,
) -> Result<(), Memory>
    requires placed { AllByRecursion (λ q. q < length register_of.now) (operands instr) }
    requires known { AllByRecursion (λ q. q < length last.now) (operands instr) }
    ensures next { OnOk result (free.new.next ≡ free.old.next) }
    ensures free { OnOk result ((r : ℕ) → times_free (heap_items free.new.heap) r ≡ times_free (heap_items free.old.heap) r + freed register_of.now last.now from r (operands instr)) }
{
    match instr {
        Instr::Rnd | Instr::Const { .. } => Ok(()),
        Instr::Copy { from: entry } | Instr::Sq { from: entry } | Instr::Map { from: entry, .. } =>
            free_unread(
                free,
                register_of[entry as usize],
                last[entry as usize],
                from,
            ),
        Instr::Add { left, right } | Instr::Mul { left, right } => {
            if left != right {
                free_unread(free, register_of[left as usize], last[left as usize], from)?;
            }
            free_unread(
                free,
                register_of[right as usize],
                last[right as usize],
                from,
            )
        }
    }
}

/// Frees the register of an entry where nothing reads the entry from instruction `from` on.
fn free_unread(free: &mut FreeRegisters, register: u32, last: u32, from: u32) -> Result<(), Memory>
    ensures next { OnOk result (free.new.next ≡ free.old.next) }
    ensures free { OnOk result ((r : ℕ) → times_free (heap_items free.new.heap) r ≡ times_free (heap_items free.old.heap) r + one_where (nat_le last from && nat_eq register r)) }
{
    if last <= from {
        free.put(register)?;
    }
    Ok(())
}

/// The registers of some entries.
fn registers_of(alloc: Global, register_of: &[u32], entries: &[u32]) -> Result<PositionList, Memory>
    requires { All (λ p. p < length register_of.now) entries.now }
    ensures { IfOk result (λ rs. rs ≡ map (slice_index register_of.now) entries.now) }
{
    let mut registers = room_for(alloc, entries.len())?;
    for entry in entries {
        registers.push(register_of[*entry as usize])?;
    }
    Ok(registers)
}
