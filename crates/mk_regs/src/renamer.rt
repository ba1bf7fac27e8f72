ghost use Rattle.std.specs.Prelude.{◌≡◌, ◌<◌, ◌≤◌, ◌+◌, ◌∷◌, List, ℕ, Some, None, IfOk, OnOk, IfErr, OnErr, length, map, nat_lt, is_some, if◌then◌else◌};
ghost use Rattle.std.specs.List.{list_all, range_with_len};
ghost use Rattle.mk_code.specs.declared.TheConstants.{MOST_INSTRS};
ghost use Rattle.mk_regs.specs.declared.TheConstants.{MOST_REGISTERS};
ghost use Rattle.mk_regs.specs.Form.{target, operation, operands, with_operands};
ghost use Rattle.mk_regs.specs.Renaming.{holding, position_in, held_on_entry, renamed_instr, instr_refusal, out_refusal};
ghost use Rattle.mk_regs.specs.Renamer.{behind};

use crate::instr::RegInstr;
use crate::refusal::RegRefusal;
use mk_base::Memory;
use mk_code::Instr;
use std::alloc::Global;
use std::marker::Model;

/// The number that stands for no position in the table of a `Renamer`.
const NOTHING: u32 = u32::MAX;

/// Renames register code one instruction after the other. It holds, for each register, the position of
/// the entry of the trace that the register holds. Its table takes four bytes for each register.
#[derive(Drop)]
pub struct Renamer {
    held: Vec<u32>,
    entries: u32,
    accepted: u32,
}

impl Model for Renamer {
    ghost use Rattle.std.specs.Prelude.{map};
    ghost use Rattle.mk_regs.specs.Renamer.{Renaming, IsRenaming, held_by};

    ghost Value = { Renaming };

    ghost view = { λ n. record { held = map held_by n.held.items; entries = n.entries; accepted = n.accepted } };

    ghost invariant = { λ n. IsRenaming (record { held = map held_by n.held.items; entries = n.entries; accepted = n.accepted }) };
}

impl Renamer {
    /// A renaming before the first instruction: of so many registers, the first ones hold the entries of
    /// the trace that stand before the first instruction.
    pub fn new(alloc: Global, entries: u32, registers: u32) -> Result<Renamer, Memory>
        requires entries { entries ≤ registers }
        requires registers { registers ≤ MOST_REGISTERS }
        ensures { IfOk result (λ n. n ≡ record { held = held_on_entry entries registers; entries = entries; accepted = 0 }) }
    {
        let mut held = Vec::with_capacity(alloc, registers as usize)?;
        for register in 0..registers {
            held.push(if register < entries {
                register
            } else {
                NOTHING
            })?;
        }
        Ok(Renamer {
            held,
            entries,
            accepted: 0,
        })
    }

    /// Renames the next instruction: each register that it reads is replaced by the position of the
    /// entry that the register holds. A refused step changes nothing. It takes no memory.
    ///
    /// `Register` comes exactly where a register of the instruction isn't there, and `Unset` where that
    /// isn't so and a register that it reads holds nothing. Both have the number of the instruction.
    pub fn step(&mut self, i: &RegInstr) -> Result<Instr, RegRefusal>
        requires { self.old.accepted < MOST_INSTRS }
        ensures renamed { IfOk result (λ c. c ≡ renamed_instr self.old.held i.now) }
        ensures accepted { OnOk result (instr_refusal self.old.held self.old.accepted i.now ≡ None) }
        ensures refused { IfErr result (λ e. instr_refusal self.old.held self.old.accepted i.now ≡ Some e) }
        ensures behind { OnOk result (self.new ≡ behind self.old i.now) }
        ensures same { OnErr result (self.new ≡ self.old) }
    {
        let target = i.target();
        let operation = i.operation();
        if !(self.has(target) && self.has_operands(operation)) {
            return Err(RegRefusal::Register {
                instr: self.accepted,
            });
        }
        let renamed = match self.over_positions(operation) {
            Some(renamed) => renamed,
            None => {
                return Err(RegRefusal::Unset {
                    instr: self.accepted,
                });
            }
        };
        self.held[target as usize] = self.entries + self.accepted;
        self.accepted += 1;
        Ok(renamed)
    }

    /// The position of the entry that a register holds, to be read as an out behind the instructions so
    /// far. It takes no memory.
    ///
    /// `Register` comes exactly where the register isn't there, and `Unset` where it holds nothing. Both
    /// have the number of instructions.
    pub fn out(&self, register: u32) -> Result<u32, RegRefusal>
        ensures renamed { IfOk result (λ p. p ≡ position_in self.now.held register) }
        ensures accepted { OnOk result (out_refusal self.now.held self.now.accepted register ≡ None) }
        ensures refused { IfErr result (λ e. out_refusal self.now.held self.now.accepted register ≡ Some e) }
    {
        if !self.has(register) {
            return Err(RegRefusal::Register {
                instr: self.accepted,
            });
        }
        match self.position(register) {
            Some(position) => Ok(position),
            None => Err(RegRefusal::Unset {
                instr: self.accepted,
            }),
        }
    }

    /// Whether the register is there.
    fn has(&self, register: u32) -> bool
        ensures { result ≡ nat_lt register (length self.now.held) }
    {
        (register as usize) < self.held.len()
    }

    /// Whether the registers that are the operands of an instruction are there.
    fn has_operands(&self, operation: Instr) -> bool
        ensures { result ≡ list_all (λ r. nat_lt r (length self.now.held)) (operands operation) }
    {
        match operation {
            Instr::Rnd | Instr::Const { .. } => true,
            Instr::Copy { from } | Instr::Sq { from } | Instr::Map { from, .. } => self.has(from),
            Instr::Add { left, right } | Instr::Mul { left, right } => self.has(left)
                && self.has(right),
        }
    }

    /// The position of the entry that a register holds.
    fn position(&self, register: u32) -> Option<u32>
        ensures { result ≡ holding self.now.held register }
    {
        if !self.has(register) {
            return None;
        }
        let position = self.held[register as usize];
        if position == NOTHING {
            None
        } else {
            Some(position)
        }
    }

    /// The instruction with its operands, which are registers, replaced by positions. `None` comes
    /// exactly where one of them holds nothing.
    fn over_positions(&self, operation: Instr) -> Option<Instr>
        ensures { result ≡ (if list_all (λ r. is_some (holding self.now.held r)) (operands operation) then Some (with_operands (position_in self.now.held) operation) else None) }
    {
        match operation {
            Instr::Rnd => Some(Instr::Rnd),
            Instr::Const { value } => Some(Instr::Const { value }),
            Instr::Copy { from } => {
                let from = self.position(from)?;
                Some(Instr::Copy { from })
            }
            Instr::Add { left, right } => {
                let left = self.position(left)?;
                let right = self.position(right)?;
                Some(Instr::Add { left, right })
            }
            Instr::Mul { left, right } => {
                let left = self.position(left)?;
                let right = self.position(right)?;
                Some(Instr::Mul { left, right })
            }
            Instr::Sq { from } => {
                let from = self.position(from)?;
                Some(Instr::Sq { from })
            }
            Instr::Map { map, from } => {
                let from = self.position(from)?;
                Some(Instr::Map { map, from })
            }
        }
    }
}
