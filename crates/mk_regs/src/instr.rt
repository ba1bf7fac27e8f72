ghost use Rattle.std.specs.Prelude.{◌≡◌};
ghost use Rattle.mk_regs.specs.Form.{target, operation, into_register};

use mk_code::Instr;

/// An instruction. It reads the registers `from`, `left` and `right`, and writes the register `to`.
#[derive(Clone, Copy, Debug, PartialEq, Eq)]
pub enum RegInstr {
    /// The next random element of the tape.
    Rnd { to: u32 },
    /// A constant element.
    Const { to: u32, value: u8 },
    /// What another register holds.
    Copy { to: u32, from: u32 },
    /// The sum of what two registers hold.
    Add { to: u32, left: u32, right: u32 },
    /// The product of what two registers hold.
    Mul { to: u32, left: u32, right: u32 },
    /// The square of what a register holds.
    Sq { to: u32, from: u32 },
    /// The image of what a register holds under the additive map of this number.
    Map { to: u32, map: u32, from: u32 },
}

impl RegInstr {
    /// The instruction that does this, its operands being numbers of registers, and writes the register `to`.
    pub fn new(to: u32, operation: Instr) -> RegInstr
        ensures { result ≡ into_register to operation }
    {
        match operation {
            Instr::Rnd => RegInstr::Rnd { to },
            Instr::Const { value } => RegInstr::Const { to, value },
            Instr::Copy { from } => RegInstr::Copy { to, from },
            Instr::Add { left, right } => RegInstr::Add { to, left, right },
            Instr::Mul { left, right } => RegInstr::Mul { to, left, right },
            Instr::Sq { from } => RegInstr::Sq { to, from },
            Instr::Map { map, from } => RegInstr::Map { to, map, from },
        }
    }

    /// The register that it writes.
    pub fn target(self) -> u32
        ensures { result ≡ target self }
    {
        match self {
            RegInstr::Rnd { to } => to,
            RegInstr::Const { to, .. } => to,
            RegInstr::Copy { to, .. } => to,
            RegInstr::Add { to, .. } => to,
            RegInstr::Mul { to, .. } => to,
            RegInstr::Sq { to, .. } => to,
            RegInstr::Map { to, .. } => to,
        }
    }

    /// What it does: the same instruction with the registers that it reads as operands.
    pub fn operation(self) -> Instr
        ensures { result ≡ operation self }
    {
        match self {
            RegInstr::Rnd { .. } => Instr::Rnd,
            RegInstr::Const { value, .. } => Instr::Const { value },
            RegInstr::Copy { from, .. } => Instr::Copy { from },
            RegInstr::Add { left, right, .. } => Instr::Add { left, right },
            RegInstr::Mul { left, right, .. } => Instr::Mul { left, right },
            RegInstr::Sq { from, .. } => Instr::Sq { from },
            RegInstr::Map { map, from, .. } => Instr::Map { map, from },
        }
    }
}
