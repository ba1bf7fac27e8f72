ghost use Rattle.std.specs.Prelude.{◌≡◌, ◌+◌, ◌<◌, ◌^◌, length};
ghost use Rattle.mk_regs.specs.Form.{IsRegListing, entries_len, register_trace_len};
ghost use Rattle.mk_regs.specs.Trace.{register_randoms};

use crate::instr::RegInstr;
use mk_base::Items;
use mk_code::{MapList, PositionList};
use mk_field::FieldId;
use std::marker::Model;

/// A list of instructions over registers.
pub type RegInstrList = Items<RegInstr>;

/// Register code: there are maps, constants and outs as in code over positions, it is within the
/// limits, and there is a register for each share and public input. It may name registers that there
/// aren't, and read registers that hold nothing: `rename_back` tells these.
#[derive(Debug, Drop)]
pub struct RegCode {
    field: FieldId,
    order: u8,
    secrets: u32,
    publics: u32,
    registers: u32,
    maps: MapList,
    instrs: RegInstrList,
    outs: PositionList,
    random_len: u32,
}

impl Model for RegCode {
    ghost use Rattle.std.specs.Prelude.{◌≡◌};
    ghost use Rattle.mk_regs.specs.Form.{RegListing, IsRegListing};
    ghost use Rattle.mk_regs.specs.Trace.{register_randoms};

    ghost Value = { RegListing };

    ghost view = { λ r. record { field = r.field; order = r.order; secrets = r.secrets; publics = r.publics; registers = r.registers; maps = r.maps; instrs = r.instrs; outs = r.outs } };

    ghost invariant = { λ r. IsRegListing (record { field = r.field; order = r.order; secrets = r.secrets; publics = r.publics; registers = r.registers; maps = r.maps; instrs = r.instrs; outs = r.outs }) × (r.random_len ≡ register_randoms r.instrs) };
}

impl RegCode {
    /// The register code with these parts, which fit together. It takes no memory.
    pub fn new(
        field: FieldId,
        order: u8,
        secrets: u32,
        publics: u32,
        registers: u32,
        maps: MapList,
        instrs: RegInstrList,
        outs: PositionList,
    ) -> RegCode
        requires { IsRegListing (record { field = field; order = order; secrets = secrets; publics = publics; registers = registers; maps = maps; instrs = instrs; outs = outs }) }
        ensures { result ≡ record { field = field; order = order; secrets = secrets; publics = publics; registers = registers; maps = maps; instrs = instrs; outs = outs } }
    {
        let random_len = count_randoms(instrs.as_slice());
        RegCode {
            field,
            order,
            secrets,
            publics,
            registers,
            maps,
            instrs,
            outs,
            random_len,
        }
    }

    /// What holds of all register code: it fits together. It does nothing.
    pub fn law(&self)
        ensures { IsRegListing self.now }
    {
        let _field = self.field;
    }

    /// The field that it computes in.
    pub fn field(&self) -> FieldId
        ensures { result ≡ self.now.field }
    {
        self.field
    }

    /// The masking order: each value is held as one share more.
    pub fn order(&self) -> u8
        ensures { result ≡ self.now.order }
    {
        self.order
    }

    /// The number of secrets.
    pub fn secrets(&self) -> u32
        ensures { result ≡ self.now.secrets }
    {
        self.secrets
    }

    /// The number of public inputs.
    pub fn publics(&self) -> u32
        ensures { result ≡ self.now.publics }
    {
        self.publics
    }

    /// The stated number of registers.
    pub fn registers(&self) -> u32
        ensures { result ≡ self.now.registers }
    {
        self.registers
    }

    /// The additive maps, which instructions name by their numbers.
    pub fn maps(&self) -> &MapList
        ensures { result.now ≡ self.now.maps }
    {
        &self.maps
    }

    /// The instructions, in order.
    pub fn instrs(&self) -> &RegInstrList
        ensures { result.now ≡ self.now.instrs }
    {
        &self.instrs
    }

    /// The registers of the outputs' shares, output by output. They are read behind the last instruction.
    pub fn outs(&self) -> &PositionList
        ensures { result.now ≡ self.now.outs }
    {
        &self.outs
    }

    /// How many random elements one run takes.
    pub fn randoms(&self) -> u32
        ensures { result ≡ register_randoms self.now.instrs }
    {
        self.random_len
    }

    /// How many entries the trace of a run has.
    pub fn trace_len(&self) -> u32
        ensures { result ≡ register_trace_len self.now }
    {
        self.entries() + self.instrs.len() as u32
    }

    /// How many entries of the trace stand before the first instruction: the shares and public inputs.
    pub(crate) fn entries(&self) -> u32
        ensures value { result ≡ entries_len self.now }
        ensures fits { IsRegListing self.now }
    {
        self.secrets * (u32::from(self.order) + 1) + self.publics
    }
}

/// How many random elements the instructions take.
fn count_randoms(instrs: &[RegInstr]) -> u32
    requires { length instrs.now < 2 ^ 32 }
    ensures { result ≡ register_randoms instrs.now }
{
    let mut count = 0;
    for instr in instrs {
        count += instr.operation().randoms();
    }
    count
}
