//! What a code is over, as far as the rule asks for it.

ghost use Rattle.std.specs.Prelude.{◌≡◌, ◌≤◌, ◌+◌, ◌*◌, ◌^◌};
ghost use Rattle.mk_rules.specs.Tiles.{value_number as number_by_operand, first_position};
ghost use Rattle.mk_check.specs.Outlines.{outlined};

use mk_field::FieldId;
use mk_rules::value_number;
use mk_ssa::Operand;

/// The field and the order of a code, and how many secrets, publics and maps it has.
#[derive(Clone, Copy, Debug)]
pub struct Outline {
    pub(crate) field: FieldId,
    pub(crate) order: u8,
    pub(crate) secrets: u32,
    pub(crate) publics: u32,
    pub(crate) maps: u32,
}

impl Outline {
    /// How many shares a value has.
    pub(crate) fn shares(&self) -> u32
        ensures { result ≡ self.now.order + 1 }
    {
        u32::from(self.order) + 1
    }

    /// How many secrets and publics there are.
    pub(crate) fn inputs(&self) -> usize
        ensures count { result ≡ self.now.secrets + self.now.publics }
        ensures small { result ≤ 2 ^ 33 }
    {
        self.secrets as usize + self.publics as usize
    }

    /// The number of a value.
    pub(crate) fn number_of(&self, value: Operand) -> usize
        ensures { result ≡ number_by_operand (outlined self.now) value }
    {
        value_number(self.secrets, self.publics, value)
    }

    /// The position of the first public.
    pub(crate) fn first_public(&self) -> u64
        ensures value { result ≡ self.now.secrets * (self.now.order + 1) }
        ensures small { result ≤ 2 ^ 41 }
    {
        u64::from(self.secrets) * u64::from(self.shares())
    }

    /// The position of the first instruction.
    pub(crate) fn first_instr(&self) -> u64
        ensures value { result ≡ first_position (outlined self.now) }
        ensures small { result ≤ 2 ^ 42 }
    {
        self.first_public() + u64::from(self.publics)
    }
}
