ghost use Rattle.std.specs.Prelude.{◌≡◌};
ghost use Rattle.mk_ssa.specs.Values.{IsValues};

use crate::{MapList, OpList, OperandList};
use mk_field::FieldId;
use std::marker::Model;

/// A list of values that fits together: the operands of each are inputs or earlier values of the right
/// kind, no value is a refresh, and the outputs are shared.
#[derive(Debug, Drop)]
pub struct Ssa {
    pub(crate) field: FieldId,
    pub(crate) secrets: u32,
    pub(crate) publics: u32,
    pub(crate) maps: MapList,
    pub(crate) values: OpList,
    pub(crate) outs: OperandList,
}

impl Model for Ssa {
    ghost use Rattle.mk_ssa.specs.Values.{Values, IsValues};

    ghost Value = { Values };

    ghost view = { λ s. record { field = s.field; secrets = s.secrets; publics = s.publics; maps = s.maps; values = s.values; outs = s.outs } };

    ghost invariant = { λ s. IsValues (record { field = s.field; secrets = s.secrets; publics = s.publics; maps = s.maps; values = s.values; outs = s.outs }) };
}

impl Ssa {
    /// What holds of every list of values: it fits together. It does nothing.
    pub fn law(&self)
        ensures { IsValues self.now }
    {
        let _field = self.field;
    }

    /// The field that the values are in.
    pub fn field(&self) -> FieldId
        ensures { result ≡ self.now.field }
    {
        self.field
    }

    /// The number of secrets.
    pub fn secrets(&self) -> u32
        ensures { result ≡ self.now.secrets }
    {
        self.secrets
    }

    /// The number of public inputs.
    pub fn publics(&self) -> u32
        ensures { result ≡ self.now.publics }
    {
        self.publics
    }

    /// The additive maps, which operators name by their numbers.
    pub fn maps(&self) -> &MapList
        ensures { result.now ≡ self.now.maps }
    {
        &self.maps
    }

    /// The values, in order, each by its operator.
    pub fn values(&self) -> &OpList
        ensures values { result.now ≡ self.now.values }
        ensures fits { IsValues self.now }
    {
        &self.values
    }

    /// The outputs, in order.
    pub fn outs(&self) -> &OperandList
        ensures { result.now ≡ self.now.outs }
    {
        &self.outs
    }
}
