ghost use Rattle.std.specs.Prelude.{◌≡◌, [], length, All, IfOk, OnOk, OnErr, IsTrue, ◌↔◌};
ghost use Rattle.mk_ssa.specs.Values.{IsSharedThere, IsDraft, Fits, finished, pushed};
ghost use Rattle.mk_field.specs.Field.{HasMapsOnlyInBytes};

use crate::values::Ssa;
use crate::{MapList, Op, OpList, Operand, OperandList};
use mk_base::{Items, Memory};
use mk_field::FieldId;
use std::alloc::Global;
use std::marker::Model;

/// A list of values in the making: what it has so far.
#[derive(Debug, Drop)]
pub struct SsaBuilder {
    field: FieldId,
    secrets: u32,
    publics: u32,
    maps: MapList,
    values: OpList,
}

impl Model for SsaBuilder {
    ghost use Rattle.mk_ssa.specs.Values.{Draft, IsDraft};

    ghost Value = { Draft };

    ghost view = { λ b. record { field = b.field; secrets = b.secrets; publics = b.publics; maps = b.maps; values = b.values } };

    ghost invariant = { λ b. IsDraft (record { field = b.field; secrets = b.secrets; publics = b.publics; maps = b.maps; values = b.values }) };
}

impl SsaBuilder {
    /// No value yet, over so many secrets and public inputs. It takes no memory.
    pub fn new(
        alloc: Global,
        field: FieldId,
        secrets: u32,
        publics: u32,
        maps: MapList,
    ) -> SsaBuilder
        requires { HasMapsOnlyInBytes field maps }
        ensures { result ≡ record { field = field; secrets = secrets; publics = publics; maps = maps; values = [] } }
    {
        SsaBuilder {
            field,
            secrets,
            publics,
            maps,
            values: Items::new(alloc),
        }
    }

    /// Appends a value that fits behind those so far, and answers it as an operand. After `Memory` the
    /// values are as before.
    pub fn push(&mut self, op: Op) -> Result<Operand, Memory>
        requires { Fits self.old op }
        ensures place { IfOk result (λ v. v ≡ Operand.Block (length self.old.values)) }
        ensures ok { OnOk result (self.new ≡ pushed self.old op) }
        ensures memory { OnErr result (self.new ≡ self.old) }
    {
        let place = self.len();
        self.values.push(op)?;
        Ok(Operand::Block(place))
    }

    /// How many values there are so far.
    pub fn len(&self) -> u32
        ensures count { result ≡ length self.now.values }
        ensures fits { IsDraft self.now }
    {
        self.values.len() as u32
    }

    /// Whether there is no value so far.
    pub fn is_empty(&self) -> bool
        ensures { IsTrue result ↔ (self.now.values ≡ []) }
    {
        self.values.is_empty()
    }

    /// Whether the operand is a secret that is there or a shared value among those so far.
    pub fn is_shared(&self, operand: Operand) -> bool
        ensures { IsTrue result ↔ IsSharedThere self.now operand }
    {
        match operand {
            Operand::Secret(k) => k < self.secrets,
            Operand::Public(_) => false,
            Operand::Block(k) => match self.values.as_slice().get(k as usize) {
                Some(op) => !op.is_public(),
                None => false,
            },
        }
    }

    /// The values with these outputs: secrets that are there or shared values. It takes no memory.
    pub fn finish(self, outs: OperandList) -> Ssa
        requires { All (IsSharedThere self) outs }
        ensures { result ≡ finished self outs }
    {
        let SsaBuilder {
            field,
            secrets,
            publics,
            maps,
            values,
        } = self;
        Ssa {
            field,
            secrets,
            publics,
            maps,
            values,
            outs,
        }
    }
}
