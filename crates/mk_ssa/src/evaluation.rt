//! What values stand for, computed in their order.

ghost use Rattle.std.specs.Prelude.{◌≡◌, ◌<◌, length, All, IfOk, OnOk, OnErr};
ghost use Rattle.mk_field.specs.Field.{size, image_by};
ghost use Rattle.mk_ssa.specs.Values.{Fits};
ghost use Rattle.mk_ssa.specs.Denoted.{operand_value, denoted};
ghost use Rattle.mk_ssa.specs.Evaluation.{IsEvaluated, HasValue, so_far, next_op, next_value, evaluated};

use crate::values::Ssa;
use crate::{Op, Operand};
use mk_base::{Bytes, Items, Memory};
use std::alloc::Global;
use std::marker::Model;

/// Values that are worked out one after the other: what those so far stand for.
#[derive(Drop)]
struct Evaluation<'a> {
    ssa: &'a Ssa,
    publics: &'a [u8],
    secrets: &'a [u8],
    before: Bytes,
}

impl<'a> Model for Evaluation<'a> {
    ghost use Rattle.mk_ssa.specs.Evaluation.{Evaluated, IsEvaluated};
    ghost use Rattle.mk_ssa.specs.Values.{IsValues};

    ghost Value = { Evaluated };

    ghost view = { λ e. record { ssa = e.ssa.now; publics = e.publics.now; secrets = e.secrets.now; before = e.before } };

    ghost invariant = { λ e. IsEvaluated (record { ssa = e.ssa.now; publics = e.publics.now; secrets = e.secrets.now; before = e.before }) × IsValues e.ssa.now };
}

impl<'a> Evaluation<'a> {
    /// Works out the next value. After `Memory` the values so far are as before.
    fn step(&mut self) -> Result<(), Memory>
        requires { length self.old.before < length self.old.ssa.values }
        ensures ok { OnOk result (self.new ≡ evaluated self.old (next_op self.old)) }
        ensures memory { OnErr result (self.new ≡ self.old) }
    {
        let op = self.ssa.values().as_slice()[self.before.len()];
        let value = self.value(op);
        self.before.push(value)?;
        Ok(())
    }

    /// What an operator stands for that fits behind the values so far.
    fn value(&self, op: Op) -> u8
        requires evaluated { IsEvaluated self.now }
        requires fits { Fits (so_far self.now) op }
        ensures value { result ≡ next_value self.now op }
        ensures element { result < size self.now.ssa.field }
    {
        let field = self.ssa.field();
        match op {
            Op::Const { value } => value,
            Op::PubAdd { left, right } | Op::Add { left, right } | Op::AddPub { left, right } => {
                field.add(self.operand(left), self.operand(right))
            }
            Op::PubMul { left, right } | Op::Mul { left, right } | Op::Scale { left, right } => {
                field.mul(self.operand(left), self.operand(right))
            }
            Op::PubSq { arg } | Op::Sq { arg } => field.sq(self.operand(arg)),
            Op::PubMap { map, arg } | Op::Map { map, arg } => self.image(map, self.operand(arg)),
            Op::Lift { arg } | Op::Refresh { arg } => self.operand(arg),
        }
    }

    /// What the outputs stand for, when all values are worked out.
    fn outs(&self, alloc: Global) -> Result<Bytes, Memory>
        requires evaluated { IsEvaluated self.now }
        requires all { length self.now.before ≡ length self.now.ssa.values }
        ensures values { IfOk result (λ values. values ≡ denoted self.now.ssa self.now.publics self.now.secrets) }
        ensures elements { IfOk result (λ values. All (λ a. a < size self.now.ssa.field) values) }
    {
        let mut values = Items::new(alloc);
        for out in self.ssa.outs().as_slice() {
            values.push(self.operand(*out))?;
        }
        Ok(values)
    }

    /// What an operand that is there stands for.
    fn operand(&self, operand: Operand) -> u8
        requires { HasValue self.now operand }
        ensures value { result ≡ operand_value self.now.publics self.now.secrets self.now.before operand }
        ensures element { result < size self.now.ssa.field }
    {
        match operand {
            Operand::Secret(k) => self.secrets[k as usize],
            Operand::Public(k) => self.publics[k as usize],
            Operand::Block(k) => self.before.as_slice()[k as usize],
        }
    }

    /// The image of an element under the map of this number.
    fn image(&self, map: u32, element: u8) -> u8
        requires { map < length self.now.ssa.maps }
        ensures value { result ≡ image_by self.now.ssa.maps map element }
        ensures element { result < size self.now.ssa.field }
    {
        self.ssa.maps().as_slice()[map as usize].apply(element)
    }
}

/// What the outputs stand for, over these public inputs and secrets: as many as the values have, and
/// elements of their field.
pub fn denote(alloc: Global, s: &Ssa, publics: &[u8], secrets: &[u8]) -> Result<Bytes, Memory>
    requires publics_len { length publics.now ≡ s.now.publics }
    requires publics { All (λ a. a < size s.now.field) publics.now }
    requires secrets_len { length secrets.now ≡ s.now.secrets }
    requires secrets { All (λ a. a < size s.now.field) secrets.now }
    ensures values { IfOk result (λ values. values ≡ denoted s.now publics.now secrets.now) }
    ensures elements { IfOk result (λ values. All (λ a. a < size s.now.field) values) }
{
    let mut evaluation = Evaluation {
        ssa: s,
        publics,
        secrets,
        before: Items::new(alloc),
    };
    for _ in 0..s.values().len() {
        evaluation.step()?;
    }
    evaluation.outs(alloc)
}

#[cfg(test)]
mod tests {
    use super::*;
    use crate::SsaBuilder;
    use mk_field::FieldId;

    #[test]
    fn two_outputs_of_a_sum(rt: HostRuntime) -> Result<(), Memory> {
        let alloc = rt.alloc();
        let sum = Op::Add {
            left: Operand::Secret(0),
            right: Operand::Secret(1),
        };
        let mut builder = SsaBuilder::new(alloc, FieldId::Gf2, 2, 0, Items::new(alloc));
        let mut outs = Items::new(alloc);
        outs.push(builder.push(sum)?)?;
        outs.push(builder.push(sum)?)?;
        let s = builder.finish(outs);
        let values = denote(alloc, &s, &[], &[1, 0])?;
        assert_eq!(rt; values.as_slice(), [1, 1].as_slice());
        Ok(())
    }
}
