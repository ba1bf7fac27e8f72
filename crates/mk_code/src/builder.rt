ghost use Rattle.std.specs.Prelude.{◌≡◌, ◌+◌, ◌-◌, ◌*◌, ◌≤◌, ◌<◌, ◌≢◌, ◌++◌, ◌∷◌, [], length, OnOk, OnErr, IsTrue, ◌↔◌};
ghost use Rattle.mk_code.specs.declared.TheConstants.{MOST_INPUTS, MOST_MAPS, MOST_INSTRS};
ghost use Rattle.mk_code.specs.Listing.{FitsAt};
ghost use Rattle.mk_field.specs.Field.{HasMapsOnlyInBytes};
ghost use Rattle.mk_code.specs.Draft.{IsWholeWith, draft_len, finished};

use crate::code::{Code, MapList, PositionList, walk_maps};
use crate::instr::Instr;
use mk_base::{Items, Memory};
use mk_field::Field;
use std::alloc::Global;
use std::marker::{Model, PhantomData};

/// A code in the making, in the field `F`: what it has so far, and the room reserved for more
/// instructions.
#[derive(Drop)]
pub struct CodeBuilder<F: Field> {
    order: u8,
    secrets: u32,
    publics: u32,
    maps: MapList,
    instrs: Vec<Instr>,
    random_len: u32,
    field: PhantomData<F>,
}

impl<F: Field> Model for CodeBuilder<F> {
    ghost use Rattle.std.specs.Prelude.{◌≡◌, ◌-◌, ◌≤◌, ◌<◌, length, vec_capacity, vec_len};
    ghost use Rattle.mk_code.specs.Draft.{Draft, IsDraft};
    ghost use Rattle.std.specs.List.{AllByRecursion};
    ghost use Rattle.mk_field.specs.Maps.{MapFits};
    ghost use Rattle.mk_code.specs.Trace.{randoms};

    ghost Value = { Draft };

    ghost view = { λ b. record { order = b.order; secrets = b.secrets; publics = b.publics; maps = b.maps; instrs = b.instrs.items; spare = vec_capacity b.instrs - vec_len b.instrs } };

    ghost invariant = { λ b. IsDraft F.ID (record { order = b.order; secrets = b.secrets; publics = b.publics; maps = b.maps; instrs = b.instrs.items; spare = 0 }) × AllByRecursion MapFits b.maps × (b.random_len ≡ randoms b.instrs.items) };
}

impl<F: Field> CodeBuilder<F> {
    /// A code with no instruction. It takes no memory.
    pub fn new(
        alloc: Global,
        order: u8,
        secrets: u32,
        publics: u32,
        maps: MapList,
    ) -> CodeBuilder<F>
        requires order { 1 ≤ order }
        requires secrets { secrets ≤ MOST_INPUTS }
        requires publics { publics ≤ MOST_INPUTS }
        requires maps { length maps ≤ MOST_MAPS }
        requires bytes { HasMapsOnlyInBytes F.ID maps }
        ensures { result ≡ record { order = order; secrets = secrets; publics = publics; maps = maps; instrs = []; spare = result.spare } }
    {
        walk_maps(maps.as_slice());
        CodeBuilder {
            order,
            secrets,
            publics,
            maps,
            instrs: Vec::new(alloc),
            random_len: 0,
            field: PhantomData,
        }
    }

    /// Reserves room for `n` more instructions. After `Memory` the code is as before.
    pub fn reserve(&mut self, n: u32) -> Result<(), Memory>
        ensures ok { OnOk result (n ≤ self.new.spare) }
        ensures same { self.new ≡ record self.old { spare = self.new.spare } }
        ensures kept { self.old.spare ≤ self.new.spare }
    {
        self.instrs.reserve(n as usize)?;
        Ok(())
    }

    /// Appends an instruction, for which room was reserved, and answers the position of its value. It
    /// takes no memory.
    pub fn push(&mut self, instr: Instr) -> u32
        requires room { 0 < self.old.spare }
        requires few { length self.old.instrs < MOST_INSTRS }
        requires fits { FitsAt F.ID (length self.old.maps) (draft_len self.old) instr }
        ensures position { result ≡ draft_len self.old }
        ensures pushed { self.new ≡ record self.old { instrs = self.old.instrs ++ instr ∷ []; spare = self.old.spare - 1 } }
    {
        let position = self.len();
        self.random_len += instr.randoms();
        self.instrs.push_reserved(instr);
        position
    }

    /// How many entries the trace has so far.
    pub fn len(&self) -> u32
        ensures { result ≡ draft_len self.now }
    {
        self.secrets * (u32::from(self.order) + 1) + self.publics + self.instrs.len() as u32
    }

    /// Whether the trace has no entry so far.
    pub fn is_empty(&self) -> bool
        ensures { IsTrue result ↔ (draft_len self.now ≡ 0) }
    {
        self.len() == 0
    }

    /// The code with these outs: positions in the trace, one for each share of each output. It takes no
    /// memory.
    pub fn finish(self, outs: PositionList) -> Code
        requires { IsWholeWith self outs }
        ensures { result ≡ finished F.ID self outs }
    {
        let CodeBuilder {
            order,
            secrets,
            publics,
            maps,
            instrs,
            random_len,
            field: _,
        } = self;
        Code {
            field: F::ID,
            order,
            secrets,
            publics,
            maps,
            instrs: Items::from_vec(instrs),
            outs,
            random_len,
        }
    }
}

#[cfg(test)]
mod tests {
    use super::*;
    use mk_field::Gf256;

    #[test]
    fn builds_a_sum(rt: HostRuntime) -> Result<(), Memory> {
        let alloc = rt.alloc();
        let mut builder = CodeBuilder::<Gf256>::new(alloc, 1, 2, 0, Items::new(alloc));
        builder.reserve(2)?;
        let first = builder.push(Instr::Add { left: 0, right: 2 });
        let second = builder.push(Instr::Add { left: 1, right: 3 });
        let mut outs = Items::new(alloc);
        outs.push(first)?;
        outs.push(second)?;
        let code = builder.finish(outs);
        assert_eq!(rt; code.trace_len(), 6);
        assert_eq!(rt; code.randoms(), 0);
        assert_eq!(rt; code.outs().as_slice(), [4, 5].as_slice());
        Ok(())
    }
}
