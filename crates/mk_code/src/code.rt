ghost use Rattle.std.specs.Prelude.{◌≡◌, ◌+◌, ◌*◌, ◌≤◌, ◌<◌, ◌^◌, All, length};
ghost use Rattle.std.specs.List.{AllByRecursion};
ghost use Rattle.mk_field.specs.Maps.{MapFits};
ghost use Rattle.mk_code.specs.Listing.{IsListing, HasElementImages, trace_len};
ghost use Rattle.mk_code.specs.Trace.{randoms};

use crate::instr::Instr;
use mk_base::Items;
use mk_field::{AddMap, FieldId};
use std::marker::Model;

/// A list of additive maps.
pub type MapList = Items<AddMap>;

/// A list of instructions.
pub type InstrList = Items<Instr>;

/// A list of positions in a trace.
pub type PositionList = Items<u32>;

/// A code that fits together: its instructions read entries, maps and elements that there are, its
/// outs are in the trace and as many for each output as there are shares, and it is within the limits.
#[derive(Debug, Drop)]
pub struct Code {
    pub(crate) field: FieldId,
    pub(crate) order: u8,
    pub(crate) secrets: u32,
    pub(crate) publics: u32,
    pub(crate) maps: MapList,
    pub(crate) instrs: InstrList,
    pub(crate) outs: PositionList,
    pub(crate) random_len: u32,
}

impl Model for Code {
    ghost use Rattle.std.specs.Prelude.{◌≡◌};
    ghost use Rattle.std.specs.List.{AllByRecursion};
    ghost use Rattle.mk_field.specs.Maps.{MapFits};
    ghost use Rattle.mk_code.specs.Listing.{Listing, IsListing};
    ghost use Rattle.mk_code.specs.Trace.{randoms};

    ghost Value = { Listing };

    ghost view = { λ c. record { field = c.field; order = c.order; secrets = c.secrets; publics = c.publics; maps = c.maps; instrs = c.instrs; outs = c.outs } };

    ghost invariant = { λ c. IsListing (record { field = c.field; order = c.order; secrets = c.secrets; publics = c.publics; maps = c.maps; instrs = c.instrs; outs = c.outs }) × AllByRecursion MapFits c.maps × (c.random_len ≡ randoms c.instrs) };
}

impl Code {
    /// The code with these parts, which fit together. It takes no memory.
    pub fn new(
        field: FieldId,
        order: u8,
        secrets: u32,
        publics: u32,
        maps: MapList,
        instrs: InstrList,
        outs: PositionList,
    ) -> Code
        requires { IsListing (record { field = field; order = order; secrets = secrets; publics = publics; maps = maps; instrs = instrs; outs = outs }) }
        ensures { result ≡ record { field = field; order = order; secrets = secrets; publics = publics; maps = maps; instrs = instrs; outs = outs } }
    {
        walk_maps(maps.as_slice());
        let random_len = count_randoms(instrs.as_slice());
        Code {
            field,
            order,
            secrets,
            publics,
            maps,
            instrs,
            outs,
            random_len,
        }
    }

    /// What holds of every code: it fits together, each of its maps has eight images, which are bytes, and the
    /// images are elements. It does nothing.
    pub fn law(&self)
        ensures fits { IsListing self.now }
        ensures maps { AllByRecursion MapFits self.now.maps }
        ensures images { HasElementImages self.now }
    {
        let _field = self.field;
    }

    /// The field that it computes in.
    pub fn field(&self) -> FieldId
        ensures value { result ≡ self.now.field }
        ensures fits { IsListing self.now }
    {
        self.field
    }

    /// The masking order: each value is held as one share more.
    pub fn order(&self) -> u8
        ensures { result ≡ self.now.order }
    {
        self.order
    }

    /// The number of secrets.
    pub fn secrets(&self) -> u32
        ensures { result ≡ self.now.secrets }
    {
        self.secrets
    }

    /// The number of public inputs.
    pub fn publics(&self) -> u32
        ensures { result ≡ self.now.publics }
    {
        self.publics
    }

    /// The additive maps, which instructions name by their numbers.
    pub fn maps(&self) -> &MapList
        ensures { result.now ≡ self.now.maps }
    {
        &self.maps
    }

    /// The instructions, in order.
    pub fn instrs(&self) -> &InstrList
        ensures { result.now ≡ self.now.instrs }
    {
        &self.instrs
    }

    /// The positions of the outputs' shares, output by output.
    pub fn outs(&self) -> &PositionList
        ensures { result.now ≡ self.now.outs }
    {
        &self.outs
    }

    /// How many random elements one run takes.
    pub fn randoms(&self) -> u32
        ensures { result ≡ randoms self.now.instrs }
    {
        self.random_len
    }

    /// How many entries the trace of a run has.
    pub fn trace_len(&self) -> u32
        ensures value { result ≡ trace_len self.now }
        ensures fits { IsListing self.now }
    {
        self.secrets * (u32::from(self.order) + 1) + self.publics + self.instrs.len() as u32
    }
}

/// How many random elements the instructions take.
fn count_randoms(instrs: &[Instr]) -> u32
    requires { length instrs.now < 2 ^ 32 }
    ensures { result ≡ randoms instrs.now }
{
    let mut count = 0;
    for instr in instrs {
        count += instr.randoms();
    }
    count
}

/// Each of these maps has eight images, which are bytes. It only walks over the maps.
pub(crate) fn walk_maps(maps: &[AddMap])
    ensures { AllByRecursion MapFits maps.now }
{
    for map in maps {
        map_law(*map);
    }
}

/// A map has eight images, which are bytes. It does nothing.
fn map_law(map: AddMap)
    ensures count { length map.images ≡ 8 }
    ensures bytes { All (λ image. image < 2 ^ 8) map.images }
{
    let _images = map.images;
}
