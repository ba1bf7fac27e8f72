//! The code that a certificate stands for.

ghost use Rattle.std.specs.Prelude.{◌≡◌, ◌≤◌, ◌+◌, ◌*◌, All, IfOk, length};
ghost use Rattle.std.specs.List.{flat_map};
ghost use Rattle.mk_rules.specs.declared.TheConstants.{MOST_CLAIMS};
ghost use Rattle.mk_base.specs.declared.TheConstants.{TOP_ORDER};
ghost use Rattle.mk_code.specs.declared.TheConstants.{MOST_INPUTS, MOST_MAPS, MOST_INSTRS};
ghost use Rattle.mk_field.specs.Field.{HasMapsOnlyInBytes};
ghost use Rattle.mk_rules.specs.Wired.{IsSharedThere, Wired};
ghost use Rattle.mk_compile.specs.Emitting.{shape_from, blocks_len, code_of};
ghost use Rattle.mk_compile.specs.Positions.{IsSharedAt, bank_of};

use crate::emit::emit_blocks;
use crate::positions::{Inputs, Position, shared_bank};
use mk_base::{Items, Memory};
use mk_code::{Code, CodeBuilder, MapList, PositionList};
use mk_field::{Field, FieldId, Gf2, Gf256};
use mk_rules::Cert;
use mk_share::with_order;
use mk_ssa::Operand;
use std::alloc::Global;

/// The positions of the shares of these values, value by value.
fn outs<const N: usize>(
    alloc: Global,
    inputs: Inputs,
    blocks: &[Position<N>],
    claims: &[Operand],
) -> Result<PositionList, Memory>
    requires shares { N ≤ TOP_ORDER + 1 }
    requires few { inputs.secrets ≤ MOST_INPUTS }
    requires there { All (IsSharedAt inputs.secrets blocks.now) claims.now }
    requires few_claims { length claims.now ≤ MOST_CLAIMS }
    ensures positions { IfOk result (λ outs. outs ≡ flat_map (bank_of inputs.secrets blocks.now) claims.now) }
    ensures count { IfOk result (λ outs. length outs ≡ length claims.now * N) }
{
    let mut outs = Vec::new(alloc);
    for claim in claims {
        outs.extend_from_slice(&shared_bank::<N>(inputs, blocks, *claim).regs)?;
    }
    Ok(Items::from_vec(outs))
}

/// The code that a certificate stands for, in the field `F` with `N` shares.
fn code_with<F: Field, const N: usize>(
    alloc: Global,
    order: u8,
    inputs: Inputs,
    maps: MapList,
    cert: &Cert,
) -> Result<Code, Memory>
    requires order { (1 ≤ order) × (order ≤ TOP_ORDER) }
    requires shares { order + 1 ≡ N }
    requires inputs { (inputs.secrets ≤ MOST_INPUTS) × (inputs.publics ≤ MOST_INPUTS) }
    requires maps { length maps ≤ MOST_MAPS }
    requires bytes { HasMapsOnlyInBytes F.ID maps }
    requires wired { Wired (shape_from F.ID order inputs.secrets inputs.publics maps) cert.now.blocks }
    requires claims { All (IsSharedThere (shape_from F.ID order inputs.secrets inputs.publics maps) cert.now.blocks) cert.now.claims }
    requires few { blocks_len N cert.now.blocks ≤ MOST_INSTRS }
    requires few_claims { length cert.now.claims ≤ MOST_CLAIMS }
    ensures { IfOk result (λ code. code ≡ code_of (shape_from F.ID order inputs.secrets inputs.publics maps) cert.now) }
{
    let mut builder = CodeBuilder::<F>::new(alloc, order, inputs.secrets, inputs.publics, maps);
    let positions = emit_blocks::<F, N>(alloc, &mut builder, inputs, cert.blocks().as_slice())?;
    let outs = outs::<N>(
        alloc,
        inputs,
        positions.as_slice(),
        cert.claims().as_slice(),
    )?;
    Ok(builder.finish(outs))
}

/// The code that a certificate stands for: the templates of its blocks one after the other, and as
/// outs the banks of its claims.
pub(crate) fn emit_code(
    alloc: Global,
    field: FieldId,
    order: u8,
    inputs: Inputs,
    maps: MapList,
    cert: &Cert,
) -> Result<Code, Memory>
    requires order { (1 ≤ order) × (order ≤ TOP_ORDER) }
    requires inputs { (inputs.secrets ≤ MOST_INPUTS) × (inputs.publics ≤ MOST_INPUTS) }
    requires maps { length maps ≤ MOST_MAPS }
    requires bytes { HasMapsOnlyInBytes field maps }
    requires wired { Wired (shape_from field order inputs.secrets inputs.publics maps) cert.now.blocks }
    requires claims { All (IsSharedThere (shape_from field order inputs.secrets inputs.publics maps) cert.now.blocks) cert.now.claims }
    requires few { blocks_len (order + 1) cert.now.blocks ≤ MOST_INSTRS }
    requires few_claims { length cert.now.claims ≤ MOST_CLAIMS }
    ensures { IfOk result (λ code. code ≡ code_of (shape_from field order inputs.secrets inputs.publics maps) cert.now) }
{
    match field {
        FieldId::Gf2 => with_order!(order, code_with::<Gf2>(alloc, order, inputs, maps, cert)),
        FieldId::Gf256 => with_order!(order, code_with::<Gf256>(alloc, order, inputs, maps, cert)),
    }
}
