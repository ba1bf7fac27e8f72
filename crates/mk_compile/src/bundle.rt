//! The code that a certificate of values stands for.

ghost use Rattle.std.specs.Prelude.{◌≡◌, ◌≤◌, ◌+◌, All, IfOk, length};
ghost use Rattle.mk_code.specs.Private.{Private};
ghost use Rattle.mk_code.specs.Listing.{HasElementImages};
ghost use Rattle.mk_base.specs.declared.TheConstants.{TOP_ORDER};
ghost use Rattle.mk_code.specs.declared.TheConstants.{MOST_INPUTS, MOST_MAPS, MOST_INSTRS};
ghost use Rattle.mk_rules.specs.declared.TheConstants.{MOST_BLOCKS, MOST_CLAIMS};
ghost use Rattle.mk_rules.specs.Accepts.{IsAccepted};
ghost use Rattle.mk_rules.specs.Pairs.{IsPair};
ghost use Rattle.mk_rules.specs.Reaches.{Undoubled, links};
ghost use Rattle.mk_rules.specs.Wired.{IsSharedThere, Wired};
ghost use Rattle.mk_place.specs.Uses.{shape_of_values};
ghost use Rattle.mk_compile.specs.Emitting.{shape_from, blocks_len, code_of};

use crate::code::emit_code;
use crate::positions::Inputs;
use mk_base::Memory;
use mk_rules::{Bundle, Cert};
use mk_ssa::Ssa;
use std::alloc::Global;

/// A certificate over the inputs and maps of values, with its code at an order. The rule accepts the code.
pub(crate) fn bundle_of(alloc: Global, order: u8, s: &Ssa, cert: Cert) -> Result<Bundle, Memory>
    requires order { (1 ≤ order) × (order ≤ TOP_ORDER) }
    requires inputs { (s.now.secrets ≤ MOST_INPUTS) × (s.now.publics ≤ MOST_INPUTS) }
    requires maps { length s.now.maps ≤ MOST_MAPS }
    requires wired { Wired (shape_of_values s.now) cert.blocks }
    requires claims { All (IsSharedThere (shape_of_values s.now) cert.blocks) cert.claims }
    requires undoubled { Undoubled (s.now.secrets + s.now.publics) (links (shape_of_values s.now) cert.blocks) }
    requires few { blocks_len (order + 1) cert.blocks ≤ MOST_INSTRS }
    requires few_blocks { length cert.blocks ≤ MOST_BLOCKS }
    requires few_claims { length cert.claims ≤ MOST_CLAIMS }
    ensures cert { IfOk result (λ b. b.cert ≡ cert) }
    ensures code { IfOk result (λ b. b.code ≡ code_of (shape_from s.now.field order s.now.secrets s.now.publics s.now.maps) cert) }
    ensures images { IfOk result (λ b. HasElementImages b.code) }
    ensures accepted { IfOk result (λ b. IsAccepted b.code b.cert) }
    ensures private { IfOk result (λ b. Private b.code) }
    ensures pair { IfOk result (λ b. IsPair b.code b.cert) }
{
    let inputs = Inputs {
        secrets: s.secrets(),
        publics: s.publics(),
    };
    let maps = s.maps().copy(alloc)?;
    s.law();
    let code = emit_code(alloc, s.field(), order, inputs, maps, &cert)?;
    code.law();
    Ok(Bundle { code, cert })
}
