//! Placement: the marks, and then the certificate.

ghost use Rattle.std.specs.Prelude.{◌+◌, ◌*◌, ◌≤◌, All, IfOk, length};
ghost use Rattle.mk_rules.specs.Wired.{IsSharedThere, Wired};
ghost use Rattle.mk_rules.specs.Reaches.{Undoubled, links};
ghost use Rattle.mk_place.specs.Uses.{shape_of_values};
ghost use Rattle.mk_place.specs.Placed.{Placed};

use crate::layout::laid_out;
use crate::marking::marks;
use mk_base::Memory;
use mk_rules::Cert;
use mk_ssa::Ssa;
use std::alloc::Global;

/// The certificate of the values, with a refresh at each use that needs one and the outputs as claims; no
/// value reaches both places of one product. `Memory` comes where memory is wanted and not found.
pub fn place(alloc: Global, s: &Ssa) -> Result<Cert, Memory>
    ensures placed { IfOk result (λ cert. Placed s.now cert) }
    ensures wired { IfOk result (λ cert. Wired (shape_of_values s.now) cert.blocks) }
    ensures claims { IfOk result (λ cert. All (IsSharedThere (shape_of_values s.now) cert.blocks) cert.claims) }
    ensures undoubled { IfOk result (λ cert. Undoubled (s.now.secrets + s.now.publics) (links (shape_of_values s.now) cert.blocks)) }
    ensures few { IfOk result (λ cert. length cert.blocks ≤ 3 * length s.now.values) }
{
    let fresh = marks(alloc, s)?;
    laid_out(alloc, s, fresh.as_slice())
}
