//! Programs, compiled: unrolled, simplified, with refreshes placed, and emitted.

ghost use Rattle.std.specs.Prelude.{◌≡◌, ◌≤◌, ◌⊎◌, IfOk, IfErr, OnOk, length};
ghost use Rattle.mk_base.specs.declared.TheConstants.{TOP_ORDER};
ghost use Rattle.mk_ast.specs.declared.refusal.SourceRefusal.TheVariants as refusal_;
ghost use Rattle.mk_code.specs.declared.TheConstants.{MOST_MAPS};
ghost use Rattle.mk_code.specs.Private.{Private};
ghost use Rattle.mk_rules.specs.Accepts.{IsAccepted};
ghost use Rattle.mk_rules.specs.Pairs.{IsPair};
ghost use Rattle.mk_types.specs.Elements.{maps_of};
ghost use Rattle.mk_unroll.specs.Causes.{Cause};
ghost use Rattle.mk_place.specs.Different.{AllDifferButRefreshes};
ghost use Rattle.mk_compile.specs.Compiled.{IsCertified, IsWithin};
ghost use Rattle.mk_compile.specs.Correct.{Correct};

use crate::bundle::bundle_of;
use mk_ast::SourceRefusal;
use mk_place::{different_law, place};
use mk_rules::Bundle;
use mk_simplify::simplify;
use mk_types::Typed;
use mk_unroll::unroll;
use std::alloc::Global;

/// The masked code of a program at an order, with its certificate: the program is unrolled and simplified,
/// refreshes are placed, and each block is emitted by its template. The refusals are those of `unroll`, in
/// its order: `Large(Elements)`, the event that stops execution, and `Large(Size)`. `Memory` comes where
/// memory is wanted and not found. No other refusal comes. A parsed and well typed program has at most 32,768
/// maps.
pub fn compile(alloc: Global, p: &Typed, order: u8) -> Result<Bundle, SourceRefusal>
    requires order { (1 ≤ order) × (order ≤ TOP_ORDER) }
    requires maps { length (maps_of p.now.decls) ≤ MOST_MAPS }

    // From all shares and all tapes the code gives shares of the program's result.
    ensures correct { IfOk result (λ b. Correct p.now order b.code) }

    // Its maps are the program's, in order of declaration.
    ensures maps { IfOk result (λ b. b.code.maps ≡ maps_of p.now.decls) }

    // The certificate is the program's, the rule accepts the code with it, and the code is private.
    ensures certified { IfOk result (λ b. IsCertified p.now b.cert) }
    ensures accepted { IfOk result (λ b. IsAccepted b.code b.cert) }
    ensures private { IfOk result (λ b. Private b.code) }
    ensures different { IfOk result (λ b. AllDifferButRefreshes b.cert.blocks) }

    // They have a bundle text.
    ensures pair { IfOk result (λ b. IsPair b.code b.cert) }

    // What is compiled stays within the limits, and what is refused has its cause.
    ensures within { OnOk result (IsWithin p.now order) }
    ensures cause { IfErr result (λ e. (e ≡ refusal_.Memory) ⊎ Cause p.now order e) }
{
    p.law();
    let unrolled = unroll(alloc, p, order)?;
    let values = simplify(alloc, unrolled)?;
    let cert = place(alloc, &values)?;
    values.law();
    different_law();
    let bundle = bundle_of(alloc, order, &values, cert)?;
    Ok(bundle)
}
