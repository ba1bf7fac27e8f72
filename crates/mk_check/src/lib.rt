//! The checker: whether a code is made of the blocks of its certificate, with the claimed outputs, and no
//! value reaches both places of a product. A `Checker` is given the code while it comes, instruction by
//! instruction and then output by output; `check` gives it a whole code.
#![tactic(auto)]

ghost use Rattle.std.specs.Prelude.{◌≡◌, ◌⊎◌, OnOk, IfErr};
ghost use Rattle.mk_code.specs.Listing.{Listing};
ghost use Rattle.mk_code.specs.Private.{Private};
ghost use Rattle.mk_rules.specs.Claimed.{Claimed};
ghost use Rattle.mk_rules.specs.Accepts.{IsAccepted};
ghost use Rattle.mk_check.specs.Verdict.{IsRefused};

mod checker;
mod doubled;
mod giving;
mod outline;
mod outputs;
mod plan;
mod refusal;
mod templates;
mod wired;

pub use checker::Checker;
use giving::{checker_of, give_instrs, give_outs};
use mk_code::Code;
use mk_rules::Cert;
pub use refusal::CheckRefusal;
use std::alloc::Global;

/// Whether the rule accepts the code with its certificate, which makes the code private: else the first
/// part that doesn't hold, of operands, tiles, outputs and doubled values in this order, with its first
/// place. `verdict_law` says that these exclude each other.
pub fn check(alloc: Global, code: &Code, cert: &Cert) -> Result<(), CheckRefusal>
    ensures accepted { OnOk result (IsAccepted code.now cert.now) }
    ensures private { OnOk result (Private code.now) }
    ensures refused { IfErr result (λ e. (e ≡ CheckRefusal.Memory) ⊎ IsRefused code.now cert.now e) }
{
    code.law();
    let mut checker = checker_of(alloc, code, cert)?;
    give_instrs(&mut checker, code.instrs().as_slice());
    give_outs(&mut checker, code);
    checker.finish()
}

/// The law of verdicts: what the rule accepts has no cause to be refused, and there is at most one cause to
/// refuse. It does nothing.
pub fn verdict_law()
    ensures accepted { (code : Listing) (cert : Claimed) (e : CheckRefusal) → IsAccepted code cert
        → IsRefused code cert e → ⊥ }
    ensures one { (code : Listing) (cert : Claimed) (e f : CheckRefusal) → IsRefused code cert e
        → IsRefused code cert f → e ≡ f }
{}
