//! Bundles over registers: what is allocated for a code, and a bundle read, checked, and then allocated.

ghost use Rattle.std.specs.Prelude.{◌≡◌, ◌≤◌, ℕ, List, Some, OnOk, IfOk, IfErr};
ghost use Rattle.mk_code.specs.Private.{Private};
ghost use Rattle.mk_rules.specs.Accepts.{IsAccepted};
ghost use Rattle.mk_regs.specs.Form.{IsRegListing};
ghost use Rattle.mk_regs.specs.Allocation.{IsAllocated};
ghost use Rattle.mk_bundle.specs.Pairs.{IsBundleOf, IsRegisterPair};
ghost use Rattle.mk_bundle.specs.Text.{register_text};
ghost use Rattle.mk_words.specs.Words.{Regs};
ghost use Rattle.mk_top.specs.Headline.{Allocates};
ghost use Rattle.mk_top.specs.Registers.{CorrectnessLaw};
ghost use Rattle.mk_top.specs.Seen.{seen};
ghost use Rattle.mk_top.specs.Running.{NotMade, Made, NoText};

use crate::answer::RegisterBundle;
use crate::fault::Fault;
use crate::reading::whole_bundle;
use mk_base::{Memory, Source};
use mk_check::check;
use mk_regs::allocate;
use mk_rules::Bundle;
use std::alloc::Global;

/// The law of correctness: register code that is renamed to correct code is correct. It does nothing.
pub fn correctness_law()
    ensures { CorrectnessLaw }
{}

/// Checks a bundle: its code is private then.
fn check_bundle(alloc: Global, bundle: &Bundle) -> Result<(), Fault>
    ensures accepted { OnOk result (IsAccepted bundle.now.code bundle.now.cert) }
    ensures private { OnOk result (Private bundle.now.code) }
    ensures fault { (text : List ℕ) → IsBundleOf text bundle.now.code bundle.now.cert
        → IfErr result (NotMade Regs text) }
{
    Ok(check(alloc, &bundle.code, &bundle.cert)?)
}

/// The register code that is allocated for the code of a bundle, with the certificate of the bundle.
pub(crate) fn over_registers(alloc: Global, bundle: Bundle) -> Result<RegisterBundle, Memory>
    ensures listing { IfOk result (λ made. IsRegListing made.code) }
    ensures allocated { IfOk result (λ made. IsAllocated bundle.code made.code) }
    ensures cert { IfOk result (λ made. made.cert ≡ bundle.cert) }
{
    let code = allocate(alloc, &bundle.code)?;
    code.law();
    let cert = bundle.cert;
    Ok(RegisterBundle { code, cert })
}

/// The register code that is allocated for the code of a bundle that is accepted, with the certificate of the bundle.
fn registers_of(alloc: Global, bundle: Bundle) -> Result<RegisterBundle, Fault>
    ensures allocates { (text : List ℕ) → IsBundleOf text bundle.code bundle.cert
        → IfOk result (λ made. Allocates (Some text) (register_text made.code made.cert)) }
    ensures pair { (text : List ℕ) → IsBundleOf text bundle.code bundle.cert
        → IfOk result (λ made. IsRegisterPair made.code made.cert) }
    ensures fault { (text : List ℕ) → IsBundleOf text bundle.code bundle.cert
        → IfErr result (NotMade Regs text) }
{
    check_bundle(alloc, &bundle)?;
    Ok(over_registers(alloc, bundle)?)
}

/// Reads a bundle to its end, checks it, and answers the register code that is allocated for its code, with its
/// certificate.
pub(crate) fn allocated_bundle<S: Source>(
    alloc: Global,
    src: &mut S,
) -> Result<RegisterBundle, Fault>
    ensures made { IfOk result (λ made. Made Regs (seen S.left S.faults src.old src.new)
        (register_text made.code made.cert)) }
    ensures pair { IfOk result (λ made. IsRegisterPair made.code made.cert) }
    ensures unmade { IfErr result (NoText Regs (seen S.left S.faults src.old src.new)) }
    ensures reads { S.faults src.old ≤ S.faults src.new }
{
    let bundle = whole_bundle(alloc, src)?;
    registers_of(alloc, bundle)
}
