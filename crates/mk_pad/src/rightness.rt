//! Whether what a gadget computes is right.

ghost use Rattle.std.specs.Prelude.{◌≡◌, ◌+◌, ◌*◌, ◌≤◌, ◌<◌, ◌⊎◌, ◌↔◌, [], length, map, All, IfOk, OnOk, IfErr, IsTrue, sum, take};
ghost use Rattle.std.specs.List.{AllByRecursion};
ghost use Rattle.mk_pad.specs.Form.{operands, share_count, position_count};
ghost use Rattle.mk_pad.specs.Polynomial.{IsPolynomial, plus};
ghost use Rattle.mk_pad.specs.Positions.{polynomial_at, counts, AreFew, IsRefused};
ghost use Rattle.mk_pad.specs.Value.{sum_all, wanted_polynomial, HasRightPolynomials, HasRightValue, HasWrongValue};

use crate::gadget::Gadget;
use crate::kind::GadgetKind;
use crate::positions::{count_shares, gadget_polynomials, ring_of};
use crate::refusal::PadRefusal;
use crate::ring::{Polynomial, Ring};
use crate::terms::add_terms;
use mk_base::{Items, Memory};
use std::alloc::Global;

/// Whether a gadget's value is right: whether the sum of the polynomials of its outs is the polynomial of the
/// product of its operands, or of its operand. Exactly then its outs share the product or the value for every
/// sharing of the operands and every tape. `TooManyTerms` comes exactly where an instruction counts too many terms,
/// with the count of the first such one.
pub fn right_value(alloc: Global, gadget: &Gadget) -> Result<bool, PadRefusal>
    ensures polynomials { IfOk result (λ right. IsTrue right ↔ HasRightPolynomials gadget.now) }
    ensures right { IfOk result (λ right. IsTrue right ↔ HasRightValue gadget.now) }
    ensures wrong { IfOk result (λ right. (IsTrue right → ⊥) ↔ HasWrongValue gadget.now) }
    ensures few { OnOk result (AreFew (counts gadget.now)) }
    ensures refused { IfErr result (λ e. (e ≡ PadRefusal.Memory) ⊎ IsRefused (counts gadget.now) e) }
{
    gadget.law();
    let ring = ring_of(alloc, gadget);
    let positions = gadget_polynomials(&ring, gadget)?;
    let difference = differences(&ring, gadget, positions.as_slice())?;
    Ok(difference.is_empty())
}

/// The sum of the polynomials of the outs and of the wanted polynomial.
fn differences(ring: &Ring, gadget: &Gadget, positions: &[Polynomial]) -> Result<Polynomial, Memory>
    requires field { ring.now.field ≡ gadget.now.field }
    requires count { length positions.now ≡ position_count gadget.now }
    requires polynomials { AllByRecursion (IsPolynomial ring.now.field ring.now.variables) positions.now }
    ensures { IfOk result (λ p. p ≡ plus (sum_all (map (polynomial_at positions.now) gadget.now.outs)) (wanted_polynomial gadget.now.field gadget.now.kind (gadget.now.order + 1) (take (share_count gadget.now) positions.now))) }
{
    gadget.law();
    let outs = sum_at(ring, positions, gadget.outs().as_slice())?;
    let each = usize::from(gadget.order()) + 1;
    let wanted = wanted(
        ring,
        gadget.kind(),
        each,
        &positions[..count_shares(gadget) as usize],
    )?;
    ring.plus(outs.as_slice(), wanted.as_slice())
}

/// The sum of the polynomials of some positions.
fn sum_at(ring: &Ring, positions: &[Polynomial], outs: &[u32]) -> Result<Polynomial, Memory>
    requires { All (λ p. p < length positions.now) outs.now }
    ensures { IfOk result (λ p. p ≡ sum_all (map (polynomial_at positions.now) outs.now)) }
{
    let mut terms = Vec::new(ring.alloc);
    for out in outs {
        add_terms(ring.alloc, &mut terms, positions[*out as usize].as_slice())?;
    }
    Items::try_from_vec(terms)
}

/// The product of the sums of the polynomials of the shares of two operands, which have `each` shares, or the sum
/// of those of one.
fn wanted(
    ring: &Ring,
    kind: GadgetKind,
    each: usize,
    shares: &[Polynomial],
) -> Result<Polynomial, Memory>
    requires count { length shares.now ≡ operands kind * each }
    requires polynomials { AllByRecursion (IsPolynomial ring.now.field ring.now.variables) shares.now }
    ensures { IfOk result (λ p. p ≡ wanted_polynomial ring.now.field kind each shares.now) }
{
    match kind {
        GadgetKind::Mul => {
            let (first, second) = shares.split_at(each);
            let left = ring.sum(first)?;
            let right = ring.sum(second)?;
            ring.times(left.as_slice(), right.as_slice())
        }
        GadgetKind::Refresh => ring.sum(shares),
    }
}
