//! The polynomials of a gadget's positions.

ghost use Rattle.std.specs.Prelude.{◌≡◌, ◌+◌, ◌≤◌, ◌<◌, ◌^◌, length, map, sum, IfOk, OnOk, IfErr, ◌⊎◌};
ghost use Rattle.std.specs.List.{AllByRecursion};
ghost use Rattle.mk_code.specs.Listing.{FitsAt, AllFit};
ghost use Rattle.mk_code.specs.Trace.{takes, randoms};
ghost use Rattle.mk_pad.specs.declared.TheConstants.{MOST_GADGET_INSTRS};
ghost use Rattle.mk_pad.specs.Form.{share_count};
ghost use Rattle.mk_pad.specs.Polynomial.{IsPolynomial};
ghost use Rattle.mk_pad.specs.Positions.{polynomial_at, next_polynomial, term_count, variable_count, variables, polynomials, polynomials_of, counts, counts_of, AreFew, IsRefused};

use crate::MOST_TERMS;
use crate::gadget::Gadget;
use crate::refusal::PadRefusal;
use crate::ring::{Polynomial, Ring};
use crate::term::Term;
use mk_base::{Items, Memory};
use mk_code::Instr;
use std::alloc::Global;

/// The ring of the polynomials of a gadget's positions.
pub(crate) fn ring_of(alloc: Global, gadget: &Gadget) -> Ring
    ensures field { result.field ≡ gadget.now.field }
    ensures variables { result.variables ≡ variable_count gadget.now }
{
    gadget.law();
    Ring {
        alloc,
        field: gadget.field(),
        variables: count_shares(gadget) + count_randoms(gadget.instrs().as_slice()),
    }
}

/// The polynomials of all positions of a gadget, in its ring.
pub(crate) fn gadget_polynomials(
    ring: &Ring,
    gadget: &Gadget,
) -> Result<Items<Polynomial>, PadRefusal>
    requires field { ring.now.field ≡ gadget.now.field }
    requires variables { ring.now.variables ≡ variable_count gadget.now }
    ensures polynomials { IfOk result (λ positions. positions ≡ polynomials gadget.now) }
    ensures few { OnOk result (AreFew (counts gadget.now)) }
    ensures refused { IfErr result (λ e. (e ≡ PadRefusal.Memory) ⊎ IsRefused (counts gadget.now) e) }
{
    gadget.law();
    polynomials(ring, count_shares(gadget), gadget.instrs().as_slice())
}

/// The polynomials of all positions of some instructions that stand behind so many shares: those of the shares,
/// and then those of the instructions.
fn polynomials(ring: &Ring, shares: u32, instrs: &[Instr]) -> Result<Items<Polynomial>, PadRefusal>
    requires variables { shares + randoms instrs.now ≡ ring.now.variables }
    requires fit { AllFit ring.now.field 0 shares instrs.now }
    ensures polynomials { IfOk result (λ positions. positions ≡ polynomials_of ring.now.field ring.now.variables shares instrs.now) }
    ensures few { OnOk result (AreFew (counts_of ring.now.field ring.now.variables shares instrs.now)) }
    ensures refused { IfErr result (λ e. (e ≡ PadRefusal.Memory) ⊎ IsRefused (counts_of ring.now.field ring.now.variables shares instrs.now) e) }
{
    let mut positions = share_polynomials(ring, shares)?;
    let mut next = shares;
    for instr in instrs {
        let terms = count_terms(ring, *instr, positions.as_slice());
        if terms > MOST_TERMS {
            return Err(PadRefusal::TooManyTerms { terms });
        }
        let polynomial = polynomial_of(ring, *instr, next, positions.as_slice())?;
        positions.push(polynomial)?;
        next += instr.randoms();
    }
    Ok(positions)
}

/// The polynomials of so many shares.
fn share_polynomials(ring: &Ring, shares: u32) -> Result<Items<Polynomial>, Memory>
    requires { shares ≤ ring.now.variables }
    ensures { IfOk result (λ positions. positions ≡ variables ring.now.variables shares) }
{
    let mut positions = Items::new(ring.alloc);
    for share in 0..shares {
        positions.push(ring.variable(share)?)?;
    }
    Ok(positions)
}

/// How many terms an instruction counts behind positions with these polynomials.
fn count_terms(ring: &Ring, instr: Instr, positions: &[Polynomial]) -> u64
    requires { FitsAt ring.now.field 0 (length positions.now) instr }
    ensures { result ≡ term_count instr positions.now }
{
    match instr {
        Instr::Rnd | Instr::Const { .. } => 1,
        Instr::Copy { from } | Instr::Sq { from } => terms_at(positions, from),
        Instr::Add { left, right } => terms_at(positions, left) + terms_at(positions, right),
        Instr::Mul { left, right } => terms_at(positions, left) * terms_at(positions, right),
        Instr::Map { .. } => 0,
    }
}

/// How many terms the polynomial of a position has.
fn terms_at(positions: &[Polynomial], position: u32) -> u64
    requires { position < length positions.now }
    ensures count { result ≡ length (polynomial_at positions.now position) }
    ensures small { result < 2 ^ 32 }
{
    positions[position as usize].len() as u64
}

/// The polynomial of a position.
fn terms_of(positions: &[Polynomial], position: u32) -> &[Term]
    requires { position < length positions.now }
    ensures { result.now ≡ polynomial_at positions.now position }
{
    positions[position as usize].as_slice()
}

/// The polynomial of an instruction behind positions with these polynomials, where the next random element is the
/// variable `next`.
fn polynomial_of(
    ring: &Ring,
    instr: Instr,
    next: u32,
    positions: &[Polynomial],
) -> Result<Polynomial, Memory>
    requires fits { FitsAt ring.now.field 0 (length positions.now) instr }
    requires polynomials { AllByRecursion (IsPolynomial ring.now.field ring.now.variables) positions.now }
    requires next { next + takes instr ≤ ring.now.variables }
    ensures { IfOk result (λ p. p ≡ next_polynomial ring.now.field ring.now.variables instr next positions.now) }
{
    match instr {
        Instr::Rnd => ring.variable(next),
        Instr::Const { value } => ring.constant(value),
        Instr::Copy { from } => ring.copy(terms_of(positions, from)),
        Instr::Add { left, right } => ring.plus(
            terms_of(positions, left),
            terms_of(positions, right),
        ),
        Instr::Mul { left, right } => ring.times(
            terms_of(positions, left),
            terms_of(positions, right),
        ),
        Instr::Sq { from } => ring.squared(terms_of(positions, from)),
        Instr::Map { .. } => Ok(Items::new(ring.alloc)),
    }
}

/// How many shares the operands have together.
pub(crate) fn count_shares(gadget: &Gadget) -> u32
    ensures { result ≡ share_count gadget.now }
{
    gadget.kind().operands() * (u32::from(gadget.order()) + 1)
}

/// How many random elements the instructions take.
fn count_randoms(instrs: &[Instr]) -> u32
    requires { length instrs.now ≤ MOST_GADGET_INSTRS }
    ensures { result ≡ sum (map takes instrs.now) }
{
    instrs.iter().map(|instr| instr.randoms()).sum()
}
