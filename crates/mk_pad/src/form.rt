//! Whether parts have the form of a gadget.

ghost use Rattle.std.specs.Prelude.{◌≡◌, ◌+◌, ◌<◌, ◌≤◌, ◌^◌, ◌↔◌, IsTrue, length, nat_eq};
ghost use Rattle.std.specs.List.{AllByRecursion, IsDistinct};
ghost use Rattle.mk_code.specs.Listing.{FitsAt, AllFit};
ghost use Rattle.mk_pad.specs.Form.{AreOuts, IsGadget};

use crate::kind::GadgetKind;
use crate::{MOST_GADGET_INSTRS, TOP_GADGET_ORDER};
use mk_code::Instr;
use mk_field::FieldId;

/// Whether these parts have the form of a gadget.
pub fn has_form(kind: GadgetKind, field: FieldId, order: u8, instrs: &[Instr], outs: &[u32]) -> bool
    ensures { IsTrue result ↔ IsGadget (record { kind = kind; field = field; order = order; instrs = instrs.now; outs = outs.now }) }
{
    if order < 1 || order > TOP_GADGET_ORDER || instrs.len() > MOST_GADGET_INSTRS as usize {
        return false;
    }
    let shares = kind.operands() * (u32::from(order) + 1);
    all_fit(field, shares, instrs) && are_outs(order, shares, shares + instrs.len() as u32, outs)
}

/// Whether an instruction of a gadget may stand behind so many positions.
pub fn fits(field: FieldId, positions: u32, instr: Instr) -> bool
    ensures { IsTrue result ↔ FitsAt field 0 positions instr }
{
    match instr {
        Instr::Rnd => true,
        Instr::Const { value } => field.contains(value),
        Instr::Copy { from } | Instr::Sq { from } => from < positions,
        Instr::Add { left, right } | Instr::Mul { left, right } => left < positions
            && right < positions,
        Instr::Map { .. } => false,
    }
}

/// Whether these are outs of a gadget of this order whose instructions have the positions from `first` up to `end`.
pub fn are_outs(order: u8, first: u32, end: u32, outs: &[u32]) -> bool
    ensures { IsTrue result ↔ AreOuts order first end outs.now }
{
    outs.len() == usize::from(order) + 1 && are_within(first, end, outs) && are_different(outs)
}

/// Whether instructions of a gadget may stand behind so many positions, one after the other.
fn all_fit(field: FieldId, positions: u32, instrs: &[Instr]) -> bool
    requires { positions + length instrs.now < 2 ^ 32 }
    ensures { IsTrue result ↔ AllFit field 0 positions instrs.now }
{
    let mut behind = positions;
    for instr in instrs {
        if !fits(field, behind, *instr) {
            return false;
        }
        behind += 1;
    }
    true
}

/// Whether positions are from `first` up to `end`.
fn are_within(first: u32, end: u32, positions: &[u32]) -> bool
    ensures { IsTrue result ↔ AllByRecursion (λ p. (first ≤ p) × (p < end)) positions.now }
{
    for position in positions {
        if *position < first || *position >= end {
            return false;
        }
    }
    true
}

/// Whether no position stands twice.
fn are_different(positions: &[u32]) -> bool
    ensures { IsTrue result ↔ IsDistinct nat_eq positions.now }
{
    for i in 0..positions.len() {
        if positions[i + 1..].contains(&positions[i]) {
            return false;
        }
    }
    true
}
