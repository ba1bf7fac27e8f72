//! The verdict on a gadget: whether every set of its positions is shown.

ghost use Rattle.std.specs.Prelude.{◌≡◌, ◌≤◌, ◌<◌, ◌+◌, ◌++◌, ◌∷◌, ◌⊎◌, [], List, MatchOption, IfOk, IfErr, OnOk, length};
ghost use Rattle.std.specs.List.{AllByRecursion};
ghost use Rattle.mk_field.specs.declared.map.AddMap.{AddMap};
ghost use Rattle.mk_gadget.specs.Steady.{IsStrong};
ghost use Rattle.mk_pad.specs.declared.TheConstants.{MOST_PROBES, MOST_SETS};
ghost use Rattle.mk_pad.specs.declared.refusal.Verdict.TheVariants.{Strong};
ghost use Rattle.mk_pad.specs.Form.{operands, position_count, share_count};
ghost use Rattle.mk_pad.specs.Positions.{counts, AreFew, IsRefused};
ghost use Rattle.mk_pad.specs.Shown.{AreAllShown, standing};
ghost use Rattle.mk_pad.specs.Verified.{set_count, IsVerdict, IsUnverified};
ghost use Rattle.mk_pad.specs.Looking.{Notes, AreShownBehind, IsFirstBehind, IsFirstNotShown};

use crate::MOST_SETS;
use crate::counting::count_sets;
use crate::gadget::Gadget;
use crate::occurrences::{Occurrences, find_occurrences};
use crate::positions::{count_shares, gadget_polynomials, ring_of};
use crate::refusal::{PadRefusal, Verdict};
use crate::shown::{Set, copy_of, is_shown};
use mk_base::{Items, Memory};
use mk_code::PositionList;
use std::alloc::Global;

/// The verdict on a gadget: whether every set of at most as many positions of instructions as its order is shown, so
/// that it is strong with any maps beside it, or the first that isn't, smaller ones before larger, and of those of one
/// size in the order of their positions. `TooManySets` comes exactly where there are more sets than `MOST_SETS`, and
/// `TooManyTerms` exactly where there are not and an instruction counts too many terms, with the count of the first.
pub fn verify_gadget(alloc: Global, gadget: &Gadget) -> Result<Verdict, PadRefusal>
    ensures verdict { IfOk result (IsVerdict gadget.now) }
    ensures strong { IfOk result (λ v. v ≡ Strong → (maps : List AddMap) → IsStrong gadget.now.field maps (gadget.now.order + 1) (operands gadget.now.kind) 0 (standing gadget.now)) }
    ensures sets { OnOk result (set_count gadget.now ≤ MOST_SETS) }
    ensures terms { OnOk result (AreFew (counts gadget.now)) }
    ensures refused { IfErr result (λ e. (e ≡ PadRefusal.Memory) ⊎ IsUnverified gadget.now e) }
{
    gadget.law();
    let sets = count_sets(gadget.instrs().len() as u32, u32::from(gadget.order()));
    if sets > MOST_SETS {
        return Err(PadRefusal::TooManySets { sets });
    }
    let rows = note_positions(alloc, gadget)?;
    if let Some(set) = first_not_shown(rows.as_slice(), gadget, count_shares(gadget)) {
        let probes = list_of(alloc, set.as_slice())?;
        return Ok(Verdict::NotShown { probes });
    }
    Ok(Verdict::Strong)
}

/// Which variables occur at the positions of a gadget.
fn note_positions(alloc: Global, gadget: &Gadget) -> Result<Items<Occurrences>, PadRefusal>
    ensures notes { IfOk result (Notes gadget.now) }
    ensures few { OnOk result (AreFew (counts gadget.now)) }
    ensures refused { IfErr result (λ e. (e ≡ PadRefusal.Memory) ⊎ IsRefused (counts gadget.now) e) }
{
    gadget.law();
    let ring = ring_of(alloc, gadget);
    let positions = gadget_polynomials(&ring, gadget)?;
    let rows = find_occurrences(
        alloc,
        positions.as_slice(),
        count_shares(gadget),
        ring.variables,
    )?;
    Ok(rows)
}

/// The list of these positions.
fn list_of(alloc: Global, set: &[u32]) -> Result<PositionList, Memory>
    ensures { IfOk result (λ positions. positions ≡ set.now) }
{
    let mut positions = Items::new(alloc);
    for position in set {
        positions.push(*position)?;
    }
    Ok(positions)
}

/// These positions, which are fewer than a set may have, and one more.
fn with(set: &[u32], position: u32) -> Set
    requires { length set.now < MOST_PROBES }
    ensures { result.items ≡ set.now ++ position ∷ [] }
{
    let mut more = copy_of(set);
    more.push(position);
    more
}

/// The first set that isn't shown, of those that begin with these positions and have so many more, from `from` on.
fn first_behind(
    rows: &[Occurrences],
    gadget: &Gadget,
    set: &[u32],
    from: u32,
    more: u32,
) -> Option<Set>
    requires rows { Notes gadget.now rows.now }
    requires set { AllByRecursion (λ p. p < position_count gadget.now) set.now }
    requires few { length set.now + more ≤ MOST_PROBES }
    ensures { MatchOption result (AreShownBehind gadget.now set.now from more) (λ found. IsFirstBehind gadget.now set.now from more found.items) }
{
    if more == 0 {
        return if is_shown(rows, gadget, set) {
            None
        } else {
            Some(copy_of(set))
        };
    }
    for position in from..rows.len() as u32 {
        let next = with(set, position);
        if let Some(found) = first_behind(rows, gadget, next.as_slice(), position + 1, more - 1) {
            return Some(found);
        }
    }
    None
}

/// The first set that isn't shown.
fn first_not_shown(rows: &[Occurrences], gadget: &Gadget, shares: u32) -> Option<Set>
    requires rows { Notes gadget.now rows.now }
    requires shares { shares ≡ share_count gadget.now }
    ensures { MatchOption result (AreAllShown gadget.now) (λ found. IsFirstNotShown gadget.now found.items) }
{
    for more in 0..u32::from(gadget.order()) {
        if let Some(found) = first_behind(rows, gadget, &[], shares, more + 1) {
            return Some(found);
        }
    }
    None
}
