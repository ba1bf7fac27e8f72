//! Whether an output is the claimed value.

ghost use Rattle.std.specs.Prelude.{◌≡◌, ◌↔◌, ◌+◌, ◌<◌, [], IsTrue, IsSomeAnd, length, slice_get, slice_index_or};
ghost use Rattle.mk_rules.specs.Tiles.{value_number as number_by_operand};
ghost use Rattle.mk_rules.specs.Wired.{IsSharedThere, Wired};
ghost use Rattle.mk_check.specs.Laying.{all_banks};
ghost use Rattle.mk_check.specs.Outlines.{outlined};
ghost use Rattle.mk_check.specs.Plans.{IsPlan};

use crate::plan::Plan;
use crate::wired::is_shared_there;

/// Whether these are the positions of the shares of the value with this number.
fn is_bank(plan: &Plan, number: usize, positions: &[u32]) -> bool
    requires plan { IsPlan plan.now }
    requires wired { Wired (outlined plan.now.outline) plan.now.cert.blocks }
    requires count { length positions.now ≡ plan.now.outline.order + 1 }
    ensures { IsTrue result ↔ (slice_index_or (all_banks (outlined plan.now.outline) plan.now.templates plan.now.cert.blocks) number [] ≡ positions.now) }
{
    for k in 0..positions.len() {
        if plan.share(number, k as u32) != Some(u64::from(positions[k])) {
            return false;
        }
    }
    plan.share(number, positions.len() as u32).is_none()
}

/// Whether there is a claim `k`, of a shared value that is there, and these are the positions of its shares.
pub(crate) fn is_claimed(plan: &Plan, k: u32, positions: &[u32]) -> bool
    requires plan { IsPlan plan.now }
    requires wired { Wired (outlined plan.now.outline) plan.now.cert.blocks }
    requires count { length positions.now ≡ plan.now.outline.order + 1 }
    ensures { IsTrue result ↔ IsSomeAnd (slice_get plan.now.cert.claims k) (λ v. IsSharedThere (outlined plan.now.outline) plan.now.cert.blocks v
        × (slice_index_or (all_banks (outlined plan.now.outline) plan.now.templates plan.now.cert.blocks) (number_by_operand (outlined plan.now.outline) v) [] ≡ positions.now)) }
{
    match plan.cert.claims().as_slice().get(k as usize) {
        Some(value) => {
            is_shared_there(&plan.outline, plan.cert.blocks().as_slice(), *value)
                && is_bank(plan, plan.outline.number_of(*value), positions)
        }
        None => false,
    }
}
