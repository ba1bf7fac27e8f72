//! The need of a value: the places of products that it reaches through no refresh, as a row of bits.

ghost use Rattle.std.specs.Prelude.{◌≡◌, ◌+◌, ◌*◌, ◌<◌, ◌≤◌, length, IsTrue, ◌↔◌};
ghost use Rattle.mk_rules.specs.Products.{AreNumbers, products_before};
ghost use Rattle.mk_rules.specs.Rows.{HasBit, Clash};
ghost use Rattle.mk_place.specs.Needs.{clash, added};
ghost use Rattle.mk_place.specs.Marking.{IsNeed, OfNeeds, IsTaken, HasRow, brings};

use mk_base::Items;
use mk_rules::{OperandPlace, has_bit, is_product, join_rows, rows_clash, set_bit};
use mk_ssa::Ssa;

/// Takes a place to a row, unless the product's other place is there; answers whether it is.
fn take_place(row: &mut [u64], own: usize, other: usize) -> bool
    requires own { own < 64 * length row.old }
    requires other { other < 64 * length row.old }
    ensures clashes { IsTrue result ↔ HasBit row.old other }
    ensures count { length row.new ≡ length row.old }
    ensures bits { IsTaken row.old (HasBit row.old other) (λ k. k ≡ own) row.new }
{
    let clashes = has_bit(row, other);
    if !clashes {
        set_bit(row, own);
    }
    clashes
}

/// Takes the places of another row to a row, unless they clash; answers whether they do.
fn take_row(row: &mut [u64], brought: &[u64]) -> bool
    requires { length row.old ≡ length brought.now }
    ensures clashes { IsTrue result ↔ Clash row.old brought.now }
    ensures count { length row.new ≡ length row.old }
    ensures bits { IsTaken row.old (Clash row.old brought.now) (HasBit brought.now) row.new }
{
    let clashes = rows_clash(row, brought);
    if !clashes {
        join_rows(row, brought);
    }
    clashes
}

/// Takes what a use brings to the need of its operand, unless they clash; answers whether they do. The rows
/// are those of the values behind, the last value first.
pub(crate) fn take(
    row: &mut [u64],
    s: &Ssa,
    numbers: &[u32],
    rows: &[Items<u64>],
    place: OperandPlace,
) -> bool
    requires there { place.value < length s.now.values }
    requires two { place.operand < 2 }
    requires count { length numbers.now ≡ length s.now.values + 1 }
    requires numbers { AreNumbers s.now.values numbers.now }
    requires room { 2 * products_before s.now.values (length s.now.values) ≤ 64 * length row.old }
    requires brought { HasRow s.now rows.now (length row.old) place.value }
    ensures count { length row.new ≡ length row.old }
    ensures clashes { OfNeeds s.now.values row.old (λ need. result ≡ clash need (brings s.now place)) }
    ensures taken { OfNeeds s.now.values row.old (λ n. IsNeed s.now.values (added n (brings s.now place)) row.new) }
{
    let ops = s.values().as_slice();
    let value = place.value as usize;
    if is_product(ops[value]) {
        let first = 2 * numbers[value] as usize;
        if place.operand == 0 {
            take_place(row, first, first + 1)
        } else {
            take_place(row, first + 1, first)
        }
    } else {
        take_row(row, rows[ops.len() - 1 - value].as_slice())
    }
}
