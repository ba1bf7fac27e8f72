//! The coefficients of the polynomial of a table.

ghost use Rattle.std.specs.Prelude.{◌≡◌, map, IfOk};
ghost use Rattle.std.specs.List.{range_with_len};
ghost use Rattle.mk_field.specs.declared.field.FieldId.TheVariants.{Gf256 as Gf256_};
ghost use Rattle.mk_field.specs.Field.{raised};
ghost use Rattle.mk_table.specs.Coefficients.{coefficient};

use mk_base::{Bytes, Items, Memory};
use mk_field::{Field, Gf256};
use std::alloc::Global;

/// An element to a power; 0 to the power 0 is 1.
#[tactic(auto, using(crate::proofs::Steps::raised_none, crate::proofs::Steps::raised_next, crate::proofs::Steps::product_below))]
pub(crate) fn raise(a: u8, n: u8) -> u8
    ensures { result ≡ raised Gf256_ a n }
{
    let mut power = 1;
    for _ in 0..n {
        power = Gf256::mul(a, power);
    }
    power
}

/// The coefficient of x to the power k.
#[tactic(auto, using(crate::proofs::Steps::coefficient_first, crate::proofs::Steps::coefficient_next, crate::proofs::Steps::sum_none, crate::proofs::Steps::sum_next, crate::proofs::Steps::product_below))]
fn coefficient_of(table: &[u8; 256], k: u8) -> u8
    ensures { result ≡ coefficient table.now k }
{
    if k == 0 {
        return table[0];
    }
    let mut sum = 0;
    for a in 0..256 {
        sum = Gf256::add(sum, Gf256::mul(table[a], raise(a as u8, 255 - k)));
    }
    sum
}

/// The coefficients, from that of x to the power 0 to that of x to the power 255.
pub(crate) fn coefficients_of(alloc: Global, table: &[u8; 256]) -> Result<Bytes, Memory>
    ensures { IfOk result (λ list. list ≡ map (coefficient table.now) (range_with_len 0 256)) }
{
    let mut list = Items::new(alloc);
    for k in 0..256u16 {
        list.push(coefficient_of(table, k as u8))?;
    }
    Ok(list)
}
