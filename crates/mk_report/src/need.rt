//! Places of products, and what is told of a row of bits that stands for some.

ghost use Rattle.std.specs.Prelude.{◌≡◌, ◌++◌, ◌*◌, ◌/◌, ◌<◌, ◌≤◌, ◌^◌, ℕ, length, take, map, slice_get, IfOk, OnOk};
ghost use Rattle.mk_rules.specs.Rows.{HasBit};
ghost use Rattle.mk_report.specs.Rows.{bits_between, set_bits, place_for, places_in, HavePlaces};
ghost use Rattle.mk_report.specs.Passing.{IsTold};

use mk_base::{Items, Memory};
use mk_rules::has_bit;
use std::alloc::Global;

/// A place of a product: the number of its block, and which operand.
#[derive(Clone, Copy, Debug, PartialEq, Eq)]
pub(crate) struct ProductPlace {
    pub block: u32,
    pub operand: u8,
}

/// Places by block and then operand, each once.
pub(crate) type Need = Items<ProductPlace>;

/// How many places of a value are shown.
const SHOWN: usize = 8;

/// How many places a value reaches, and the first of them.
#[derive(Debug, Drop)]
pub(crate) struct Told {
    pub count: usize,
    pub shown: Need,
}

/// The place for a bit: bits 2r and 2r + 1 are those of product r, of which this is the block.
fn place_of(products: &[u32], bit: usize) -> ProductPlace
    requires { bit / 2 < length products.now }
    ensures { result ≡ place_for products.now bit }
{
    ProductPlace {
        block: products[bit / 2],
        operand: (bit % 2) as u8,
    }
}

/// How many bits of a row are set.
fn count_of(row: &[u64]) -> usize
    requires { length row.now < 2 ^ 32 }
    ensures { result ≡ length (set_bits row.now) }
{
    let mut count = 0;
    for word in row {
        count += word.count_ones() as usize;
    }
    count
}

/// Appends the places for the bits of a word that are set, until there are as many as are shown.
fn show_word(shown: &mut Need, products: &[u32], row: &[u64], word: usize) -> Result<(), Memory>
    requires word { word < length row.now }
    requires small { length row.now < 2 ^ 32 }
    requires products { HavePlaces products.now row.now }
    requires shown { length shown.old ≤ SHOWN }
    ensures { OnOk result (shown.new ≡ take SHOWN (shown.old
        ++ map (place_for products.now) (bits_between row.now (64 * word) 64))) }
{
    for at in 0..64 {
        let bit = 64 * word + at;
        if shown.len() < SHOWN && has_bit(row, bit) {
            shown.push(place_of(products, bit))?;
        }
    }
    Ok(())
}

/// The first places for the bits of a row that are set.
fn shown_of(alloc: Global, products: &[u32], row: &[u64]) -> Result<Need, Memory>
    requires small { length row.now < 2 ^ 32 }
    requires products { HavePlaces products.now row.now }
    ensures { IfOk result (λ shown. shown ≡ take SHOWN (places_in products.now row.now)) }
{
    let mut shown = Items::new(alloc);
    for word in 0..row.len() {
        if shown.len() >= SHOWN {
            return Ok(shown);
        }
        if row[word] != 0 {
            show_word(&mut shown, products, row, word)?;
        }
    }
    Ok(shown)
}

/// What is told of a value, where the row stands for the places that it reaches.
pub(crate) fn tell(alloc: Global, products: &[u32], row: &[u64]) -> Result<Told, Memory>
    requires small { length row.now < 2 ^ 32 }
    requires products { HavePlaces products.now row.now }
    ensures { IfOk result (λ told. IsTold (places_in products.now row.now) told) }
{
    let count = count_of(row);
    let shown = shown_of(alloc, products, row)?;
    Ok(Told { count, shown })
}
