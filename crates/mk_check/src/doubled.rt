//! Whether a value reaches both places of a product, for 32 products at a time: one pass from the last block of
//! these to the first block, with a word of marks for each value.

ghost use Rattle.std.specs.Prelude.{◌≡◌, ◌⊎◌, ◌+◌, ◌*◌, ◌<◌, ◌≤◌, ◌^◌, ◌↔◌, List, ℕ, IsTrue, IsSomeAnd, IfErr, IfOk, IfSome, IfNone, OnOk, length, slice_get, slice_index, Some};
ghost use Rattle.mk_ssa.specs.declared.Op.{Op};
ghost use Rattle.mk_ssa.specs.declared.Operand.{Operand};
ghost use Rattle.mk_rules.specs.Tiles.{value_number as number_by_operand};
ghost use Rattle.mk_rules.specs.Products.{products_before};
ghost use Rattle.mk_rules.specs.Uses.{shared_numbers as numbers_by_place};
ghost use Rattle.mk_rules.specs.Wired.{Wired, IsSharedThere};
ghost use Rattle.mk_rules.specs.Reaches.{Undoubled, links};
ghost use Rattle.mk_rules.specs.Faults.{FirstDoubled};
ghost use Rattle.mk_check.specs.declared.doubled.TheConstants.{BATCH};
ghost use Rattle.mk_check.specs.Outlines.{outlined};
ghost use Rattle.mk_check.specs.Passing.{IsBatch, IsNumbered, HasBoth, AreMarks, IsBrought, IsPassedOn, IsDoubling};

use crate::outline::Outline;
use crate::refusal::CheckRefusal;
use mk_base::Memory;
use mk_rules::{first_pair, is_product, shared_numbers};
use mk_ssa::{Op, Operand};
use std::alloc::Global;

/// How many products one pass serves: a word has a bit for each of their places.
const BATCH: usize = 32;

/// Products that one pass serves: those of the blocks from `from` on and before `end`, so many.
#[derive(Clone, Copy, Debug)]
struct Batch {
    from: usize,
    end: usize,
    products: usize,
}

/// A product by its number among those of a batch, and a value by its number, which reaches both its places.
#[derive(Clone, Copy, Debug)]
struct Clash {
    product: usize,
    value: usize,
}

/// The next products, from block `from` on.
fn next_batch(blocks: &[Op], from: usize) -> Batch
    requires { from < length blocks.now }
    ensures { IsBatch blocks.now from result }
{
    let mut end = from;
    let mut products = 0;
    while end < blocks.len() && products < BATCH {
        if is_product(blocks[end]) {
            products += 1;
        }
        end += 1;
    }
    Batch {
        from,
        end,
        products,
    }
}

/// Sets these bits in the word of the value with this number, if there is one.
fn bring(marks: &mut [u64], number: Option<usize>, word: u64)
    requires { IfSome number (λ v. v < length marks.old) }
    ensures count { length marks.new ≡ length marks.old }
    ensures marks { IsBrought number word marks.old marks.new }
{
    if let Some(number) = number {
        marks[number] |= word;
    }
}

/// Passes marks on to the operands of the block with this number: of a linear block those of its value, and of a
/// product with a number in the batch those of its places.
fn pass_on(outline: &Outline, marks: &mut [u64], block: usize, op: Op, product: Option<usize>)
    requires first { IfSome (slice_get (numbers_by_place (outlined outline.now) op) 0)
        (λ v. v < length marks.old) }
    requires second { IfSome (slice_get (numbers_by_place (outlined outline.now) op) 1)
        (λ v. v < length marks.old) }
    requires there { outline.now.secrets + outline.now.publics + block < length marks.old }
    requires few { IfSome product (λ r. r < BATCH) }
    ensures count { length marks.new ≡ length marks.old }
    ensures marks { IsPassedOn (outlined outline.now) op
        (slice_index marks.old (outline.now.secrets + outline.now.publics + block)) product marks.old marks.new }
{
    match op {
        Op::Mul { .. } => {
            if let Some(product) = product {
                let (first, second) = shared_numbers(outline.secrets, outline.publics, op);
                bring(marks, first, 1 << (2 * product));
                bring(marks, second, 1 << (2 * product + 1));
            }
        }
        Op::Refresh { .. } => {}
        _ => {
            let own = marks[outline.inputs() + block];
            if own != 0 {
                let (first, second) = shared_numbers(outline.secrets, outline.publics, op);
                bring(marks, first, own);
                bring(marks, second, own);
            }
        }
    }
}

/// Takes all marks away.
fn clear(marks: &mut [u64])
    ensures count { length marks.new ≡ length marks.old }
    ensures none { (v : ℕ) → slice_index marks.new v ≡ 0 }
{
    for number in 0..marks.len() {
        marks[number] = 0;
    }
}

/// The number of a block in the batch, if it is one of its products. Up to the block's end stand so many of them.
fn product_number(blocks: &[Op], batch: Batch, block: usize, products: usize) -> Option<usize>
    requires batch { IsBatch blocks.now batch.from batch }
    requires there { block < batch.end }
    requires count { batch.from ≤ block
        → products_before blocks.now (block + 1) ≡ products_before blocks.now batch.from + products }
    ensures { (r : ℕ) → (result ≡ Some r) ↔ IsNumbered blocks.now batch r block }
{
    if block >= batch.from && is_product(blocks[block]) {
        Some(products - 1)
    } else {
        None
    }
}

/// Marks in the word of each value the places of the batch's products that it reaches.
fn mark_all(outline: &Outline, blocks: &[Op], batch: Batch, marks: &mut [u64])
    requires wired { Wired (outlined outline.now) blocks.now }
    requires batch { IsBatch blocks.now batch.from batch }
    requires count { length marks.old ≡ outline.now.secrets + outline.now.publics + length blocks.now }
    ensures { AreMarks (outlined outline.now) blocks.now batch 0 marks.new }
{
    clear(marks);
    let mut products = batch.products;
    let mut block = batch.end;
    while block > 0 {
        block -= 1;
        let product = product_number(blocks, batch, block, products);
        pass_on(outline, marks, block, blocks[block], product);
        products = product.unwrap_or(products);
    }
}

/// Whether the product comes before that of a clash, if there is one.
fn is_before(product: usize, first: Option<Clash>) -> bool
    ensures { IsTrue result ↔ IfSome first (λ clash. product < clash.product) }
{
    match first {
        Some(clash) => product < clash.product,
        None => true,
    }
}

/// The first product of which a value has both places marked, and the first such value.
fn first_clash(marks: &[u64]) -> Option<Clash>
    ensures both { IfSome result (λ clash. HasBoth marks.now clash.product clash.value) }
    ensures first { (r v : ℕ) → HasBoth marks.now r v
        → IsSomeAnd result (λ clash. (clash.product < r) ⊎ ((clash.product ≡ r) × (clash.value ≤ v))) }
{
    let mut first = None;
    for value in 0..marks.len() {
        if let Some(product) = first_pair(marks[value]) {
            if is_before(product, first) {
                first = Some(Clash { product, value });
            }
        }
    }
    first
}

/// The block of a product of the batch.
fn block_of(blocks: &[Op], batch: Batch, product: usize) -> usize
    requires batch { IsBatch blocks.now batch.from batch }
    requires there { product < batch.products }
    ensures { IsNumbered blocks.now batch product result }
{
    let mut left = product;
    let mut block = batch.from;
    while block < batch.end {
        if is_product(blocks[block]) {
            if left == 0 {
                return block;
            }
            left -= 1;
        }
        block += 1;
    }
    block
}

/// The value with this number.
fn value_at(outline: &Outline, number: usize) -> Operand
    requires { number < outline.now.secrets + outline.now.publics + 2 ^ 32 }
    ensures { (blocks : List Op) (value : Operand) → IsSharedThere (outlined outline.now) blocks value
        → number_by_operand (outlined outline.now) value ≡ number → result ≡ value }
{
    let secrets = outline.secrets as usize;
    let inputs = secrets + outline.publics as usize;
    if number < secrets {
        Operand::Secret(number as u32)
    } else if number < inputs {
        Operand::Public((number - secrets) as u32)
    } else {
        Operand::Block((number - inputs) as u32)
    }
}

/// The first product of which a value reaches both places, and the first such value, by words of marks, one for
/// each value. It takes no memory. Its time is that of all values for each 32 products, whatever leads where.
fn first_doubled(outline: &Outline, blocks: &[Op], marks: &mut [u64]) -> Option<(Operand, u32)>
    requires wired { Wired (outlined outline.now) blocks.now }
    requires small { length blocks.now < 2 ^ 32 }
    requires count { length marks.old ≡ outline.now.secrets + outline.now.publics + length blocks.now }
    ensures none { IfNone result (Undoubled (outline.now.secrets + outline.now.publics) (links (outlined outline.now) blocks.now)) }
    ensures first { IfSome result (λ first. FirstDoubled (outlined outline.now) blocks.now first.0 first.1) }
{
    let mut from = 0;
    while from < blocks.len() {
        let batch = next_batch(blocks, from);
        mark_all(outline, blocks, batch, marks);
        if let Some(clash) = first_clash(marks) {
            let block = block_of(blocks, batch, clash.product) as u32;
            return Some((value_at(outline, clash.value), block));
        }
        from = batch.end;
    }
    None
}

/// A word without marks for each of so many values.
pub(crate) fn no_marks(alloc: Global, count: usize) -> Result<Vec<u64>, Memory>
    ensures { IfOk result (λ marks. length marks.items ≡ count) }
{
    Ok(vec![in alloc; 0; count]?)
}

/// Answers `Doubled` for the first product of which a value reaches both places, with the first such value.
pub(crate) fn undoubled(
    outline: &Outline,
    blocks: &[Op],
    marks: &mut [u64],
) -> Result<(), CheckRefusal>
    requires wired { Wired (outlined outline.now) blocks.now }
    requires small { length blocks.now < 2 ^ 32 }
    requires count { length marks.old ≡ outline.now.secrets + outline.now.publics + length blocks.now }
    ensures ok { OnOk result (Undoubled (outline.now.secrets + outline.now.publics) (links (outlined outline.now) blocks.now)) }
    ensures doubled { IfErr result (λ e. IsDoubling (outlined outline.now) blocks.now e) }
{
    match first_doubled(outline, blocks, marks) {
        Some((value, block)) => Err(CheckRefusal::Doubled { value, block }),
        None => Ok(()),
    }
}
