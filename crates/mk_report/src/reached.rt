//! Which places of products values reach, from the last value to the first.

ghost use Rattle.std.specs.Prelude.{◌≡◌, ◌+◌, ◌-◌, ◌*◌, ◌<◌, ◌≤◌, ◌^◌, ◌↔◌, ◌⊎◌, ℕ, [], true, length, slice_index_or, IfOk, IsTrue, Contains};
ghost use Rattle.mk_ssa.specs.declared.Op.TheVariants.{Const};
ghost use Rattle.mk_rules.specs.Shape.{shape_of};
ghost use Rattle.mk_rules.specs.Wired.{Wired};
ghost use Rattle.mk_rules.specs.Products.{AreNumbers, products_before};
ghost use Rattle.mk_rules.specs.Rows.{HasBit};
ghost use Rattle.mk_report.specs.Rows.{AreProducts};
ghost use Rattle.mk_report.specs.Passing.{passes, Brings, HasEarlier, IsBehind, IsGathered, IsIndex, IsReady, TellsOf, row_at};

use crate::need::{Told, tell};
use mk_base::{Items, Memory};
use mk_code::Code;
use mk_rules::{
    OperandPlace, is_product, join_rows, product_numbers, set_bit, shared_numbers, uses_of,
};
use mk_ssa::Op;
use std::alloc::Global;

/// The uses of each value by its number; how many products stand before each block; the blocks of the products,
/// in order; and how many words a row has.
#[derive(Drop)]
struct Index {
    uses: Vec<Items<OperandPlace>>,
    numbers: Vec<u32>,
    products: Vec<u32>,
    words: usize,
}

/// Whether a block passes the places of its value on: it is linear, and has shared operands.
fn passes_on(op: Op) -> bool
    ensures { result ≡ passes op }
{
    matches!(
        op,
        Op::Add { .. } | Op::AddPub { .. } | Op::Scale { .. } | Op::Sq { .. } | Op::Map { .. }
    )
}

/// The blocks of the products, in order.
fn products_of(alloc: Global, blocks: &[Op]) -> Result<Vec<u32>, Memory>
    requires small { length blocks.now < 2 ^ 32 }
    ensures { IfOk result (λ products. AreProducts blocks.now products.items) }
{
    let mut products = Vec::new(alloc);
    for block in 0..blocks.len() {
        if is_product(blocks[block]) {
            products.push(block as u32)?;
        }
    }
    Ok(products)
}

/// What the pass goes by.
fn make_index(alloc: Global, code: &Code, blocks: &[Op]) -> Result<Index, Memory>
    requires wired { Wired (shape_of code.now) blocks.now }
    requires small { length blocks.now < 2 ^ 32 }
    ensures { IfOk result (λ index. IsIndex (shape_of code.now) blocks.now index.uses.items index.numbers.items
        index.products.items index.words) }
{
    let uses = uses_of(alloc, code.secrets(), code.publics(), blocks)?;
    let numbers = product_numbers(alloc, blocks)?;
    let products = products_of(alloc, blocks)?;
    let words = (numbers[blocks.len()] as usize + 31) / 32;
    Ok(Index {
        uses,
        numbers,
        products,
        words,
    })
}

/// Adds to a row what a use brings: a product the bit for its place, a block that passes places on its own row.
/// The rows are those of the blocks behind, the last block first.
fn bring(row: &mut [u64], blocks: &[Op], numbers: &[u32], rows: &[Items<u64>], place: OperandPlace)
    requires count { length numbers.now ≡ length blocks.now + 1 }
    requires numbers { AreNumbers blocks.now numbers.now }
    requires room { 2 * products_before blocks.now (length blocks.now) ≤ 64 * length row.old }
    requires ready { IsReady blocks.now rows.now (length row.old) place }
    ensures count { length row.new ≡ length row.old }
    ensures bits { (k : ℕ) → HasBit row.new k ↔ (HasBit row.old k ⊎ Brings blocks.now rows.now place k) }
{
    let block = place.value as usize;
    let op = blocks[block];
    if is_product(op) {
        set_bit(row, 2 * numbers[block] as usize + place.operand as usize);
    } else if passes_on(op) {
        join_rows(row, rows[blocks.len() - 1 - block].as_slice());
    }
}

/// The row of a value, by its uses.
fn gather(
    alloc: Global,
    blocks: &[Op],
    index: &Index,
    rows: &[Items<u64>],
    uses: &[OperandPlace],
) -> Result<Items<u64>, Memory>
    requires count { length index.now.numbers.items ≡ length blocks.now + 1 }
    requires numbers { AreNumbers blocks.now index.now.numbers.items }
    requires room { 2 * products_before blocks.now (length blocks.now) ≤ 64 * index.now.words }
    requires small { index.now.words < 2 ^ 32 }
    requires ready { (u : OperandPlace) → Contains uses.now u → IsReady blocks.now rows.now index.now.words u }
    ensures count { IfOk result (λ row. length row ≡ index.now.words) }
    ensures bits { IfOk result (λ row. IsGathered blocks.now rows.now uses.now row) }
{
    let mut row = vec![in alloc; 0; index.words]?;
    for at in 0..uses.len() {
        bring(
            row.as_mut_slice(),
            blocks,
            index.numbers.as_slice(),
            rows,
            uses[at],
        );
    }
    Ok(Items::from_vec(row))
}

/// Whether a block has a shared operand before the value with this number.
fn has_earlier(code: &Code, op: Op, number: usize) -> bool
    ensures { IsTrue result ↔ HasEarlier (shape_of code.now) op number }
{
    let (first, second) = shared_numbers(code.secrets(), code.publics(), op);
    matches!(first, Some(v) if v < number) || matches!(second, Some(v) if v < number)
}

/// Lets the rows go that are passed on for good: those of the blocks that use this value and have no operand
/// before it.
fn let_go(
    alloc: Global,
    code: &Code,
    blocks: &[Op],
    rows: &mut Vec<Items<u64>>,
    uses: &[OperandPlace],
    number: usize,
)
    requires { (u : OperandPlace) → Contains uses.now u → IsBehind blocks.now rows.old.items u }
    ensures count { length rows.new.items ≡ length rows.old.items }
    ensures kept { (b : ℕ) → HasEarlier (shape_of code.now) (slice_index_or blocks.now b (Const 0)) number
        → row_at blocks.now rows.new.items b ≡ row_at blocks.now rows.old.items b }
{
    for at in 0..uses.len() {
        let block = uses[at].value as usize;
        if !has_earlier(code, blocks[block], number) {
            rows[blocks.len() - 1 - block] = Items::new(alloc);
        }
    }
}

/// The row of the value with this number if it is to be passed on, and else an empty one.
fn kept(alloc: Global, blocks: &[Op], inputs: usize, number: usize, row: Items<u64>) -> Items<u64>
    requires { number < inputs + length blocks.now }
    ensures { (b : ℕ) → number ≡ inputs + b → passes (slice_index_or blocks.now b (Const 0)) ≡ true → result ≡ row }
{
    if number >= inputs && passes_on(blocks[number - inputs]) {
        row
    } else {
        Items::new(alloc)
    }
}

/// What is told of the places of products that each value reaches, of the last value first. Rows are kept of
/// the blocks that pass them on, until they have.
pub(crate) fn reached(alloc: Global, code: &Code, blocks: &[Op]) -> Result<Vec<Told>, Memory>
    requires wired { Wired (shape_of code.now) blocks.now }
    requires small { length blocks.now < 2 ^ 32 }
    ensures count { IfOk result (λ told. length told.items ≡ code.now.secrets + code.now.publics + length blocks.now) }
    ensures places { IfOk result (λ told. TellsOf (shape_of code.now) blocks.now told.items) }
{
    let index = make_index(alloc, code, blocks)?;
    let inputs = code.secrets() as usize + code.publics() as usize;
    let total = inputs + blocks.len();
    let mut rows = Vec::new(alloc);
    let mut told = Vec::new(alloc);
    for done in 0..total {
        let number = total - 1 - done;
        let uses = index.uses[number].as_slice();
        let row = gather(alloc, blocks, &index, rows.as_slice(), uses)?;
        told.push(tell(alloc, index.products.as_slice(), row.as_slice())?)?;
        let_go(alloc, code, blocks, &mut rows, uses, number);
        rows.push(kept(alloc, blocks, inputs, number, row))?;
    }
    Ok(told)
}
