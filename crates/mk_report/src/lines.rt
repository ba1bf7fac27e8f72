//! The lines of a report.

ghost use Rattle.std.specs.Prelude.{◌≡◌, ◌+◌, ◌<◌, ◌≤◌, ◌^◌, ◌++◌, ℕ, List, length, OnOk, string_bytes, codes};
ghost use Rattle.std.specs.List.{flat_map, range_with_len, enumerate_from, sum_by};
ghost use Rattle.mk_base.specs.declared.TheConstants.{TOP_ORDER};
ghost use Rattle.mk_rules.specs.Shape.{shape_of};
ghost use Rattle.mk_report.specs.Passing.{IsTold, AreTold};
ghost use Rattle.mk_report.specs.Report.{instrs_of, randoms_of, place_word, places_word, need_words, secret_line, block_line, total_line, report_text};

use crate::need::{ProductPlace, Told};
use mk_code::Code;
use mk_rules::cost;
use mk_ssa::Op;
use std::alloc::AllocError;

/// Appends a place.
fn push_place(text: &mut String, place: ProductPlace) -> Result<(), AllocError>
    ensures { OnOk result (string_bytes text.new ≡ string_bytes text.old ++ place_word place) }
{
    write!(text, "b{}.{}", place.block, place.operand)
}

/// Appends places, a comma before each.
fn push_others(text: &mut String, places: &[ProductPlace]) -> Result<(), AllocError>
    ensures { OnOk result (string_bytes text.new ≡ string_bytes text.old
        ++ flat_map (λ q. codes "," ++ place_word q) places.now) }
{
    for place in places {
        text.push_str(",")?;
        push_place(text, *place)?;
    }
    Ok(())
}

/// Appends places with commas between, or a dash.
fn push_places(text: &mut String, places: &[ProductPlace]) -> Result<(), AllocError>
    ensures { OnOk result (string_bytes text.new ≡ string_bytes text.old ++ places_word places.now) }
{
    match places.split_first() {
        Some((first, others)) => {
            push_place(text, *first)?;
            push_others(text, others)
        }
        None => text.push_str("-"),
    }
}

/// Appends how many places there are, and the first of them.
fn push_need(text: &mut String, told: &Told) -> Result<(), AllocError>
    ensures { OnOk result ((places : List ProductPlace) → IsTold places told.now → string_bytes text.new
        ≡ string_bytes text.old ++ need_words places) }
{
    write!(text, "{} ", told.count)?;
    push_places(text, told.shown.as_slice())
}

/// Appends the line of a secret.
fn push_secret(text: &mut String, secret: u32, told: &Told) -> Result<(), AllocError>
    ensures { OnOk result ((places : List ProductPlace) → IsTold places told.now → string_bytes text.new
        ≡ string_bytes text.old ++ secret_line secret places) }
{
    write!(text, "s{secret} input 0 0 ")?;
    push_need(text, told)?;
    text.push_str("\n")
}

/// Appends the line of a block.
fn push_block(
    text: &mut String,
    order: u8,
    block: usize,
    op: Op,
    told: &Told,
) -> Result<(), AllocError>
    requires order { (1 ≤ order) × (order ≤ TOP_ORDER) }
    ensures { OnOk result ((places : List ProductPlace) → IsTold places told.now → string_bytes text.new
        ≡ string_bytes text.old ++ block_line order block op places) }
{
    let price = cost(&op, order);
    let word = op.word();
    let instrs = price.instrs;
    let randoms = price.randoms;
    write!(text, "b{block} {word} {instrs} {randoms} ")?;
    push_need(text, told)?;
    text.push_str("\n")
}

/// What is told of the value with this number, where the last value is told of first.
fn told_of(told: &[Told], value: usize) -> &Told
    requires { value < length told.now }
    ensures { (places : ℕ → List ProductPlace) → AreTold places told.now → IsTold (places value) result.now }
{
    &told[told.len() - 1 - value]
}

/// Appends the lines of the secrets.
fn push_secrets(text: &mut String, secrets: u32, told: &[Told]) -> Result<(), AllocError>
    requires { secrets ≤ length told.now }
    ensures { OnOk result ((places : ℕ → List ProductPlace) → AreTold places told.now → string_bytes text.new
        ≡ string_bytes text.old ++ flat_map (λ k. secret_line k (places k)) (range_with_len 0 secrets)) }
{
    for secret in 0..secrets {
        push_secret(text, secret, told_of(told, secret as usize))?;
    }
    Ok(())
}

/// Appends the lines of the blocks, whose values come behind the inputs.
fn push_blocks(
    text: &mut String,
    code: &Code,
    blocks: &[Op],
    told: &[Told],
) -> Result<(), AllocError>
    requires { length told.now ≡ code.now.secrets + code.now.publics + length blocks.now }
    ensures { OnOk result ((places : ℕ → List ProductPlace) → AreTold places told.now → string_bytes text.new
        ≡ string_bytes text.old ++ flat_map (λ row. block_line code.now.order row.0 row.1
        (places (code.now.secrets + code.now.publics + row.0))) (enumerate_from 0 blocks.now)) }
{
    code.law();
    let inputs = code.secrets() as usize + code.publics() as usize;
    for (block, op) in blocks.iter().enumerate() {
        push_block(
            text,
            code.order(),
            block,
            *op,
            told_of(told, inputs + block),
        )?;
    }
    Ok(())
}

/// What blocks cost together.
#[derive(Clone, Copy, Debug, PartialEq, Eq)]
struct Total {
    instrs: u64,
    randoms: u64,
}

/// What the blocks cost together at an order.
fn total_of(blocks: &[Op], order: u8) -> Total
    requires order { (1 ≤ order) × (order ≤ TOP_ORDER) }
    requires small { length blocks.now < 2 ^ 32 }
    ensures instrs { result.instrs ≡ sum_by (instrs_of order) blocks.now }
    ensures randoms { result.randoms ≡ sum_by (randoms_of order) blocks.now }
{
    let mut instrs = 0;
    let mut randoms = 0;
    for op in blocks {
        let price = cost(op, order);
        instrs += u64::from(price.instrs);
        randoms += u64::from(price.randoms);
    }
    Total { instrs, randoms }
}

/// Appends the line of the totals and the width.
fn push_total(text: &mut String, blocks: &[Op], order: u8, width: u32) -> Result<(), AllocError>
    requires order { (1 ≤ order) × (order ≤ TOP_ORDER) }
    requires small { length blocks.now < 2 ^ 32 }
    ensures { OnOk result (string_bytes text.new ≡ string_bytes text.old ++ total_line order blocks.now width) }
{
    let total = total_of(blocks, order);
    let count = blocks.len();
    let instrs = total.instrs;
    let randoms = total.randoms;
    write!(text, "total {count} {instrs} {randoms} {width}\n")
}

/// Appends the report of a code of this width and its blocks, where the last value is told of first.
pub(crate) fn push_report(
    text: &mut String,
    code: &Code,
    blocks: &[Op],
    told: &[Told],
    width: u32,
) -> Result<(), AllocError>
    requires small { length blocks.now < 2 ^ 32 }
    requires count { length told.now ≡ code.now.secrets + code.now.publics + length blocks.now }
    ensures { OnOk result ((places : ℕ → List ProductPlace) → AreTold places told.now → string_bytes text.new
        ≡ string_bytes text.old ++ report_text (shape_of code.now) blocks.now places width) }
{
    code.law();
    push_secrets(text, code.secrets(), told)?;
    push_blocks(text, code, blocks, told)?;
    push_total(text, blocks, code.order(), width)
}
