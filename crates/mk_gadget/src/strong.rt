//! Emitters of the refresh and of the product of two shared values.

ghost use Rattle.std.specs.Prelude.{◌≡◌, ◌≢◌, ◌≤◌, ◌<◌, ◌+◌, ◌*◌, ◌^◌, ◌++◌, List, length, IfOk, OnErr};
ghost use Rattle.mk_code.specs.declared.TheConstants.{MOST_INSTRS};
ghost use Rattle.mk_field.specs.declared.map.AddMap.{AddMap};
ghost use Rattle.mk_field.specs.Field.{product};
ghost use Rattle.mk_code.specs.Counting.{AllBelow};
ghost use Rattle.mk_code.specs.Draft.{draft_len};
ghost use Rattle.mk_gadget.specs.Emitted.{Emitted, Gives, shared_at};
ghost use Rattle.mk_gadget.specs.Pairs.{pairs, pairs_upto};
ghost use Rattle.mk_gadget.specs.Product.{product_gadget};
ghost use Rattle.mk_gadget.specs.Product as positions;
ghost use Rattle.mk_gadget.specs.Refresh.{refresh_gadget};
ghost use Rattle.mk_gadget.specs.Steady.{IsStrong};

use mk_base::Memory;
use mk_code::{CodeBuilder, Instr};
use mk_field::Field;
use mk_share::Bank;

/// How many pairs of `N` shares have their first before this share.
fn pairs_before<const N: usize>(share: usize) -> usize
    requires least { 2 ≤ N }
    requires most { N ≤ 4096 }
    requires share { share ≤ N }
    ensures { result ≡ length (pairs_upto N share) }
{
    share * (2 * N - share - 1) / 2
}

/// The position of the first instruction of two shares, in a product whose first instruction has the position
/// `first`.
fn pair_position<const N: usize>(first: u32, low: usize, high: usize) -> u32
    requires least { 2 ≤ N }
    requires most { N ≤ 4096 }
    requires order { low < high }
    requires within { high < N }
    requires fits { first + 5 * length (pairs N) < 2 ^ 32 }
    ensures { 2 * N + result ≡ first + positions.pair_position N low high }
{
    let pair = pairs_before::<N>(low) + (high - low - 1);
    first + 5 * pair as u32
}

/// The position of a cell, in such a product.
fn cell_position<const N: usize>(first: u32, row: usize, column: usize) -> u32
    requires least { 2 ≤ N }
    requires most { N ≤ 4096 }
    requires row { row < N }
    requires column { column < N }
    requires other { row ≢ column }
    requires fits { first + 5 * length (pairs N) < 2 ^ 32 }
    ensures { 2 * N + result ≡ first + positions.cell_position N row column }
{
    if row < column {
        pair_position::<N>(first, row, column)
    } else {
        pair_position::<N>(first, column, row) + 4
    }
}

/// Appends a refresh of a shared value, and answers its bank. After `Memory` the code is as before.
pub fn emit_refresh<F: Field, const N: usize>(
    builder: &mut CodeBuilder<F>,
    x: &Bank<N>,
) -> Result<Bank<N>, Memory>
    requires least { 2 ≤ N }
    requires order { builder.old.order + 1 ≡ N }
    requires few { length builder.old.instrs + length (refresh_gadget N).instrs ≤ MOST_INSTRS }
    requires shared { AllBelow (draft_len builder.old) x.now.regs }
    ensures emitted { IfOk result (λ bank. Emitted builder.old builder.new x.now.regs (refresh_gadget N) bank.regs) }
    ensures value { IfOk result (λ bank. Gives F.ID builder.old.maps N (draft_len builder.old) x.now.regs (refresh_gadget N) (λ entries. shared_at x.now.regs entries)) }
    ensures strong { (maps : List AddMap) → IsStrong F.ID maps N 1 0 (refresh_gadget N) }
    ensures memory { OnErr result (builder.new ≡ record builder.old { spare = builder.new.spare }) }
{
    x.law();
    builder.reserve(3 * pairs_before::<N>(N) as u32)?;
    let mut regs = x.regs;
    // The partial sums of a row: one random element for each later share, added to both.
    macro_rules! partial_sums {
        ($i:ident) => {
            for j in $i + 1..N {
                let random = builder.push(Instr::Rnd);
                regs[$i] = builder.push(Instr::Add {
                    left: regs[$i],
                    right: random,
                });
                regs[j] = builder.push(Instr::Add {
                    left: regs[j],
                    right: random,
                });
            }
        };
    }
    for i in 0..N {
        partial_sums!(i);
    }
    Ok(Bank { regs })
}

/// Appends the product of two shared values, and answers its bank. After `Memory` the code is as before.
pub fn emit_mul<F: Field, const N: usize>(
    builder: &mut CodeBuilder<F>,
    x: &Bank<N>,
    y: &Bank<N>,
) -> Result<Bank<N>, Memory>
    requires least { 2 ≤ N }
    requires order { builder.old.order + 1 ≡ N }
    requires few { length builder.old.instrs + length (product_gadget N).instrs ≤ MOST_INSTRS }
    requires left { AllBelow (draft_len builder.old) x.now.regs }
    requires right { AllBelow (draft_len builder.old) y.now.regs }
    ensures emitted { IfOk result (λ bank. Emitted builder.old builder.new (x.now.regs ++ y.now.regs) (product_gadget N) bank.regs) }
    ensures value { IfOk result (λ bank. Gives F.ID builder.old.maps N (draft_len builder.old) (x.now.regs ++ y.now.regs) (product_gadget N) (λ entries. product F.ID (shared_at x.now.regs entries) (shared_at y.now.regs entries))) }
    ensures strong { (maps : List AddMap) → IsStrong F.ID maps N 2 0 (product_gadget N) }
    ensures memory { OnErr result (builder.new ≡ record builder.old { spare = builder.new.spare }) }
{
    x.law();
    y.law();
    builder.reserve(5 * pairs_before::<N>(N) as u32 + (N * N) as u32)?;
    let first = builder.len();
    // The cells of two shares: a random element, and its sum with both cross products.
    macro_rules! cross_products {
        ($low:ident, $high:ident) => {
            let mut sum = builder.push(Instr::Rnd);
            let product = builder.push(Instr::Mul {
                left: x.regs[$low],
                right: y.regs[$high],
            });
            sum = builder.push(Instr::Add {
                left: sum,
                right: product,
            });
            let other = builder.push(Instr::Mul {
                left: x.regs[$high],
                right: y.regs[$low],
            });
            sum = builder.push(Instr::Add {
                left: sum,
                right: other,
            });
        };
    }
    // The partial sums of a row: the product of its two shares, and one more of its cells at a time.
    macro_rules! partial_sums {
        ($row:ident) => {{
            let mut sum = builder.push(Instr::Mul {
                left: x.regs[$row],
                right: y.regs[$row],
            });
            for column in 0..N {
                if column != $row {
                    sum = builder.push(Instr::Add {
                        left: sum,
                        right: cell_position::<N>(first, $row, column),
                    });
                }
            }
            sum
        }};
    }
    for low in 0..N {
        for high in low + 1..N {
            cross_products!(low, high);
        }
    }
    let mut regs = [0; N];
    for row in 0..N {
        regs[row] = partial_sums!(row);
    }
    Ok(Bank { regs })
}
