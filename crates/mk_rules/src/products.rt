//! Products among blocks, counted from 0.

ghost use Rattle.std.specs.Prelude.{◌≡◌, ◌+◌, ◌<◌, ◌^◌, length, IfOk, IsTrue, ◌↔◌};
ghost use Rattle.mk_ssa.specs.Operators.{Operator, operator};
ghost use Rattle.mk_rules.specs.Products.{AreNumbers};

use mk_base::Memory;
use mk_ssa::Op;
use std::alloc::Global;

/// Whether an operator is a product. A refresh is none.
pub fn is_product(op: Op) -> bool
    ensures { IsTrue result ↔ (operator op ≡ Operator.Mul) }
{
    matches!(op, Op::Mul { .. })
}

/// How many products stand before each block, and before the end.
pub fn product_numbers(alloc: Global, ops: &[Op]) -> Result<Vec<u32>, Memory>
    requires { length ops.now < 2 ^ 32 }
    ensures count { IfOk result (λ numbers. length numbers.items ≡ length ops.now + 1) }
    ensures each { IfOk result (λ numbers. AreNumbers ops.now numbers.items) }
{
    let mut numbers = Vec::with_capacity(alloc, ops.len() + 1)?;
    let mut count = 0;
    for at in 0..ops.len() {
        numbers.push(count)?;
        if is_product(ops[at]) {
            count += 1;
        }
    }
    numbers.push(count)?;
    Ok(numbers)
}
