//! Where values are used.

ghost use Rattle.std.specs.Prelude.{◌≡◌, ◌<◌, ◌+◌, ◌^◌, ℕ, [], length, slice_get, slice_index_or, IfOk, OnOk, IfSome};
ghost use Rattle.mk_rules.specs.Uses.{AreThere, AreUsesAt, IsNoted, input_shape, shared_numbers as numbers_by_place};

use crate::numbers::value_number;
use mk_base::{Items, Memory};
use mk_ssa::{Op, Operand};
use std::alloc::Global;

/// Where a value is used: the number of the block that uses it, and as which operand.
#[derive(Clone, Copy, Debug, PartialEq, Eq)]
pub struct OperandPlace {
    pub value: u32,
    pub operand: u8,
}

/// The numbers of the first and the second shared operand, behind so many secrets and publics.
pub fn shared_numbers(secrets: u32, publics: u32, op: Op) -> (Option<usize>, Option<usize>)
    ensures first { result.0 ≡ slice_get (numbers_by_place (input_shape secrets publics) op) 0 }
    ensures second { result.1 ≡ slice_get (numbers_by_place (input_shape secrets publics) op) 1 }
{
    let (first, second) = op.shared_operands();
    (
        first.map(|v| value_number(secrets, publics, v)),
        second.map(|v| value_number(secrets, publics, v)),
    )
}

/// So many values, of which no use is noted yet.
fn no_uses(alloc: Global, len: usize) -> Result<Vec<Items<OperandPlace>>, Memory>
    ensures count { IfOk result (λ noted. length noted.items ≡ len) }
    ensures none { IfOk result (λ noted. (v : ℕ) → slice_index_or noted.items v [] ≡ []) }
{
    let mut noted = Vec::new(alloc);
    for _ in 0..len {
        noted.push(Items::new(alloc))?;
    }
    Ok(noted)
}

/// Notes a use of the value with this number, if there is one.
fn note(
    noted: &mut Vec<Items<OperandPlace>>,
    operand: Option<usize>,
    place: OperandPlace,
) -> Result<(), Memory>
    requires { IfSome operand (λ v. v < length noted.old.items) }
    ensures { OnOk result (IsNoted noted.old.items operand place noted.new.items) }
{
    match operand {
        Some(v) => noted[v].push(place),
        None => Ok(()),
    }
}

/// The uses of each value by its number, the last use first: those by these blocks, behind so many secrets and
/// publics.
pub fn uses_of(
    alloc: Global,
    secrets: u32,
    publics: u32,
    ops: &[Op],
) -> Result<Vec<Items<OperandPlace>>, Memory>
    requires small { length ops.now < 2 ^ 32 }
    requires there { AreThere (input_shape secrets publics) ops.now }
    ensures { IfOk result (λ noted. AreUsesAt (input_shape secrets publics) ops.now 0 noted.items) }
{
    let len = ops.len();
    let mut noted = no_uses(alloc, secrets as usize + publics as usize + len)?;
    for done in 0..len {
        let at = (len - 1 - done) as u32;
        let (left, right) = shared_numbers(secrets, publics, ops[at as usize]);
        note(
            &mut noted,
            right,
            OperandPlace {
                value: at,
                operand: 1,
            },
        )?;
        note(
            &mut noted,
            left,
            OperandPlace {
                value: at,
                operand: 0,
            },
        )?;
    }
    Ok(noted)
}
