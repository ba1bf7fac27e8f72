//! Whether the operands of blocks are there, and of their kind.

ghost use Rattle.std.specs.Prelude.{◌≡◌, ◌<◌, ◌^◌, ◌↔◌, ℕ, IsTrue, MatchOption, length};
ghost use Rattle.mk_rules.specs.Wired.{IsSharedThere, IsPublicThere, IsWired, Wired};
ghost use Rattle.mk_rules.specs.Faults.{FirstUnwired};
ghost use Rattle.mk_check.specs.Outlines.{outlined};

use crate::outline::Outline;
use mk_ssa::{Op, Operand};

/// Whether the operand is a secret that is there or a shared block among those before.
pub(crate) fn is_shared_there(outline: &Outline, before: &[Op], value: Operand) -> bool
    ensures { IsTrue result ↔ IsSharedThere (outlined outline.now) before.now value }
{
    match value {
        Operand::Secret(k) => k < outline.secrets,
        Operand::Public(_) => false,
        Operand::Block(k) => match before.get(k as usize) {
            Some(op) => !op.is_public(),
            None => false,
        },
    }
}

/// Whether the operand is a public input that is there or a public block among those before.
fn is_public_there(outline: &Outline, before: &[Op], value: Operand) -> bool
    ensures { IsTrue result ↔ IsPublicThere (outlined outline.now) before.now value }
{
    match value {
        Operand::Secret(_) => false,
        Operand::Public(k) => k < outline.publics,
        Operand::Block(k) => match before.get(k as usize) {
            Some(op) => op.is_public(),
            None => false,
        },
    }
}

/// Whether each operand of the operator is there and of its kind among the blocks before, its map is
/// one of the code's and its constant is an element of the field.
fn is_wired(outline: &Outline, before: &[Op], op: &Op) -> bool
    ensures { IsTrue result ↔ IsWired (outlined outline.now) before.now op.now }
{
    let is_shared = |value| is_shared_there(outline, before, value);
    let is_public = |value| is_public_there(outline, before, value);
    let has_map = |map| map < outline.maps;
    match *op {
        Op::Const { value } => outline.field.contains(value),
        Op::PubAdd { left, right } | Op::PubMul { left, right } => {
            is_public(left) && is_public(right)
        }
        Op::PubSq { arg } | Op::Lift { arg } => is_public(arg),
        Op::PubMap { map, arg } => has_map(map) && is_public(arg),
        Op::Add { left, right } | Op::Mul { left, right } => is_shared(left) && is_shared(right),
        Op::AddPub { left, right } | Op::Scale { left, right } => {
            is_shared(left) && is_public(right)
        }
        Op::Sq { arg } | Op::Refresh { arg } => is_shared(arg),
        Op::Map { map, arg } => has_map(map) && is_shared(arg),
    }
}

/// The first block that isn't wired, if there is one.
pub(crate) fn first_unwired(outline: &Outline, blocks: &[Op]) -> Option<u32>
    requires { length blocks.now < 2 ^ 32 }
    ensures { MatchOption result (Wired (outlined outline.now) blocks.now)
        (λ k. FirstUnwired (outlined outline.now) blocks.now k) }
{
    for (k, op) in blocks.iter().enumerate() {
        if !is_wired(outline, &blocks[..k], op) {
            return Some(k as u32);
        }
    }
    None
}
