//! The templates of all operators, by their instructions and their shares.

ghost use Rattle.std.specs.Prelude.{◌≡◌, ◌≢◌, ◌≤◌, ◌<◌, ◌+◌, ◌*◌, ℕ, Some, IfOk, length, slice_get};
ghost use Rattle.mk_base.specs.declared.TheConstants.{TOP_ORDER};
ghost use Rattle.mk_code.specs.declared.TheConstants.{MOST_INSTRS};
ghost use Rattle.mk_ssa.specs.Kinds.{Strong, kind, shared_operands, public_operands};
ghost use Rattle.mk_gadget.specs.Product.{product_gadget};
ghost use Rattle.mk_gadget.specs.Refresh.{refresh_gadget};
ghost use Rattle.mk_gadget.specs.Template.{built_in};
ghost use Rattle.mk_check.specs.Gadgets.{template_of, built_in_gadgets};

use mk_base::{Items, Memory};
use mk_code::{Code, CodeBuilder, Instr};
use mk_field::{Field, Gf2};
use mk_gadget::{emit_mul, emit_refresh};
use mk_share::{Bank, with_order};
use mk_ssa::Op;
use std::alloc::Global;
use std::marker::Model;

/// The templates of all operators with some number of shares, the gadgets of the product and of the refresh
/// being given: they stand in codes of their own, whose inputs are the operands.
#[derive(Drop)]
pub(crate) struct Templates {
    shares: u32,
    product: Code,
    refresh: Code,
}

impl Model for Templates {
    ghost use Rattle.std.specs.Prelude.{◌≤◌, ◌+◌};
    ghost use Rattle.mk_base.specs.declared.TheConstants.{TOP_ORDER};
    ghost use Rattle.mk_check.specs.Gadgets.{Gadgets};

    ghost Value = { Gadgets };

    ghost view = { λ t. record {
      shares = t.shares;
      product = record { instrs = t.product.instrs; outs = t.product.outs };
      refresh = record { instrs = t.refresh.instrs; outs = t.refresh.outs };
    } };

    ghost invariant = { λ t. (1 ≤ t.shares) × (t.shares ≤ TOP_ORDER + 1) };
}

impl Templates {
    /// Instruction `k` of the template of an operator, if it has as many.
    pub(crate) fn instr(&self, op: &Op, k: u32) -> Option<Instr>
        ensures { result ≡ slice_get (template_of self.now op.now).instrs k }
    {
        match op {
            Op::Mul { .. } => self.product.instrs().as_slice().get(k as usize).copied(),
            Op::Refresh { .. } => self.refresh.instrs().as_slice().get(k as usize).copied(),
            _ if k < self.rows(op) => Some(row(op, self.shares, k)),
            _ => None,
        }
    }

    /// The position of share `k` in its out bank, if it has as many.
    pub(crate) fn share_position(&self, op: &Op, k: u32) -> Option<u32>
        ensures { result ≡ slice_get (template_of self.now op.now).outs k }
    {
        match op {
            Op::Mul { .. } => self.product.outs().as_slice().get(k as usize).copied(),
            Op::Refresh { .. } => self.refresh.outs().as_slice().get(k as usize).copied(),
            _ if k < self.rows(op) => Some(operands(op, self.shares) + k),
            _ => None,
        }
    }

    /// How many instructions the template of an operator has.
    pub(crate) fn len(&self, op: &Op) -> u32
        ensures count { result ≡ length (template_of self.now op.now).instrs }
        ensures small { result ≤ MOST_INSTRS }
    {
        match op {
            Op::Mul { .. } => instrs_len(&self.product),
            Op::Refresh { .. } => instrs_len(&self.refresh),
            _ => self.rows(op),
        }
    }

    /// How many instructions the template of a public or linear operator has, and its out bank positions.
    fn rows(&self, op: &Op) -> u32
        ensures rows { (kind op.now ≢ Strong) → (result ≡ length (template_of self.now op.now).instrs)
            × (result ≡ length (template_of self.now op.now).outs) }
        ensures small { result ≤ TOP_ORDER + 1 }
    {
        if op.is_public() { 1 } else { self.shares }
    }
}

/// How many instructions a code has.
fn instrs_len(code: &Code) -> u32
    ensures count { result ≡ length code.now.instrs }
    ensures small { result ≤ MOST_INSTRS }
{
    code.law();
    code.instrs().len() as u32
}

/// How many positions the operands of an operator have.
pub(crate) fn operands(op: &Op, shares: u32) -> u32
    requires { shares ≤ TOP_ORDER + 1 }
    ensures { result ≡ shares * length (shared_operands op.now) + length (public_operands op.now) }
{
    match op {
        Op::Const { .. } => 0,
        Op::PubSq { .. } | Op::PubMap { .. } | Op::Lift { .. } => 1,
        Op::PubAdd { .. } | Op::PubMul { .. } => 2,
        Op::Sq { .. } | Op::Map { .. } | Op::Refresh { .. } => shares,
        Op::AddPub { .. } | Op::Scale { .. } => shares + 1,
        Op::Add { .. } | Op::Mul { .. } => 2 * shares,
    }
}

/// Instruction `k` of the template of a public or linear operator.
fn row(op: &Op, shares: u32, k: u32) -> Instr
    requires kind { kind op.now ≢ Strong }
    requires shares { shares ≤ TOP_ORDER + 1 }
    requires there { k < length (built_in shares op.now).instrs }
    ensures { slice_get (built_in shares op.now).instrs k ≡ Some result }
{
    match *op {
        Op::Const { value } => Instr::Const { value },
        Op::PubAdd { .. } => Instr::Add { left: 0, right: 1 },
        Op::PubMul { .. } => Instr::Mul { left: 0, right: 1 },
        Op::PubSq { .. } => Instr::Sq { from: 0 },
        Op::PubMap { map, .. } => Instr::Map { map, from: 0 },
        Op::Lift { .. } if k == 0 => Instr::Copy { from: 0 },
        Op::Lift { .. } => Instr::Const { value: 0 },
        Op::Add { .. } => Instr::Add {
            left: k,
            right: shares + k,
        },
        Op::AddPub { .. } if k == 0 => Instr::Add {
            left: 0,
            right: shares,
        },
        Op::AddPub { .. } => Instr::Copy { from: k },
        Op::Scale { .. } => Instr::Mul {
            left: k,
            right: shares,
        },
        Op::Sq { .. } => Instr::Sq { from: k },
        Op::Map { map, .. } => Instr::Map { map, from: k },
        Op::Mul { .. } | Op::Refresh { .. } => unreachable!(),
    }
}

/// The product as a code of its own.
fn product_code<F: Field, const N: usize>(alloc: Global) -> Result<Code, Memory>
    requires shares { (2 ≤ N) × (N ≤ TOP_ORDER + 1) }
    ensures instrs { IfOk result (λ code. code.instrs ≡ (product_gadget N).instrs) }
    ensures outs { IfOk result (λ code. code.outs ≡ (product_gadget N).outs) }
{
    let mut builder = CodeBuilder::<F>::new(alloc, N as u8 - 1, 2, 0, Items::new(alloc));
    let bank = emit_mul::<F, N>(
        &mut builder,
        &Bank::from_first(0),
        &Bank::from_first(N as u32),
    )?;
    let outs = Vec::from_slice(alloc, &bank.regs)?;
    Ok(builder.finish(Items::from_vec(outs)))
}

/// The refresh as a code of its own.
fn refresh_code<F: Field, const N: usize>(alloc: Global) -> Result<Code, Memory>
    requires shares { (2 ≤ N) × (N ≤ TOP_ORDER + 1) }
    ensures instrs { IfOk result (λ code. code.instrs ≡ (refresh_gadget N).instrs) }
    ensures outs { IfOk result (λ code. code.outs ≡ (refresh_gadget N).outs) }
{
    let mut builder = CodeBuilder::<F>::new(alloc, N as u8 - 1, 1, 0, Items::new(alloc));
    let bank = emit_refresh::<F, N>(&mut builder, &Bank::from_first(0))?;
    let outs = Vec::from_slice(alloc, &bank.regs)?;
    Ok(builder.finish(Items::from_vec(outs)))
}

/// The templates with `N` shares, by the product and the refresh that emitters append.
fn with_shares<F: Field, const N: usize>(alloc: Global) -> Result<Templates, Memory>
    requires shares { (2 ≤ N) × (N ≤ TOP_ORDER + 1) }
    ensures shares { IfOk result (λ templates. templates.shares ≡ N) }
    ensures built_in { IfOk result (λ templates. templates ≡ built_in_gadgets templates.shares) }
{
    Ok(Templates {
        shares: N as u32,
        product: product_code::<F, N>(alloc)?,
        refresh: refresh_code::<F, N>(alloc)?,
    })
}

/// The templates at an order, by the product and the refresh that emitters append.
pub(crate) fn at_order(alloc: Global, order: u8) -> Result<Templates, Memory>
    requires order { (1 ≤ order) × (order ≤ TOP_ORDER) }
    ensures shares { IfOk result (λ templates. templates.shares ≡ order + 1) }
    ensures built_in { IfOk result (λ templates. templates ≡ built_in_gadgets templates.shares) }
{
    with_order!(order, with_shares::<Gf2>(alloc))
}
