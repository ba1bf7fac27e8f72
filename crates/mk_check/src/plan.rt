//! Where the templates of a certificate's blocks begin, and so where the banks of its values are.

ghost use Rattle.std.specs.Prelude.{◌≡◌, ◌↔◌, ◌+◌, ◌<◌, ◌≤◌, ◌^◌, [], IsTrue, IfOk, Some, length, take, slice_get, slice_index, slice_index_or};
ghost use Rattle.mk_base.specs.declared.TheConstants.{TOP_ORDER};
ghost use Rattle.mk_ssa.specs.declared.Op.{Op};
ghost use Rattle.mk_gadget.specs.Gadget.{moved, placement};
ghost use Rattle.mk_rules.specs.Tiles as rule;
ghost use Rattle.mk_rules.specs.Tiles.{first_position};
ghost use Rattle.mk_rules.specs.Wired.{Wired};
ghost use Rattle.mk_check.specs.Gadgets.{template_of};
ghost use Rattle.mk_check.specs.Laying.{all_laid, all_banks};
ghost use Rattle.mk_check.specs.Outlines.{outlined};
ghost use Rattle.mk_check.specs.Plans.{front_len, laid_len, AreStarts, IsPlan, IsIn};

use crate::outline::Outline;
use crate::templates::{Templates, at_order, operands};
use mk_base::Memory;
use mk_code::Instr;
use mk_rules::Cert;
use mk_ssa::Op;
use std::alloc::Global;

/// A certificate with the templates of its operators, and for each block, and behind the last, how many
/// instructions stand before it.
#[derive(Drop)]
pub struct Plan {
    pub(crate) outline: Outline,
    pub(crate) cert: Cert,
    pub(crate) templates: Templates,
    pub(crate) starts: Vec<u64>,
}

/// For each block, and behind the last, how many instructions stand before it.
fn starts_of(
    alloc: Global,
    outline: &Outline,
    templates: &Templates,
    blocks: &[Op],
) -> Result<Vec<u64>, Memory>
    requires shares { templates.now.shares ≡ outline.now.order + 1 }
    requires small { length blocks.now < 2 ^ 32 }
    ensures { IfOk result (λ starts. AreStarts (outlined outline.now) templates.now blocks.now starts.items) }
{
    let mut starts = Vec::with_capacity(alloc, blocks.len() + 1)?;
    let mut start = 0u64;
    for at in 0..blocks.len() {
        starts.push(start)?;
        start += u64::from(templates.len(&blocks[at]));
    }
    starts.push(start)?;
    Ok(starts)
}

/// The plan of a certificate.
pub(crate) fn plan_of(alloc: Global, outline: Outline, cert: Cert) -> Result<Plan, Memory>
    requires { (1 ≤ outline.order) × (outline.order ≤ TOP_ORDER) }
    ensures outline { IfOk result (λ plan. plan.outline ≡ outline) }
    ensures cert { IfOk result (λ plan. plan.cert ≡ cert) }
    ensures plan { IfOk result IsPlan }
{
    let templates = at_order(alloc, outline.order)?;
    let starts = starts_of(alloc, &outline, &templates, cert.blocks().as_slice())?;
    Ok(Plan {
        outline,
        cert,
        templates,
        starts,
    })
}

/// How many positions the first operand has, if the operator has a second one; else at most so many.
fn first_len(op: &Op, shares: u32) -> u32
    ensures { result ≡ front_len shares op.now }
{
    match op {
        Op::PubAdd { .. } | Op::PubMul { .. } => 1,
        _ => shares,
    }
}

impl Plan {
    /// How many instructions stand before this block, or behind the last.
    fn start(&self, block: usize) -> u64
        requires plan { IsPlan self.now }
        requires there { block ≤ length self.now.cert.blocks }
        ensures value { result ≡ laid_len (outlined self.now.outline) self.now.templates self.now.cert.blocks block }
        ensures small { result ≤ 2 ^ 56 }
    {
        let _blocks = self.cert.blocks().len();
        self.starts[block]
    }

    /// The position of the first instruction of this block.
    fn base(&self, block: usize) -> u64
        requires plan { IsPlan self.now }
        requires there { block ≤ length self.now.cert.blocks }
        ensures value { result ≡ first_position (outlined self.now.outline) + laid_len (outlined self.now.outline) self.now.templates self.now.cert.blocks block }
        ensures small { result ≤ 2 ^ 57 }
    {
        self.outline.first_instr() + self.start(block)
    }

    /// The position of share `k` of a block's value, if there is such a block and it has as many.
    fn block_share(&self, block: usize, k: u32) -> Option<u64>
        requires plan { IsPlan self.now }
        requires wired { Wired (outlined self.now.outline) self.now.cert.blocks }
        ensures { result ≡ slice_get (slice_index_or (all_banks (outlined self.now.outline) self.now.templates self.now.cert.blocks) (self.now.outline.secrets + self.now.outline.publics + block) []) k }
    {
        let Some(op) = self.cert.blocks().as_slice().get(block) else {
            return None;
        };
        let Some(out) = self.templates.share_position(op, k) else {
            return None;
        };
        let own = out - operands(op, self.outline.shares());
        Some(self.base(block) + u64::from(own))
    }

    /// The position of share `k` of the value with this number, if there is such a value and it has as many.
    pub(crate) fn share(&self, number: usize, k: u32) -> Option<u64>
        requires plan { IsPlan self.now }
        requires wired { Wired (outlined self.now.outline) self.now.cert.blocks }
        ensures { result ≡ slice_get (slice_index_or (all_banks (outlined self.now.outline) self.now.templates self.now.cert.blocks) number []) k }
    {
        let shares = u64::from(self.outline.shares());
        let secrets = self.outline.secrets as usize;
        if number >= self.outline.inputs() {
            return self.block_share(number - self.outline.inputs(), k);
        }
        if number < secrets {
            if u64::from(k) < shares {
                Some(number as u64 * shares + u64::from(k))
            } else {
                None
            }
        } else if k == 0 {
            Some(self.outline.first_public() + (number - secrets) as u64)
        } else {
            None
        }
    }

    /// Position `k` of those that a block of this operator reads, if it reads as many.
    fn read(&self, block: usize, op: &Op, k: u32) -> Option<u64>
        requires plan { IsPlan self.now }
        requires wired { Wired (outlined self.now.outline) self.now.cert.blocks }
        requires op { slice_get self.now.cert.blocks block ≡ Some op.now }
        ensures { result ≡ slice_get (rule.reads (outlined self.now.outline) (all_banks (outlined self.now.outline) self.now.templates (take block self.now.cert.blocks)) op.now) k }
    {
        let len = first_len(op, self.outline.shares());
        let (first, second) = op.operands();
        if k < len {
            match first {
                Some(value) => self.share(self.outline.number_of(value), k),
                None => None,
            }
        } else {
            match second {
                Some(value) => self.share(self.outline.number_of(value), k - len),
                None => None,
            }
        }
    }

    /// Where a position of a block's template stands: a position of its own behind those of the blocks before, and one of
    /// an operand where that is.
    fn placed(&self, block: usize, op: &Op, position: u32) -> u64
        requires plan { IsPlan self.now }
        requires wired { Wired (outlined self.now.outline) self.now.cert.blocks }
        requires op { slice_get self.now.cert.blocks block ≡ Some op.now }
        ensures { result ≡ placement (rule.reads (outlined self.now.outline) (all_banks (outlined self.now.outline) self.now.templates (take block self.now.cert.blocks)) op.now)
            (first_position (outlined self.now.outline) + laid_len (outlined self.now.outline) self.now.templates self.now.cert.blocks block) position }
    {
        let reads = operands(op, self.outline.shares());
        if position >= reads {
            return self.base(block) + u64::from(position - reads);
        }
        match self.read(block, op, position) {
            Some(read) => read,
            None => unreachable!(),
        }
    }

    /// Whether a position of a block's template stands there.
    fn is_placed(&self, block: usize, op: &Op, found: u32, position: u32) -> bool
        requires plan { IsPlan self.now }
        requires wired { Wired (outlined self.now.outline) self.now.cert.blocks }
        requires op { slice_get self.now.cert.blocks block ≡ Some op.now }
        ensures { IsTrue result ↔ (found ≡ placement (rule.reads (outlined self.now.outline) (all_banks (outlined self.now.outline) self.now.templates (take block self.now.cert.blocks)) op.now)
            (first_position (outlined self.now.outline) + laid_len (outlined self.now.outline) self.now.templates self.now.cert.blocks block) position) }
    {
        let wanted = self.placed(block, op, position);
        u64::from(found) == wanted
    }

    /// Whether the instruction is this one of a block's template, as it is placed.
    fn is_instr(&self, block: usize, op: &Op, found: Instr, instr: Instr) -> bool
        requires plan { IsPlan self.now }
        requires wired { Wired (outlined self.now.outline) self.now.cert.blocks }
        requires op { slice_get self.now.cert.blocks block ≡ Some op.now }
        ensures { IsTrue result ↔ (found ≡ moved (placement (rule.reads (outlined self.now.outline) (all_banks (outlined self.now.outline) self.now.templates (take block self.now.cert.blocks)) op.now)
            (first_position (outlined self.now.outline) + laid_len (outlined self.now.outline) self.now.templates self.now.cert.blocks block)) instr) }
    {
        match instr {
            Instr::Rnd => matches!(found, Instr::Rnd),
            Instr::Const { value } => match found {
                Instr::Const { value: other } => other == value,
                _ => false,
            },
            Instr::Copy { from } => match found {
                Instr::Copy { from: place } => self.is_placed(block, op, place, from),
                _ => false,
            },
            Instr::Add { left, right } => match found {
                Instr::Add {
                    left: first,
                    right: second,
                } => {
                    self.is_placed(block, op, first, left)
                        && self.is_placed(block, op, second, right)
                }
                _ => false,
            },
            Instr::Mul { left, right } => match found {
                Instr::Mul {
                    left: first,
                    right: second,
                } => {
                    self.is_placed(block, op, first, left)
                        && self.is_placed(block, op, second, right)
                }
                _ => false,
            },
            Instr::Sq { from } => match found {
                Instr::Sq { from: place } => self.is_placed(block, op, place, from),
                _ => false,
            },
            Instr::Map { map, from } => match found {
                Instr::Map {
                    map: other,
                    from: place,
                } => other == map && self.is_placed(block, op, place, from),
                _ => false,
            },
        }
    }

    /// Whether the instruction is number `count` of those of the blocks, which falls in this block.
    pub(crate) fn is_next(&self, block: usize, count: u32, found: Instr) -> bool
        requires plan { IsPlan self.now }
        requires wired { Wired (outlined self.now.outline) self.now.cert.blocks }
        requires block { IsIn self.now block count }
        ensures { IsTrue result ↔ (slice_get (all_laid (outlined self.now.outline) self.now.templates self.now.cert.blocks) count ≡ Some found) }
    {
        let Some(op) = self.cert.blocks().as_slice().get(block) else {
            return false;
        };
        let next = (u64::from(count) - self.start(block)) as u32;
        match self.templates.instr(op, next) {
            Some(instr) => self.is_instr(block, op, found, instr),
            None => false,
        }
    }

    /// The block in which instruction number `count` falls, which isn't before this one; or behind all.
    pub(crate) fn block_at(&self, from: usize, count: u32) -> usize
        requires plan { IsPlan self.now }
        requires from { from ≤ length self.now.cert.blocks }
        requires behind { laid_len (outlined self.now.outline) self.now.templates self.now.cert.blocks from ≤ count }
        ensures { IsIn self.now result count }
    {
        let blocks = self.cert.blocks().len();
        let mut block = from;
        while block < blocks && self.start(block + 1) <= u64::from(count) {
            block += 1;
        }
        block
    }

    /// How many instructions the blocks have.
    pub(crate) fn len(&self) -> u64
        requires plan { IsPlan self.now }
        ensures { result ≡ length (all_laid (outlined self.now.outline) self.now.templates self.now.cert.blocks) }
    {
        self.start(self.cert.blocks().len())
    }
}
