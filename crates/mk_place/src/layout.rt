//! The certificate of values with refreshes for some uses.

ghost use Rattle.std.specs.Prelude.{◌≡◌, ◌+◌, ◌∷◌, ◌++◌, [], length, map, All, slice_get, IfOk, OnOk, IfSome};
ghost use Rattle.mk_ssa.specs.Values.{IsValues};
ghost use Rattle.mk_ssa.specs.Operators.{with_operands_by};
ghost use Rattle.mk_place.specs.Layout.{laid_out as laid_out_by};
ghost use Rattle.mk_place.specs.Marking.{AreMarks, all_marks};
ghost use Rattle.mk_place.specs.Laying.{named, HasName, HasNames, argument, refreshes, pick, with_refreshes, own_of, IsLaid};

use crate::marking::Fresh;
use mk_base::{Items, Memory};
use mk_rules::Cert;
use mk_ssa::{Op, Operand, Ssa};
use std::alloc::Global;

/// An operand by its new number, that of the block of each value so far.
fn renamed(names: &[u32], operand: Operand) -> Operand
    requires { HasName names.now operand }
    ensures { result ≡ named names.now operand }
{
    match operand {
        Operand::Block(k) => Operand::Block(names[k as usize]),
        Operand::Secret(_) | Operand::Public(_) => operand,
    }
}

/// Appends a refresh of a shared operand if it is to have one, and answers what stands for the operand.
fn refreshed(
    cert: &mut Cert,
    names: &[u32],
    operand: Option<Operand>,
    fresh: bool,
) -> Result<Operand, Memory>
    requires { IfSome operand (HasName names.now) }
    ensures argument { IfOk result (λ v. v ≡ argument names.now (length cert.old.blocks) operand fresh) }
    ensures blocks { OnOk result (cert.new.blocks ≡ cert.old.blocks ++ refreshes names.now operand fresh) }
    ensures claims { OnOk result (cert.new.claims ≡ cert.old.claims) }
{
    match operand {
        Some(v) => {
            let arg = renamed(names, v);
            if fresh {
                let block = cert.blocks().len() as u32;
                cert.push_block(Op::Refresh { arg })?;
                Ok(Operand::Block(block))
            } else {
                Ok(arg)
            }
        }
        None => Ok(Operand::Secret(0)),
    }
}

/// An operator with these shared operands, and its public operands by their new numbers.
fn fitted(names: &[u32], op: Op, first: Operand, second: Operand) -> Op
    requires { HasNames names.now op }
    ensures { result ≡ with_operands_by (pick first second) (named names.now) op }
{
    op.with_operands(|operand| renamed(names, operand))
        .with_shared_operands(first, second)
}

/// Appends the refreshes for the next value, and then itself.
fn push(cert: &mut Cert, names: &mut Items<u32>, op: Op, fresh: Fresh) -> Result<(), Memory>
    requires { HasNames names.old op }
    ensures blocks { OnOk result (cert.new.blocks ≡ with_refreshes names.old cert.old.blocks op fresh ++ own_of names.old cert.old.blocks op fresh ∷ []) }
    ensures claims { OnOk result (cert.new.claims ≡ cert.old.claims) }
    ensures names { OnOk result (names.new ≡ names.old ++ length (with_refreshes names.old cert.old.blocks op fresh) ∷ []) }
{
    let (left, right) = op.shared_operands();
    let first = refreshed(cert, names.as_slice(), left, fresh.first)?;
    let second = refreshed(cert, names.as_slice(), right, fresh.second)?;
    let own = cert.blocks().len() as u32;
    cert.push_block(fitted(names.as_slice(), op, first, second))?;
    names.push(own)
}

/// The blocks of the values, of which these uses go through refreshes; and the
/// numbers of the values' own blocks.
fn lay_values(alloc: Global, s: &Ssa, fresh: &[Fresh]) -> Result<(Cert, Items<u32>), Memory>
    requires { AreMarks s.now fresh.now }
    ensures laid { IfOk result (λ laid. IsLaid (all_marks s.now) s.now.values (length s.now.values) laid.0.blocks laid.1) }
    ensures claims { IfOk result (λ laid. laid.0.claims ≡ []) }
    ensures fits { IsValues s.now }
{
    let mut cert = Cert::new(alloc);
    let mut names = Items::new(alloc);
    let len = s.values().len();
    for at in 0..len {
        let op = s.values().as_slice()[at];
        push(&mut cert, &mut names, op, fresh[at])?;
    }
    Ok((cert, names))
}

/// Claims the outputs by their new numbers.
fn claim_outs(cert: &mut Cert, names: &[u32], s: &Ssa) -> Result<(), Memory>
    requires { All (HasName names.now) s.now.outs }
    ensures blocks { OnOk result (cert.new.blocks ≡ cert.old.blocks) }
    ensures claims { OnOk result (cert.new.claims ≡ cert.old.claims ++ map (named names.now) s.now.outs) }
{
    for out in s.outs().as_slice() {
        cert.push_claim(renamed(names, *out))?;
    }
    Ok(())
}

/// The certificate of values, of which these uses go through refreshes.
pub(crate) fn laid_out(alloc: Global, s: &Ssa, fresh: &[Fresh]) -> Result<Cert, Memory>
    requires { AreMarks s.now fresh.now }
    ensures laid { IfOk result (λ cert. cert ≡ laid_out_by (all_marks s.now) s.now) }
    ensures fits { IsValues s.now }
{
    let (mut cert, names) = lay_values(alloc, s, fresh)?;
    claim_outs(&mut cert, names.as_slice(), s)?;
    Ok(cert)
}
