//! The values that operators on elements append.

ghost use Rattle.std.specs.Prelude.{◌≡◌, ◌<◌, true, false, [], ◌∷◌, length, OnOk, IfOk, IfErr};
ghost use Rattle.mk_ssa.specs.declared.Op.TheVariants.{Const};
ghost use Rattle.mk_ssa.specs.Values.{IsSharedThere};
ghost use Rattle.mk_types.specs.Offences.{is_no_bit};
ghost use Rattle.mk_types.specs.Units.{Operation};
ghost use Rattle.mk_unroll.specs.Counted.{counted, Halts};
ghost use Rattle.mk_unroll.specs.Joints.{joint_op};
ghost use Rattle.mk_unroll.specs.Kept.{IsThere, Gives};
ghost use Rattle.mk_unroll.specs.Unrolled.{square_op, map_op, appended, applied, joined, lifted_if};

use crate::meter::Meter;
use mk_ast::SourceRefusal;
use mk_base::Memory;
use mk_ssa::{Op, Operand, SsaBuilder};

/// What joins two operands.
#[derive(Clone, Copy, Debug, PartialEq, Eq)]
pub(crate) enum Joint {
    Sum,
    Product,
}

/// The operator that joins two operands, by whether each is shared: of a shared and a public one the
/// shared stands left.
fn joint_op(
    joint: Joint,
    left_is_shared: bool,
    right_is_shared: bool,
    left: Operand,
    right: Operand,
) -> Op
    ensures { result ≡ joint_op joint left_is_shared right_is_shared left right }
{
    let (shared, public) = if left_is_shared {
        (left, right)
    } else {
        (right, left)
    };
    match (joint, left_is_shared, right_is_shared) {
        (Joint::Sum, true, true) => Op::Add { left, right },
        (Joint::Sum, false, false) => Op::PubAdd { left, right },
        (Joint::Sum, _, _) => Op::AddPub {
            left: shared,
            right: public,
        },
        (Joint::Product, true, true) => Op::Mul { left, right },
        (Joint::Product, false, false) => Op::PubMul { left, right },
        (Joint::Product, _, _) => Op::Scale {
            left: shared,
            right: public,
        },
    }
}

/// The operator that squares an operand.
fn square_op(is_shared: bool, arg: Operand) -> Op
    ensures { result ≡ square_op is_shared arg }
{
    if is_shared {
        Op::Sq { arg }
    } else {
        Op::PubSq { arg }
    }
}

/// The operator that maps an operand.
fn map_op(is_shared: bool, map: u32, arg: Operand) -> Op
    ensures { result ≡ map_op is_shared map arg }
{
    if is_shared {
        Op::Map { map, arg }
    } else {
        Op::PubMap { map, arg }
    }
}

/// Joins two operands.
pub(crate) fn join(
    meter: &mut Meter,
    values: &mut SsaBuilder,
    joint: Joint,
    left: Operand,
    right: Operand,
) -> Result<Operand, SourceRefusal>
    requires left { IsThere values.old left }
    requires right { IsThere values.old right }
    ensures given { IfOk result (λ v. Gives values.old (joined (joint_op joint) left (record { operand = right; values = values.old.values })) values.new v) }
    ensures ok { OnOk result (meter.new ≡ counted meter.old (Operation ∷ [])) }
    ensures halted { IfErr result (λ e. Halts e (counted meter.old (Operation ∷ []))) }
{
    meter.operation()?;
    let left_is_shared = values.is_shared(left);
    let right_is_shared = values.is_shared(right);
    let op = joint_op(joint, left_is_shared, right_is_shared, left, right);
    Ok(values.push(op)?)
}

/// Squares an operand.
pub(crate) fn square(
    meter: &mut Meter,
    values: &mut SsaBuilder,
    arg: Operand,
) -> Result<Operand, SourceRefusal>
    requires { IsThere values.old arg }
    ensures given { IfOk result (λ v. Gives values.old (applied square_op (record { operand = arg; values = values.old.values })) values.new v) }
    ensures ok { OnOk result (meter.new ≡ counted meter.old (Operation ∷ [])) }
    ensures halted { IfErr result (λ e. Halts e (counted meter.old (Operation ∷ []))) }
{
    meter.operation()?;
    let op = square_op(values.is_shared(arg), arg);
    Ok(values.push(op)?)
}

/// Maps an operand.
pub(crate) fn apply(
    meter: &mut Meter,
    values: &mut SsaBuilder,
    map: u32,
    arg: Operand,
) -> Result<Operand, SourceRefusal>
    requires map { map < length values.old.maps }
    requires arg { IsThere values.old arg }
    ensures given { IfOk result (λ v. Gives values.old (applied (λ shared x. map_op shared map x) (record { operand = arg; values = values.old.values })) values.new v) }
    ensures ok { OnOk result (meter.new ≡ counted meter.old (Operation ∷ [])) }
    ensures halted { IfErr result (λ e. Halts e (counted meter.old (Operation ∷ []))) }
{
    meter.operation()?;
    let op = map_op(values.is_shared(arg), map, arg);
    Ok(values.push(op)?)
}

/// Appends a constant.
#[tactic(auto, using(crate::proofs::Typed::literal_fits, crate::proofs::Keeping::gives_pushed))]
pub(crate) fn constant(values: &mut SsaBuilder, value: u8) -> Result<Operand, Memory>
    requires { is_no_bit values.old.field value ≡ false }
    ensures { IfOk result (λ v. Gives values.old (appended values.old.values (Const value)) values.new v) }
{
    values.push(Op::Const { value })
}

/// Lifts a public operand where a shared one is wanted.
pub(crate) fn lift_if(
    values: &mut SsaBuilder,
    is_wanted: bool,
    arg: Operand,
) -> Result<Operand, Memory>
    requires { IsThere values.old arg }
    ensures given { IfOk result (λ v. Gives values.old (lifted_if is_wanted (record { operand = arg; values = values.old.values })) values.new v) }
    ensures shared { IfOk result (λ v. is_wanted ≡ true → IsSharedThere values.new v) }
{
    if !is_wanted || values.is_shared(arg) {
        return Ok(arg);
    }
    values.push(Op::Lift { arg })
}
