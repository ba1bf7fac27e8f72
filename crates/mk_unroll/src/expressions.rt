//! The operands that expressions give.

ghost use Rattle.std.specs.Prelude.{◌≡◌, [], map, flat_map, OnOk, IfOk, IfErr};
ghost use Rattle.mk_types.specs.Elements.{maps_of};
ghost use Rattle.mk_types.specs.Offences.{expr_offences};
ghost use Rattle.mk_types.specs.Units.{parts_units, expr_units};
ghost use Rattle.mk_unroll.specs.Counted.{counted, Halts};
ghost use Rattle.mk_unroll.specs.Joints.{joint_op};
ghost use Rattle.mk_unroll.specs.Kept.{Gives, Holds, scope_in};
ghost use Rattle.mk_unroll.specs.Unrolled.{expr_given, joined_parts};

use crate::frame::{Frame, element};
use crate::meter::Meter;
use crate::operators::{Joint, apply, constant, join, square};
use mk_ast::{Expr, SourceRefusal};
use mk_ssa::{Operand, SsaBuilder};

/// The operand that an expression gives.
#[cycle(expr)]
#[tactic(auto, using(crate::proofs::Counting::expr_walk, crate::proofs::Counting::halts_on))]
pub(crate) fn operand_of(
    frame: &Frame,
    meter: &mut Meter,
    values: &mut SsaBuilder,
    expr: &Expr,
) -> Result<Operand, SourceRefusal>
    requires typed { expr_offences (scope_in values.old.field frame.now.names frame.now.turns) expr.now ≡ [] }
    requires maps { values.old.maps ≡ maps_of frame.now.names }
    requires holds { Holds values.old frame.now.names frame.now.variables }
    ensures given { IfOk result (λ v. Gives values.old (expr_given frame.now.names frame.now.turns frame.now.variables expr.now values.old.values) values.new v) }
    ensures ok { OnOk result (meter.new ≡ counted meter.old (expr_units frame.now.names frame.now.turns expr.now)) }
    ensures halted { IfErr result (λ e. Halts e (counted meter.old (expr_units frame.now.names frame.now.turns expr.now))) }
{
    match expr {
        Expr::Lit { value, .. } => Ok(constant(values, *value)?),
        Expr::Read { from } => {
            let index = element(frame, meter, from)?;
            let number = frame.names.number(from.name.as_slice());
            Ok(frame.variables.read(number, index))
        }
        Expr::Sq { arg } => {
            let arg = operand_of(frame, meter, values, arg.get())?;
            square(meter, values, arg)
        }
        Expr::Apply { map, arg, .. } => {
            let arg = operand_of(frame, meter, values, arg.get())?;
            apply(meter, values, frame.names.map_number(map.as_slice()), arg)
        }
        Expr::Sum { parts } => join_parts(frame, meter, values, Joint::Sum, parts.as_slice()),
        Expr::Product { parts } => {
            join_parts(frame, meter, values, Joint::Product, parts.as_slice())
        }
    }
}

/// The operand that these parts give, joined from the left.
#[cycle(expr)]
#[tactic(auto, using(crate::proofs::Counting::expr_walk, crate::proofs::Counting::halts_on))]
fn join_parts(
    frame: &Frame,
    meter: &mut Meter,
    values: &mut SsaBuilder,
    joint: Joint,
    parts: &[Expr],
) -> Result<Operand, SourceRefusal>
    requires typed { flat_map (expr_offences (scope_in values.old.field frame.now.names frame.now.turns)) parts.now ≡ [] }
    requires maps { values.old.maps ≡ maps_of frame.now.names }
    requires holds { Holds values.old frame.now.names frame.now.variables }
    ensures given { IfOk result (λ v. Gives values.old (joined_parts (joint_op joint) (map (expr_given frame.now.names frame.now.turns frame.now.variables) parts.now) values.old.values) values.new v) }
    ensures ok { OnOk result (meter.new ≡ counted meter.old (parts_units (map (expr_units frame.now.names frame.now.turns) parts.now))) }
    ensures halted { IfErr result (λ e. Halts e (counted meter.old (parts_units (map (expr_units frame.now.names frame.now.turns) parts.now)))) }
{
    let Some((first, rest)) = parts.split_first() else {
        return Ok(Operand::Block(0));
    };
    let mut so_far = operand_of(frame, meter, values, first)?;
    for part in rest {
        let right = operand_of(frame, meter, values, part)?;
        so_far = join(meter, values, joint, so_far, right)?;
    }
    Ok(so_far)
}
