//! Values that are simplified.

use mk_base::{Items, Memory};
use mk_field::FieldId;
use mk_simplify::simplify;
use mk_ssa::{Op, Operand, SsaBuilder};

#[test]
fn other_orders_stay_and_unused_values_go(rt: HostRuntime) -> Result<(), Memory> {
    let alloc = rt.alloc();
    let square = Op::PubSq {
        arg: Operand::Public(0),
    };
    let lift = |arg| Op::Lift { arg };
    let sum = |left, right| Op::Add { left, right };
    let secret = Operand::Secret(0);
    let mut builder = SsaBuilder::new(alloc, FieldId::Gf256, 1, 1, Items::new(alloc));
    builder.push(square)?;
    builder.push(lift(Operand::Block(0)))?;
    builder.push(square)?;
    builder.push(lift(Operand::Block(2)))?;
    builder.push(Op::Sq { arg: secret })?;
    builder.push(Op::Sq {
        arg: Operand::Block(4),
    })?;
    builder.push(sum(secret, Operand::Block(1)))?;
    builder.push(sum(Operand::Block(3), secret))?;
    let mut outs = Items::new(alloc);
    outs.push(Operand::Block(7))?;
    outs.push(secret)?;
    outs.push(Operand::Block(6))?;
    let s = simplify(alloc, builder.finish(outs))?;
    let lifted = Operand::Block(1);
    let values = [
        square,
        lift(Operand::Block(0)),
        sum(secret, lifted),
        sum(lifted, secret),
    ];
    assert_eq!(rt; s.values().as_slice(), values.as_slice());
    let outs = [Operand::Block(3), secret, Operand::Block(2)];
    assert_eq!(rt; s.outs().as_slice(), outs.as_slice());
    Ok(())
}
