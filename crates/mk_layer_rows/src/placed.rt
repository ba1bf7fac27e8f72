//! Where refreshes are placed, among values that are not simplified.

use mk_base::{Items, Memory};
use mk_field::FieldId;
use mk_place::place;
use mk_ssa::{Op, Operand, Ssa, SsaBuilder};
use std::alloc::Global;

/// Sums, products and squares, over two secrets.
fn values_of(alloc: Global, ops: &[Op]) -> Result<Ssa, Memory> {
    let mut builder = SsaBuilder::new(alloc, FieldId::Gf2, 2, 0, Items::new(alloc));
    for op in ops {
        let there = match *op {
            Op::Add { left, right } | Op::Mul { left, right } => {
                builder.is_shared(left) && builder.is_shared(right)
            }
            Op::Sq { arg } => builder.is_shared(arg),
            _ => false,
        };
        if !there {
            return Err(Memory);
        }
        builder.push(*op)?;
    }
    Ok(builder.finish(Items::new(alloc)))
}

#[test]
fn refreshes_stand_where_a_use_needs_one(rt: HostRuntime) -> Result<(), Memory> {
    let alloc = rt.alloc();
    let (s0, s1) = (Operand::Secret(0), Operand::Secret(1));
    let (b0, b1, b2) = (Operand::Block(0), Operand::Block(1), Operand::Block(2));
    let add = |left, right| Op::Add { left, right };
    let mul = |left, right| Op::Mul { left, right };
    let sq = |arg| Op::Sq { arg };
    let refresh = |arg| Op::Refresh { arg };
    let rows: [(&[Op], &[Op]); 4] = [
        // A secret that needs two refreshes.
        (
            &[mul(s0, s0), mul(s0, s0)],
            &[refresh(s0), mul(b0, s0), refresh(s0), mul(b2, s0)],
        ),
        // Two linear chains that meet.
        (
            &[sq(s0), sq(s0), mul(b0, b1)],
            &[refresh(s0), sq(b0), sq(s0), mul(b1, b2)],
        ),
        // Both operands of a sum bring one place.
        (&[add(s0, s0), mul(b0, s1)], &[add(s0, s0), mul(b0, s1)]),
        // A refreshed use frees an earlier one.
        (
            &[sq(s0), sq(s0), mul(b1, s0), mul(b1, b0)],
            &[sq(s0), refresh(s0), sq(b1), mul(b2, s0), mul(b2, b0)],
        ),
    ];
    for (ops, wanted) in rows {
        let values = values_of(alloc, ops)?;
        let cert = place(alloc, &values)?;
        assert_eq!(rt; cert.blocks().as_slice(), wanted);
    }
    Ok(())
}
