//! Checking a code while it comes.

use mk_base::{Items, Memory};
use mk_check::{CheckRefusal, Checker};
use mk_code::Instr;
use mk_field::FieldId;
use mk_rules::Cert;
use mk_ssa::{Op, Operand};
use std::alloc::Global;
use std::test::*;

/// The certificate of a sum of two secrets, which two outputs share.
fn sum_twice(alloc: Global) -> Result<Cert, Memory> {
    let mut cert = Cert::new(alloc);
    cert.push_block(Op::Add {
        left: Operand::Secret(0),
        right: Operand::Secret(1),
    })?;
    cert.push_claim(Operand::Block(0))?;
    cert.push_claim(Operand::Block(0))?;
    Ok(cert)
}

/// What is said of the sum with this second instruction, and its output once or twice.
fn said(alloc: Global, second: Instr, twice: bool) -> Result<(), CheckRefusal> {
    let mut checker = Checker::new(alloc, 1, 2, 0, FieldId::Gf256, 0, sum_twice(alloc)?)?;
    checker.instr(Instr::Add { left: 0, right: 2 });
    checker.instr(second);
    let mut positions = Items::new(alloc);
    positions.push(4)?;
    positions.push(5)?;
    checker.out(&positions);
    if twice {
        checker.out(&positions);
    }
    checker.finish()
}

#[test]
fn a_code_is_checked_while_it_comes(rt: HostRuntime) {
    let last = Instr::Add { left: 1, right: 3 };
    let other = Instr::Add { left: 1, right: 2 };
    for (second, twice, answer) in [
        (last, true, Ok(())),
        (other, true, Err(CheckRefusal::Tile { instr: 1 })),
        (last, false, Err(CheckRefusal::Output { index: 1 })),
    ] {
        assert_eq!(rt; said(rt.alloc(), second, twice), answer);
    }
}
