//! Texts of code over registers, as they are written and read.

use crate::bundles::read;
use mk_base::{Failed, Items, MemSink, Memory};
use mk_bundle::{BundleRefusal, to_text, write_registers};
use mk_field::FieldId;
use mk_regs::{RegCode, RegInstr};
use mk_rules::Cert;
use mk_ssa::{Op, Operand};
use std::alloc::Global;
use std::test::Fail;

/// The sum of two secrets at order 1 over four registers: shares 0 and 1 are those of the first secret.
const SUM: &str =
    "mask 2\nfield gf256\norder 1\nsecrets 2\npublics 0\nregisters 4\nblock add s0 s1\nclaim b0\ncode\nadd 0 0 2\nadd 1 1 3\nout 0 1\nend\n";

/// The code of that text.
fn sum_code(alloc: Global) -> Result<RegCode, Memory> {
    let mut instrs = Items::new(alloc);
    instrs.push(RegInstr::Add {
        to: 0,
        left: 0,
        right: 2,
    })?;
    instrs.push(RegInstr::Add {
        to: 1,
        left: 1,
        right: 3,
    })?;
    let mut outs = Items::new(alloc);
    outs.push(0)?;
    outs.push(1)?;
    let maps = Items::new(alloc);
    Ok(RegCode::new(FieldId::Gf256, 1, 2, 0, 4, maps, instrs, outs))
}

#[test]
fn a_text_over_registers_is_written(rt: HostRuntime) -> Result<(), Memory> {
    let code = sum_code(rt.alloc())?;
    let mut cert = Cert::new(rt.alloc());
    let left = Operand::Secret(0);
    let right = Operand::Secret(1);
    cert.push_block(Op::Add { left, right })?;
    cert.push_claim(Operand::Block(0))?;
    let mut whole = MemSink::new(rt.alloc(), 4096, 7, &[])?;
    assert_eq!(rt; write_registers(&mut whole, &code, &cert), Ok(()));
    assert!(rt; whole.taken() == SUM.as_bytes());

    // The third write fails, and two pieces of seven bytes came before it.
    let mut cut = MemSink::new(rt.alloc(), 4096, 7, &[3])?;
    assert_eq!(rt; write_registers(&mut cut, &code, &cert), Err(Failed));
    assert!(rt; cut.taken() == &SUM.as_bytes()[..14]);
    Ok(())
}

#[test]
fn a_text_over_registers_is_read_over_positions(rt: HostRuntime) -> Result<(), Fail> {
    let bundle = read(rt.alloc(), SUM).ok().ok_or("the text is a bundle's")?;
    let again = to_text(rt.alloc(), &bundle.code, &bundle.cert)
        .ok()
        .ok_or("there is memory")?;
    let positions =
        "mask 1\nfield gf256\norder 1\nsecrets 2\npublics 0\nblock add s0 s1\nclaim b0\ncode\nadd 0 2\nadd 1 3\nout 4 5\nend\n";
    assert!(rt; again.as_slice() == positions.as_bytes());
    Ok(())
}

#[test]
fn registers_that_hold_nothing_or_are_not_there_are_refused(rt: HostRuntime) {
    let start = "mask 2\nfield gf2\norder 1\nsecrets 1\npublics 0\nregisters 4\ncode\n";
    for (code, wanted) in [
        ("copy 2 0\nout 2 1\nend\n", None),
        ("copy 2 3\nend\n", Some(BundleRefusal::Unset { instr: 0 })),
        (
            "rnd 2\nrnd 4\nend\n",
            Some(BundleRefusal::Register { instr: 1 }),
        ),
        // A register that isn't there comes before one that holds nothing, and the earlier instruction before an out.
        (
            "add 2 3 4\nout 0 9\nend\n",
            Some(BundleRefusal::Register { instr: 0 }),
        ),
        ("out 0 2\nend\n", Some(BundleRefusal::Unset { instr: 0 })),
        // A line without form comes before both.
        (
            "copy 2 3\nout 0\nend\n",
            Some(BundleRefusal::Form { line: 9 }),
        ),
    ] {
        let mut text = String::new(rt.alloc());
        if text.push_str(start).is_err() || text.push_str(code).is_err() {
            continue;
        }
        assert_eq!(rt; read(rt.alloc(), text.as_str()).err(), wanted);
    }
}
