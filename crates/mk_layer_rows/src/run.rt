//! Small codes that are run.

use mk_base::{Items, Memory};
use mk_code::{Code, CodeBuilder, Instr};
use mk_field::{FieldId, Gf2, Gf256};
use mk_run::{RunRefusal, encode_all, run_code, run_masked, tape_from_seed};
use std::alloc::Global;

/// The sum of two bytes at order 1.
fn sum_of_bytes(alloc: Global) -> Result<Code, Memory> {
    let mut builder = CodeBuilder::<Gf256>::new(alloc, 1, 2, 0, Items::new(alloc));
    builder.reserve(2)?;
    builder.push(Instr::Add { left: 0, right: 2 });
    builder.push(Instr::Add { left: 1, right: 3 });
    Ok(builder.finish(Items::new(alloc)))
}

/// The first partial sum of a product of two bits at order 1.
fn partial_sum(alloc: Global) -> Result<Code, Memory> {
    let mut builder = CodeBuilder::<Gf2>::new(alloc, 1, 2, 0, Items::new(alloc));
    builder.reserve(3)?;
    builder.push(Instr::Rnd);
    builder.push(Instr::Mul { left: 0, right: 3 });
    builder.push(Instr::Add { left: 4, right: 5 });
    Ok(builder.finish(Items::new(alloc)))
}

// The words 0 and 1 of ChaCha20's stream of zeros have the low bytes 76 and a0 (RFC 8439, appendix A.1).
#[test]
fn a_sum_runs_with_the_tape_of_a_seed(rt: HostRuntime) -> Result<(), RunRefusal> {
    let alloc = rt.alloc();
    let code = sum_of_bytes(alloc)?;
    let tape = tape_from_seed(alloc, FieldId::Gf256, &[0; 32], 2)?;
    assert_eq!(rt; tape.as_slice(), [0x76, 0xa0].as_slice());
    let shares = encode_all(alloc, &code, &[0x57, 0x83], tape.as_slice())?;
    assert_eq!(rt; shares.as_slice(), [0x21, 0x76, 0x23, 0xa0].as_slice());
    let trace = run_code(alloc, &code, &[], shares.as_slice(), &[])?;
    assert_eq!(rt;
        trace.as_slice(),
        [0x21, 0x76, 0x23, 0xa0, 0x02, 0xd6].as_slice()
    );
    Ok(())
}

#[test]
fn a_partial_sum_runs_with_one_tape(rt: HostRuntime) -> Result<(), RunRefusal> {
    let alloc = rt.alloc();
    let code = partial_sum(alloc)?;
    let trace = run_masked(alloc, &code, &[], &[1, 1], &[1, 0, 1])?;
    assert_eq!(rt; trace.as_slice(), [0, 1, 1, 0, 1, 0, 1].as_slice());
    Ok(())
}
