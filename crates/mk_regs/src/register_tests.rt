//! Small codes over registers and over positions.

use crate::{RegCode, RegInstr, RegRefusal, Renamer, allocate, rename_back, width};
use mk_base::{Items, Memory};
use mk_code::{Code, CodeBuilder, Instr};
use mk_field::{FieldId, Gf2, Gf256};
use std::alloc::Global;

/// The sum of two bytes at order 1.
fn sum_code(alloc: Global) -> Result<Code, Memory> {
    let mut builder = CodeBuilder::<Gf256>::new(alloc, 1, 2, 0, Items::new(alloc));
    builder.reserve(2)?;
    builder.push(Instr::Add { left: 0, right: 2 });
    builder.push(Instr::Add { left: 1, right: 3 });
    let mut outs = Items::new(alloc);
    outs.push(4)?;
    outs.push(5)?;
    Ok(builder.finish(outs))
}

/// A bit at order 1 in other shares, and the product of both.
fn square_code(alloc: Global) -> Result<Code, Memory> {
    let mut builder = CodeBuilder::<Gf2>::new(alloc, 1, 1, 0, Items::new(alloc));
    builder.reserve(12)?;
    builder.push(Instr::Rnd);
    builder.push(Instr::Add { left: 0, right: 2 });
    builder.push(Instr::Add { left: 1, right: 2 });
    builder.push(Instr::Rnd);
    builder.push(Instr::Mul { left: 3, right: 1 });
    builder.push(Instr::Add { left: 5, right: 6 });
    builder.push(Instr::Mul { left: 4, right: 0 });
    builder.push(Instr::Add { left: 7, right: 8 });
    builder.push(Instr::Mul { left: 3, right: 0 });
    builder.push(Instr::Add { left: 10, right: 5 });
    builder.push(Instr::Mul { left: 4, right: 1 });
    builder.push(Instr::Add { left: 12, right: 9 });
    let mut outs = Items::new(alloc);
    outs.push(11)?;
    outs.push(13)?;
    Ok(builder.finish(outs))
}

/// A random element that nothing reads, and the sum of the shares of a byte beside share 1 as outs. Nothing reads the
/// public input.
fn unread_code(alloc: Global) -> Result<Code, Memory> {
    let mut builder = CodeBuilder::<Gf256>::new(alloc, 1, 1, 1, Items::new(alloc));
    builder.reserve(2)?;
    builder.push(Instr::Rnd);
    builder.push(Instr::Add { left: 0, right: 1 });
    let mut outs = Items::new(alloc);
    outs.push(4)?;
    outs.push(1)?;
    Ok(builder.finish(outs))
}

/// The shares of a byte, twice, with no instruction.
fn twice_code(alloc: Global) -> Result<Code, Memory> {
    let builder = CodeBuilder::<Gf256>::new(alloc, 1, 1, 0, Items::new(alloc));
    let mut outs = Items::new(alloc);
    outs.push(0)?;
    outs.push(1)?;
    outs.push(0)?;
    outs.push(1)?;
    Ok(builder.finish(outs))
}

/// No inputs and no instruction.
fn empty_code(alloc: Global) -> Result<Code, Memory> {
    let builder = CodeBuilder::<Gf2>::new(alloc, 1, 0, 0, Items::new(alloc));
    Ok(builder.finish(Items::new(alloc)))
}

/// Whether these are the registers, instructions and outs that are allocated for the code, its width is their
/// number, and they are renamed to the code.
fn is_allocated(
    alloc: Global,
    code: &Code,
    registers: u32,
    instrs: &[RegInstr],
    outs: &[u32],
) -> Result<bool, RegRefusal> {
    let allocated = allocate(alloc, code)?;
    let renamed = rename_back(alloc, &allocated)?;
    Ok(
        allocated.registers() == registers
            && width(alloc, code)? == registers
            && allocated.instrs().as_slice() == instrs
            && allocated.outs().as_slice() == outs
            && allocated.randoms() == code.randoms()
            && allocated.trace_len() == code.trace_len()
            && renamed.instrs().as_slice() == code.instrs().as_slice()
            && renamed.outs().as_slice() == code.outs().as_slice(),
    )
}

#[test]
fn allocates_a_sum(rt: HostRuntime) -> Result<(), RegRefusal> {
    let alloc = rt.alloc();
    let sum = [
        RegInstr::Add {
            to: 0,
            left: 0,
            right: 2,
        },
        RegInstr::Add {
            to: 1,
            left: 1,
            right: 3,
        },
    ];
    assert_eq!(rt;
        is_allocated(alloc, &sum_code(alloc)?, 4, &sum, &[0, 1])?,
        true
    );
    Ok(())
}

#[test]
fn allocates_a_square(rt: HostRuntime) -> Result<(), RegRefusal> {
    let alloc = rt.alloc();
    let square = [
        RegInstr::Rnd { to: 2 },
        RegInstr::Add {
            to: 3,
            left: 0,
            right: 2,
        },
        RegInstr::Add {
            to: 2,
            left: 1,
            right: 2,
        },
        RegInstr::Rnd { to: 4 },
        RegInstr::Mul {
            to: 5,
            left: 3,
            right: 1,
        },
        RegInstr::Add {
            to: 5,
            left: 4,
            right: 5,
        },
        RegInstr::Mul {
            to: 6,
            left: 2,
            right: 0,
        },
        RegInstr::Add {
            to: 5,
            left: 5,
            right: 6,
        },
        RegInstr::Mul {
            to: 0,
            left: 3,
            right: 0,
        },
        RegInstr::Add {
            to: 0,
            left: 0,
            right: 4,
        },
        RegInstr::Mul {
            to: 1,
            left: 2,
            right: 1,
        },
        RegInstr::Add {
            to: 1,
            left: 1,
            right: 5,
        },
    ];
    assert_eq!(rt;
        is_allocated(alloc, &square_code(alloc)?, 7, &square, &[0, 1])?,
        true
    );
    Ok(())
}

#[test]
fn allocates_where_nothing_is_read(rt: HostRuntime) -> Result<(), RegRefusal> {
    let alloc = rt.alloc();
    let unread = [
        RegInstr::Rnd { to: 2 },
        RegInstr::Add {
            to: 0,
            left: 0,
            right: 1,
        },
    ];
    assert_eq!(rt;
        is_allocated(alloc, &unread_code(alloc)?, 3, &unread, &[0, 1])?,
        true
    );
    assert_eq!(rt;
        is_allocated(alloc, &twice_code(alloc)?, 2, &[], &[0, 1, 0, 1])?,
        true
    );
    assert_eq!(rt;
        is_allocated(alloc, &empty_code(alloc)?, 0, &[], &[])?,
        true
    );
    Ok(())
}

#[test]
fn renames_step_by_step(rt: HostRuntime) -> Result<(), Memory> {
    let mut renamer = Renamer::new(rt.alloc(), 4, 6)?;
    let steps = [
        (RegInstr::Rnd { to: 4 }, Ok(Instr::Rnd)),
        (
            RegInstr::Add {
                to: 0,
                left: 0,
                right: 6,
            },
            Err(RegRefusal::Register { instr: 1 }),
        ),
        (
            RegInstr::Add {
                to: 6,
                left: 0,
                right: 5,
            },
            Err(RegRefusal::Register { instr: 1 }),
        ),
        (
            RegInstr::Add {
                to: 0,
                left: 0,
                right: 5,
            },
            Err(RegRefusal::Unset { instr: 1 }),
        ),
        (
            RegInstr::Mul {
                to: 0,
                left: 0,
                right: 4,
            },
            Ok(Instr::Mul { left: 0, right: 4 }),
        ),
        (
            RegInstr::Copy { to: 5, from: 0 },
            Ok(Instr::Copy { from: 5 }),
        ),
    ];
    for (step, wanted) in steps {
        assert_eq!(rt; renamer.step(&step), wanted);
    }
    assert_eq!(rt; renamer.out(5), Ok(6));
    assert_eq!(rt; renamer.out(6), Err(RegRefusal::Register { instr: 3 }));
    Ok(())
}

/// Why register code isn't renamed that has three registers, two of which hold the shares of a bit on entry: its one
/// instruction writes the sum of two registers to a third, and it has two outs.
fn refused_sum(
    alloc: Global,
    (to, left, right): (u32, u32, u32),
    (first, second): (u32, u32),
) -> Result<Option<RegRefusal>, Memory> {
    let mut instrs = Items::new(alloc);
    instrs.push(RegInstr::Add { to, left, right })?;
    let mut outs = Items::new(alloc);
    outs.push(first)?;
    outs.push(second)?;
    let code = RegCode::new(FieldId::Gf2, 1, 1, 0, 3, Items::new(alloc), instrs, outs);
    Ok(rename_back(alloc, &code).err())
}

#[test]
fn refuses_at_instructions_and_outs(rt: HostRuntime) -> Result<(), Memory> {
    let rows = [
        ((0, 0, 1), (0, 1), None),
        // Register 2 holds nothing, and there is no register 3.
        ((0, 0, 2), (0, 1), Some(RegRefusal::Unset { instr: 0 })),
        ((3, 0, 1), (0, 1), Some(RegRefusal::Register { instr: 0 })),
        // A register that isn't there comes before one that holds nothing.
        ((3, 2, 0), (0, 1), Some(RegRefusal::Register { instr: 0 })),
        ((0, 2, 3), (0, 1), Some(RegRefusal::Register { instr: 0 })),
        // Instructions come before outs.
        ((0, 0, 2), (3, 3), Some(RegRefusal::Unset { instr: 0 })),
        ((0, 0, 1), (0, 2), Some(RegRefusal::Unset { instr: 1 })),
        ((0, 0, 1), (0, 3), Some(RegRefusal::Register { instr: 1 })),
        // Outs are looked at one by one.
        ((0, 0, 1), (2, 3), Some(RegRefusal::Unset { instr: 1 })),
        ((0, 0, 1), (3, 2), Some(RegRefusal::Register { instr: 1 })),
        // What the instruction wrote is there.
        ((2, 0, 1), (2, 0), None),
    ];
    for (sum, outs, wanted) in rows {
        assert_eq!(rt; refused_sum(rt.alloc(), sum, outs)?, wanted);
    }
    Ok(())
}
