//! Whole runs, by a loop over the steps of a machine.
ghost use Rattle.std.specs.Prelude.{◌≡◌, ◌+◌, ◌*◌, IfOk, length};
ghost use Rattle.mk_field.specs.Field.{size};
ghost use Rattle.mk_code.specs.Counting.{Elements};
ghost use Rattle.mk_code.specs.Trace.{randoms, trace};

use crate::{Code, CodeBuilder, Instr, Machine, Used, run_laws};
use mk_base::{Items, Memory};
use mk_field::{AddMap, Field, FieldId, Gf2, Gf256};
use std::alloc::Global;

/// A whole run of a code.
fn run_all<'a>(
    alloc: Global,
    code: &'a Code,
    publics: &[u8],
    shares: &[u8],
    tape: &[u8],
) -> Result<Machine<'a>, Memory>
    requires publics { Elements (size code.now.field) code.now.publics publics.now }
    requires shares { Elements (size code.now.field) (code.now.secrets * (code.now.order + 1)) shares.now }
    requires tape { Elements (size code.now.field) (randoms code.now.instrs) tape.now }
    ensures { IfOk result (λ m. m.entries ≡ trace code.entry.now publics.now shares.now tape.now) }
{
    let mut machine = Machine::new(alloc, code, publics, shares)?;
    let mut taken = 0;
    while !machine.done() {
        let word = if taken < tape.len() { tape[taken] } else { 0 };
        if machine.step(word) == Used::Word {
            taken += 1;
        }
    }
    Ok(machine)
}

/// A code in bytes at order 1 with one instruction of each kind: two random elements, a constant and
/// the map that squares.
fn one_of_each(alloc: Global) -> Result<Code, Memory>
    ensures inputs { IfOk result (λ code. (code.field ≡ FieldId.Gf256) × (code.order ≡ 1) × (code.secrets ≡ 1) × (code.publics ≡ 1)) }
    ensures randoms { IfOk result (λ code. randoms code.instrs ≡ 2) }
{
    let mut maps = Items::new(alloc);
    maps.push(AddMap {
        images: [0x01, 0x04, 0x10, 0x40, 0x1b, 0x6c, 0xab, 0x9a],
    })?;
    let mut builder = CodeBuilder::<Gf256>::new(alloc, 1, 1, 1, maps);
    builder.reserve(9)?;
    builder.push(Instr::Rnd);
    builder.push(Instr::Const { value: 0x53 });
    builder.push(Instr::Copy { from: 3 });
    builder.push(Instr::Add { left: 0, right: 1 });
    builder.push(Instr::Mul { left: 0, right: 1 });
    builder.push(Instr::Mul { left: 0, right: 2 });
    builder.push(Instr::Sq { from: 4 });
    builder.push(Instr::Map { map: 0, from: 4 });
    builder.push(Instr::Rnd);
    Ok(builder.finish(Items::new(alloc)))
}

/// A square of a bit at order 1 that multiplies the shares of its operand with one another.
fn square_of_bit(alloc: Global) -> Result<Code, Memory>
    ensures inputs { IfOk result (λ code. (code.field ≡ FieldId.Gf2) × (code.order ≡ 1) × (code.secrets ≡ 1) × (code.publics ≡ 0)) }
    ensures randoms { IfOk result (λ code. (randoms code.instrs ≡ 1) × (length code.instrs ≡ 6)) }
{
    let mut builder = CodeBuilder::<Gf2>::new(alloc, 1, 1, 0, Items::new(alloc));
    builder.reserve(6)?;
    builder.push(Instr::Rnd);
    builder.push(Instr::Mul { left: 0, right: 1 });
    builder.push(Instr::Add { left: 2, right: 3 });
    builder.push(Instr::Sq { from: 1 });
    builder.push(Instr::Add { left: 5, right: 4 });
    builder.push(Instr::Copy { from: 6 });
    Ok(builder.finish(Items::new(alloc)))
}

#[test]
fn runs_one_of_each(rt: HostRuntime) -> Result<(), Memory> {
    run_laws();
    let alloc = rt.alloc();
    let code = one_of_each(alloc)?;
    let machine = run_all(alloc, &code, &[0x13], &[0x57, 0x83], &[0x55, 0xaa])?;
    let want = [
        0x57, 0x83, 0x13, 0x55, 0x53, 0x55, 0xd4, 0xc1, 0xfe, 0xb5, 0xb5, 0xaa,
    ];
    assert_eq!(rt; machine.trace(), want.as_slice());
    Ok(())
}

#[test]
fn runs_a_square_of_a_bit(rt: HostRuntime) -> Result<(), Memory> {
    let alloc = rt.alloc();
    let code = square_of_bit(alloc)?;
    let machine = run_all(alloc, &code, &[], &[1, 1], &[1])?;
    assert_eq!(rt; machine.trace(), [1, 1, 1, 1, 0, 1, 1, 1].as_slice());
    Ok(())
}

#[test]
fn steps_say_what_they_took(rt: HostRuntime) -> Result<(), Memory> {
    let alloc = rt.alloc();
    let code = square_of_bit(alloc)?;
    let mut machine = Machine::new(alloc, &code, &[], &[1, 0])?;
    assert_eq!(rt; machine.done(), false);
    assert_eq!(rt; machine.step(1), Used::Word);
    assert_eq!(rt; machine.step(1), Used::Nothing);
    assert_eq!(rt; machine.trace(), [1, 0, 1, 0].as_slice());
    Ok(())
}
