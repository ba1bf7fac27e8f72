//! The gadgets of operators with three shares, written out.

use crate::sources::bundle_of;
use mk_ast::SourceRefusal;
use mk_code::Instr;

/// The sum of two entries.
fn add(left: u32, right: u32) -> Instr {
    Instr::Add { left, right }
}

/// Their product.
fn mul(left: u32, right: u32) -> Instr {
    Instr::Mul { left, right }
}

/// An entry again.
fn copy(from: u32) -> Instr {
    Instr::Copy { from }
}

/// Its square.
fn sq(from: u32) -> Instr {
    Instr::Sq { from }
}

/// Its image under a map.
fn map(map: u32, from: u32) -> Instr {
    Instr::Map { map, from }
}

#[test]
fn each_linear_operator_has_its_gadget(rt: HostRuntime) -> Result<(), SourceRefusal> {
    let rows: [(&str, &[Instr], &[u32]); 6] = [
        (
            "field gf256; secret a; secret b; output y; y = a + b;",
            &[add(0, 3), add(1, 4), add(2, 5)],
            &[6, 7, 8],
        ),
        (
            "field gf256; secret a; public p; output y; y = a + p;",
            &[add(0, 3), copy(1), copy(2)],
            &[4, 5, 6],
        ),
        (
            "field gf256; secret a; public p; output y; y = a * p;",
            &[mul(0, 3), mul(1, 3), mul(2, 3)],
            &[4, 5, 6],
        ),
        (
            "field gf256; secret a; output y; y = sq(a);",
            &[sq(0), sq(1), sq(2)],
            &[3, 4, 5],
        ),
        (
            "field gf256; map m = 0x01, 0x02, 0x04, 0x08, 0x10, 0x20, 0x40, 0x80; map n = 0x01, 0x04, 0x10, 0x40, 0x1b, 0x6c, 0xab, 0x9a; secret a; output y; y = n(a);",
            &[map(1, 0), map(1, 1), map(1, 2)],
            &[3, 4, 5],
        ),
        (
            "field gf256; public p; output y; y = p;",
            &[
                copy(0),
                Instr::Const { value: 0 },
                Instr::Const { value: 0 },
            ],
            &[1, 2, 3],
        ),
    ];
    for (text, instrs, outs) in rows {
        let bundle = bundle_of(rt.alloc(), text)?;
        assert_eq!(rt; bundle.code.instrs().as_slice(), instrs);
        assert_eq!(rt; bundle.code.outs().as_slice(), outs);
    }
    Ok(())
}

/// A refresh of a bit, whose shares are 7, 10 and 11, and its product with the bit.
#[test]
fn a_refresh_and_a_product_have_their_gadgets(rt: HostRuntime) -> Result<(), SourceRefusal> {
    let instrs = [
        Instr::Rnd,
        add(0, 3),
        add(1, 3),
        Instr::Rnd,
        add(4, 6),
        add(2, 6),
        Instr::Rnd,
        add(5, 9),
        add(8, 9),
        Instr::Rnd,
        mul(7, 1),
        add(12, 13),
        mul(10, 0),
        add(14, 15),
        Instr::Rnd,
        mul(7, 2),
        add(17, 18),
        mul(11, 0),
        add(19, 20),
        Instr::Rnd,
        mul(10, 2),
        add(22, 23),
        mul(11, 1),
        add(24, 25),
        mul(7, 0),
        add(27, 12),
        add(28, 17),
        mul(10, 1),
        add(30, 16),
        add(31, 22),
        mul(11, 2),
        add(33, 21),
        add(34, 26),
    ];
    let bundle = bundle_of(rt.alloc(), "field gf2; secret a; output y; y = a * a;")?;
    assert_eq!(rt; bundle.code.instrs().as_slice(), instrs.as_slice());
    assert_eq!(rt; bundle.code.outs().as_slice(), [29, 32, 35].as_slice());
    Ok(())
}
