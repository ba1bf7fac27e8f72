//! The values that a generated source is unrolled to.

use crate::sources::typed_of;
use mk_ast::SourceRefusal;
use mk_gen::gen_text;
use mk_ssa::{Op, Operand};
use mk_unroll::unroll;

// The first turn reads x[0], y[0] and y[1], of which the outputs are still 0.
#[test]
fn one_turn_is_unrolled(rt: HostRuntime) -> Result<(), SourceRefusal> {
    let alloc = rt.alloc();
    let generated = gen_text(alloc, 1)?;
    let Ok(text) = str::from_utf8(generated.as_slice()) else {
        return Err(SourceRefusal::Memory);
    };
    let typed = typed_of(alloc, text)?;
    let values = unroll(alloc, &typed, 1)?;
    let block = Operand::Block;
    let wanted = [
        Op::Const { value: 0 },
        Op::Lift { arg: block(0) },
        Op::Add {
            left: Operand::Secret(0),
            right: block(1),
        },
        Op::Map {
            map: 0,
            arg: block(2),
        },
        Op::Mul {
            left: block(2),
            right: block(3),
        },
        Op::Sq { arg: block(1) },
        Op::Add {
            left: block(4),
            right: block(5),
        },
    ];
    assert_eq!(rt; values.values().as_slice(), wanted.as_slice());
    assert_eq!(rt; values.outs().len(), 16);
    assert_eq!(rt; values.outs().as_slice().first(), Some(&block(6)));
    Ok(())
}
