ghost use Rattle.std.specs.Prelude.{◌≡◌, ◌≤◌, ◌+◌, length};
ghost use Rattle.mk_base.specs.declared.TheConstants.{TOP_ORDER};
ghost use Rattle.mk_code.specs.Trace.{randoms};
ghost use Rattle.mk_gadget.specs.Template.{built_in};

use mk_gadget::cost_law;
use mk_ssa::Op;

/// What a block costs: its instructions, and how many random elements they take.
#[derive(Clone, Copy, Debug, PartialEq, Eq)]
pub struct Price {
    pub instrs: u32,
    pub randoms: u32,
}

/// What a block of this operator costs at an order.
pub fn cost(op: &Op, order: u8) -> Price
    requires order { (1 ≤ order) × (order ≤ TOP_ORDER) }
    ensures instrs { result.instrs ≡ length (built_in (order + 1) op.now).instrs }
    ensures randoms { result.randoms ≡ randoms (built_in (order + 1) op.now).instrs }
{
    cost_law();
    let shares = u32::from(order) + 1;
    let pairs = shares * (shares - 1) / 2;
    match op {
        Op::Mul { .. } => Price {
            instrs: shares * shares + 5 * pairs,
            randoms: pairs,
        },
        Op::Refresh { .. } => Price {
            instrs: 3 * pairs,
            randoms: pairs,
        },
        _ => Price {
            instrs: if op.is_public() { 1 } else { shares },
            randoms: 0,
        },
    }
}
