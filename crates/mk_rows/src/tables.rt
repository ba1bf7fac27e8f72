//! Tables of 256 bytes, and of fewer.

use crate::outside::CALM;
use crate::row::answered;
use mk_base::Memory;
use mk_top::Status;

#[test]
fn a_constant_is_its_value_at_0(rt: HostRuntime) -> Result<(), Memory> {
    let table = [0x35; 256];
    let given = answered(rt.alloc(), &CALM, &["table"], table.as_slice())?;
    assert!(rt; given.status == Status::Done);
    assert!(rt; given.out.taken().ends_with(b" + 0x00 * q + 0x35;\n"));
    let short = answered(rt.alloc(), &CALM, &["table"], &table[1..])?;
    assert!(rt; short.status == Status::Inputs && short.out.taken().is_empty());
    assert!(rt; short.err.taken() == b"51 length 255 256\n".as_slice());
    Ok(())
}
