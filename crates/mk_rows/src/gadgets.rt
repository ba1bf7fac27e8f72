//! Gadgets that are judged, and what is none.

use crate::outside::CALM;
use crate::row::answered;
use mk_base::Memory;
use mk_top::Status;

#[test]
fn a_chained_refresh_is_not_shown(rt: HostRuntime) -> Result<(), Memory> {
    let text =
        b"gadget refresh\nfield gf2\norder 2\nrnd\nadd 0 3\nadd 1 3\nrnd\nadd 4 6\nadd 2 6\nout 7 5 8\nend\n";
    let given = answered(rt.alloc(), &CALM, &["gadget"], text.as_slice())?;
    assert!(rt; given.status == Status::Done);
    assert!(rt; given.out.taken() == b"not shown 4,5\nright\n".as_slice());
    let cut = answered(rt.alloc(), &CALM, &["gadget"], &text[..40])?;
    assert!(rt; cut.status == Status::Bundle && cut.out.taken().is_empty());
    assert!(rt; cut.err.taken() == b"44 gadget 5\n".as_slice());
    Ok(())
}
