ghost use Rattle.std.specs.Prelude.{◌≤◌, Some, IfOk, length};
ghost use Rattle.mk_rules.specs.declared.TheConstants.{MOST_BLOCKS, MOST_CLAIMS};
ghost use Rattle.mk_bundle.specs.declared.TheConstants.{TEXT_TOP_ORDER};
ghost use Rattle.mk_bundle.specs.Pairs.{IsTextOf};

use crate::write::write_bundle;
use mk_base::{Bytes, Failed, Items, Memory, Sink};
use mk_code::Code;
use mk_rules::Cert;
use std::alloc::Global;

/// A sink that keeps what it takes, and fails where memory is wanted and not found.
#[derive(Drop)]
struct Kept {
    bytes: Vec<u8>,
    faults: u64,
}

impl Sink for Kept {
    ghost taken = { λ s. Some s.bytes.items };

    ghost faults = { λ s. s.faults };

    fn write(&mut self, piece: &[u8]) -> Result<usize, Failed> {
        if self.bytes.extend_from_slice(piece).is_err() {
            self.faults = self.faults.saturating_add(1);
            return Err(Failed);
        }
        Ok(piece.len())
    }
}

/// The bundle text of a code over positions and its certificate, which has version 1. The limits are those of the text
/// that the code and the certificate don't keep by themselves.
pub fn to_text(alloc: Global, code: &Code, cert: &Cert) -> Result<Bytes, Memory>
    requires order { code.now.order ≤ TEXT_TOP_ORDER }
    requires blocks { length cert.now.blocks ≤ MOST_BLOCKS }
    requires claims { length cert.now.claims ≤ MOST_CLAIMS }
    ensures { IfOk result (λ bytes. IsTextOf bytes code.now cert.now) }
{
    let mut kept = Kept {
        bytes: Vec::new(alloc),
        faults: 0,
    };
    if write_bundle(&mut kept, code, cert).is_err() {
        return Err(Memory);
    }
    Items::try_from_vec(kept.bytes)
}
