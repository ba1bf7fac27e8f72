ghost use Rattle.std.specs.Prelude.{◌≡◌, ◌≤◌, ℕ, Err, length, IfOk};
ghost use Rattle.mk_lib.specs.declared.TheConstants.{MOST_GADGET_BYTES};
ghost use Rattle.mk_lib.specs.declared.refusal.LibRefusal.TheVariants as refusals;
ghost use Rattle.mk_lines.specs.Lines.{NamesFirst};
ghost use Rattle.mk_lib.specs.Texts.{IsTextOf, IsGadgetText};

use crate::draft::{empty_draft, gadget_of, is_ended, read_line};
use crate::refusal::LibRefusal;
use mk_lines::{LineRefusal, cut};
use mk_pad::Gadget;
use std::alloc::Global;

/// The gadget whose text this is.
pub fn read_gadget(alloc: Global, text: &[u8]) -> Result<Gadget, LibRefusal>
    requires { length text.now ≤ MOST_GADGET_BYTES }
    // What is read has this text.
    ensures ok { IfOk result (λ gadget. IsTextOf text.now gadget) }

    // What is refused with a line is the text of no gadget.
    ensures only { (line : ℕ) → result ≡ Err (refusals.Gadget line) → IsGadgetText text.now → ⊥ }

    // The line is the first behind which no gadget text goes on.
    ensures first { (line : ℕ) → result ≡ Err (refusals.Gadget line) → NamesFirst IsGadgetText line text.now }
{
    let mut draft = empty_draft(alloc);
    let mut rest = text;
    let mut number: u32 = 1;
    while let Some((line, behind)) = cut(rest) {
        match read_line(alloc, &mut draft, line) {
            Ok(()) => {}
            Err(LineRefusal::Form) => return Err(LibRefusal::Gadget { line: number }),
            Err(LineRefusal::Memory) => return Err(LibRefusal::Memory),
        }
        rest = behind;
        number += 1;
    }
    if !rest.is_empty() {
        return Err(LibRefusal::Gadget { line: number });
    }
    if !is_ended(&draft) {
        return Err(LibRefusal::Gadget { line: number });
    }
    Ok(gadget_of(draft))
}
