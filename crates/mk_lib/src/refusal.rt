use mk_base::{Items, Memory};
use mk_pad::Gadget;
use thiserror::Error;

/// A list of gadgets.
pub type GadgetList = Items<Gadget>;

/// Why no gadget is read from a text.
#[derive(Clone, Copy, Debug, PartialEq, Eq, Error)]
pub enum LibRefusal {
    /// No gadget has this text, and none has a text that begins with the lines up to this one,
    /// counted from 1.
    #[error("line {line} doesn't go on with a gadget text")]
    Gadget { line: u32 },
    /// Memory was wanted and not found.
    #[error("out of memory")]
    Memory,
}

impl From<Memory> for LibRefusal {
    ghost use Rattle.std.specs.Prelude.{◌≡◌};
    ghost use Rattle.mk_lib.specs.declared.refusal.LibRefusal.TheVariants.{Memory};

    ghost from_gives = { λ _ e. e ≡ Memory };

    fn from(_memory: Memory) -> LibRefusal {
        LibRefusal::Memory
    }
}
