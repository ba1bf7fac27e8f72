use mk_base::Memory;

/// Why a line doesn't go on with what was read of a text.
#[derive(Clone, Copy, Debug, PartialEq, Eq)]
pub enum LineRefusal {
    /// No text of the form has this line here.
    Form,
    /// Memory was wanted and not found.
    Memory,
}

impl From<Memory> for LineRefusal {
    ghost use Rattle.std.specs.Prelude.{◌≡◌};
    ghost use Rattle.mk_lines.specs.declared.refusal.LineRefusal.TheVariants.{Memory};

    ghost from_gives = { λ _ e. e ≡ Memory };

    fn from(_memory: Memory) -> LineRefusal {
        LineRefusal::Memory
    }
}
