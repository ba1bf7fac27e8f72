ghost use Rattle.std.specs.Prelude.{◌≡◌};
ghost use Rattle.mk_code.specs.Trace.{takes};

/// An instruction. Its operands are positions in the trace.
#[derive(Clone, Copy, Debug, PartialEq, Eq)]
pub enum Instr {
    /// The next random element of the tape.
    Rnd,
    /// A constant element.
    Const { value: u8 },
    /// An earlier entry again.
    Copy { from: u32 },
    /// The sum of two earlier entries.
    Add { left: u32, right: u32 },
    /// The product of two earlier entries.
    Mul { left: u32, right: u32 },
    /// The square of an earlier entry.
    Sq { from: u32 },
    /// The image of an earlier entry under the additive map of this number.
    Map { map: u32, from: u32 },
}

impl Instr {
    /// How many random elements it takes from the tape: one for `Rnd`, else none.
    pub fn randoms(self) -> u32
        ensures { result ≡ takes self }
    {
        match self {
            Instr::Rnd => 1,
            _ => 0,
        }
    }
}
