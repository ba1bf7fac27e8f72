ghost use Rattle.std.specs.Prelude.{◌≡◌};

/// What a user's gadget stands for.
#[derive(Clone, Copy, Debug, PartialEq, Eq)]
pub enum GadgetKind {
    /// The product of two shared values.
    Mul,
    /// A shared value in other shares.
    Refresh,
}

impl GadgetKind {
    ghost use Rattle.mk_pad.specs.Form.{operands};

    /// How many shared operands it has.
    pub fn operands(self) -> u32
        ensures { result ≡ operands self }
    {
        match self {
            GadgetKind::Mul => 2,
            GadgetKind::Refresh => 1,
        }
    }
}
