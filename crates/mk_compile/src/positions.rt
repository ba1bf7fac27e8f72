//! Where values stand in a code in the making.

ghost use Rattle.std.specs.Prelude.{◌≡◌, ◌≤◌, ◌<◌, ◌+◌, ◌*◌, ◌^◌, [], ◌∷◌, length};
ghost use Rattle.mk_base.specs.declared.TheConstants.{TOP_ORDER};
ghost use Rattle.mk_code.specs.declared.TheConstants.{MOST_INPUTS};
ghost use Rattle.mk_compile.specs.Positions.{bank_of, IsSharedAt, IsPublicAt};

use mk_share::Bank;
use mk_ssa::Operand;

/// Where the value of a block stands: the positions of its shares, or its one position where it is public.
#[derive(Clone, Copy, Debug)]
pub(crate) enum Position<const N: usize> {
    Shared(Bank<N>),
    Public(u32),
}

/// How many secrets and public inputs there are.
#[derive(Clone, Copy, Debug)]
pub(crate) struct Inputs {
    pub(crate) secrets: u32,
    pub(crate) publics: u32,
}

/// The positions of the shares of a shared value, among inputs and the values of blocks.
pub(crate) fn shared_bank<const N: usize>(
    inputs: Inputs,
    blocks: &[Position<N>],
    value: Operand,
) -> Bank<N>
    requires shares { N ≤ TOP_ORDER + 1 }
    requires few { inputs.secrets ≤ MOST_INPUTS }
    requires there { IsSharedAt inputs.secrets blocks.now value }
    ensures bank { result.regs ≡ bank_of inputs.secrets blocks.now value }
    ensures count { length result.regs ≡ N }
{
    let bank = match value {
        // The shares of the secrets stand in order before all else.
        Operand::Secret(k) => Bank::<N>::from_first(k * N as u32),
        Operand::Public(_) => unreachable!(),
        Operand::Block(k) => match blocks[k as usize] {
            Position::Shared(bank) => bank,
            Position::Public(_) => unreachable!(),
        },
    };
    bank.law();
    bank
}

/// The position of a public value, among inputs and the values of blocks.
pub(crate) fn public_position<const N: usize>(
    inputs: Inputs,
    blocks: &[Position<N>],
    value: Operand,
) -> u32
    requires shares { N ≤ TOP_ORDER + 1 }
    requires few { inputs.secrets ≤ MOST_INPUTS }
    requires few_publics { inputs.publics ≤ MOST_INPUTS }
    requires there { IsPublicAt inputs.publics blocks.now value }
    ensures { result ∷ [] ≡ bank_of inputs.secrets blocks.now value }
{
    match value {
        Operand::Secret(_) => unreachable!(),
        Operand::Public(k) => inputs.secrets * N as u32 + k,
        Operand::Block(k) => match blocks[k as usize] {
            Position::Shared(_) => unreachable!(),
            Position::Public(position) => position,
        },
    }
}
