ghost use Rattle.std.specs.Prelude.{◌≡◌};
ghost use Rattle.mk_rules.specs.Tiles.{number_behind};

use mk_ssa::Operand;

/// The number of a value: first the secrets, then the publics, then the blocks.
pub fn value_number(secrets: u32, publics: u32, value: Operand) -> usize
    ensures { result ≡ number_behind secrets publics value }
{
    match value {
        Operand::Secret(k) => k as usize,
        Operand::Public(k) => secrets as usize + k as usize,
        Operand::Block(k) => secrets as usize + publics as usize + k as usize,
    }
}
