ghost use Rattle.std.specs.Prelude.{◌≡◌, ◌+◌, ◌≤◌, ◌<◌, ◌^◌, ℕ, List, All, length, bit_xor};
ghost use Rattle.std.specs.List.{range_with_len};
ghost use Rattle.mk_field.specs.Field.{size};
ghost use Rattle.mk_field.specs.Sharing.{IsSharing, field_sum, encoding};
ghost use Rattle.mk_share.specs.Encoding.{EncodingLaw};

use mk_field::Field;

/// The `N` shares of a value.
#[derive(Clone, Copy, Debug, PartialEq, Eq)]
pub struct Sharing<const N: usize> {
    pub parts: [u8; N],
}

/// The positions of the `N` shares of a value in a trace.
#[derive(Clone, Copy, Debug, PartialEq, Eq)]
pub struct Bank<const N: usize> {
    pub regs: [u32; N],
}

impl<const N: usize> Bank<N> {
    /// The `N` positions from `first` on.
    pub fn from_first(first: u32) -> Bank<N>
        requires { first + N ≤ 2 ^ 32 }
        ensures { result.regs ≡ range_with_len first N }
    {
        let mut regs = [first; N];
        for share in 0..N {
            regs[share] = first + share as u32;
        }
        Bank { regs }
    }

    /// There are `N` positions. It does nothing.
    pub fn law(&self)
        ensures { length self.now.regs ≡ N }
    {
        let _regs = self.regs;
    }
}

/// The encoding of a value by the N - 1 elements of the tape: these are the shares from 1 on, and
/// share 0 is the value plus their sum.
pub fn encode<F: Field, const N: usize>(value: u8, tape: &[u8]) -> Sharing<N>
    requires least { 2 ≤ N }
    requires most { N ≤ 256 }
    requires value { value < size F.ID }
    requires count { length tape.now + 1 ≡ N }
    requires elements { All (λ a. a < size F.ID) tape.now }
    ensures encoding { result.parts ≡ encoding value tape.now }
    ensures sharing { IsSharing N value result.parts }
    ensures elements { All (λ a. a < size F.ID) result.parts }
{
    let mut parts = [0; N];
    parts[0] = F::add(value, value_of(tape));
    let all = &mut parts[..];
    all[1..].copy_from_slice(tape);
    Sharing { parts }
}

/// The value of a sharing: the sum of all its shares.
pub fn decode<F: Field, const N: usize>(sharing: &Sharing<N>) -> u8
    requires least { 2 ≤ N }
    requires most { N ≤ 256 }
    requires elements { All (λ a. a < size F.ID) sharing.now.parts }
    ensures value { result ≡ field_sum sharing.now.parts }
    ensures element { result < size F.ID }
{
    value_of(&sharing.parts)
}

/// The value of some shares: their sum, which is exclusive or in both fields.
pub fn value_of(shares: &[u8]) -> u8
    ensures { result ≡ field_sum shares.now }
{
    let mut sum = 0;
    for share in shares {
        sum ^= *share;
    }
    sum
}

/// The law of an encoding: its sum is the value. It does nothing.
pub fn encoding_law()
    ensures { EncodingLaw }
{}
