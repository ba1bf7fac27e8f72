//! Worked values, with few and with many shares, over both fields.
ghost use Rattle.std.specs.Prelude.{◌≡◌, ◌+◌, ◌≤◌, ◌<◌, All, length};
ghost use Rattle.mk_base.specs.declared.TheConstants.{TOP_ORDER};
ghost use Rattle.mk_field.specs.Field.{size};

use crate::{Bank, Sharing, decode, encode, encoding_law, shares_at, with_order};
use mk_field::{Field, Gf2, Gf256};

/// The value of its encoding.
fn round_trip<F: Field, const N: usize>(value: u8, tape: &[u8]) -> u8
    requires least { 2 ≤ N }
    requires most { N ≤ 256 }
    requires value { value < size F.ID }
    requires count { length tape.now + 1 ≡ N }
    requires elements { All (λ a. a < size F.ID) tape.now }
    ensures { result ≡ value }
{
    decode::<F, N>(&encode::<F, N>(value, tape))
}

/// The number of shares and one more number.
fn shares_and<F: Field, const N: usize>(more: usize) -> usize
    requires more { more ≤ TOP_ORDER }
    requires most { N ≤ 256 }
    ensures { result ≡ N + more }
{
    N + more
}

/// How many shares a bit has at an order, and one more number.
fn bit_shares_and(order: u8, more: usize) -> usize
    requires least { 1 ≤ order }
    requires most { order ≤ TOP_ORDER }
    requires more { more ≤ TOP_ORDER }
    ensures { result ≡ order + 1 + more }
{
    with_order!(order, shares_and::<Gf2>(more))
}

#[test]
fn two_shares_of_a_byte(rt: HostRuntime) {
    let sharing = encode::<Gf256, 2>(0x57, &[0x55]);
    assert_eq!(rt;
        sharing,
        Sharing {
            parts: [0x02, 0x55]
        }
    );
    assert_eq!(rt; decode::<Gf256, 2>(&sharing), 0x57);
}

#[test]
fn two_shares_of_a_bit(rt: HostRuntime) {
    let sharing = encode::<Gf2, 2>(1, &[1]);
    assert_eq!(rt; sharing, Sharing { parts: [0, 1] });
    assert_eq!(rt; decode::<Gf2, 2>(&sharing), 1);
    assert_eq!(rt; round_trip::<Gf2, 2>(0, &[1]), 0);
}

#[test]
fn three_shares_of_a_byte(rt: HostRuntime) {
    let sharing = encode::<Gf256, 3>(0x57, &[0x83, 0x13]);
    assert_eq!(rt;
        sharing,
        Sharing {
            parts: [0xc7, 0x83, 0x13]
        }
    );
    assert_eq!(rt; decode::<Gf256, 3>(&sharing), 0x57);
    assert_eq!(rt; round_trip::<Gf256, 3>(0x83, &[0x57, 0x13]), 0x83);
}

#[test]
fn three_shares_of_a_bit(rt: HostRuntime) {
    let sharing = encode::<Gf2, 3>(1, &[1, 1]);
    assert_eq!(rt; sharing, Sharing { parts: [1, 1, 1] });
    assert_eq!(rt; decode::<Gf2, 3>(&sharing), 1);
    assert_eq!(rt; round_trip::<Gf2, 3>(0, &[1, 0]), 0);
}

#[test]
fn nine_shares(rt: HostRuntime) {
    let byte = encode::<Gf256, 9>(0x53, &[1, 2, 4, 8, 16, 32, 64, 128]);
    assert_eq!(rt; byte.parts, [0xac, 1, 2, 4, 8, 16, 32, 64, 128]);
    assert_eq!(rt; decode::<Gf256, 9>(&byte), 0x53);
    let bit = encode::<Gf2, 9>(1, &[1, 0, 1, 1, 0, 0, 1, 1]);
    assert_eq!(rt; bit.parts, [0, 1, 0, 1, 1, 0, 0, 1, 1]);
    assert_eq!(rt; decode::<Gf2, 9>(&bit), 1);
}

#[test]
fn most_shares(rt: HostRuntime) {
    let byte = encode::<Gf256, 256>(0x57, &[0x80; 255]);
    assert_eq!(rt; byte.parts[0], 0xd7);
    assert_eq!(rt; byte.parts[255], 0x80);
    assert_eq!(rt; decode::<Gf256, 256>(&byte), 0x57);
    let bit = encode::<Gf2, 256>(1, &[1; 255]);
    assert_eq!(rt; bit.parts[0], 0);
    assert_eq!(rt; bit.parts[255], 1);
    assert_eq!(rt; decode::<Gf2, 256>(&bit), 1);
    assert_eq!(rt; round_trip::<Gf2, 256>(1, &[1; 255]), 1);
}

#[test]
fn one_share_more_than_the_order(rt: HostRuntime) {
    for order in 1..=15 {
        assert_eq!(rt; shares_at(order), usize::from(order) + 1);
        assert_eq!(rt; bit_shares_and(order, 5), usize::from(order) + 6);
    }
    let bank = Bank::<3>::from_first(5);
    let again = bank;
    assert_eq!(rt; again.regs, [5, 6, 7]);
    encoding_law();
}
