//! Products against their definition written out, and each call once.
ghost use Rattle.std.specs.Prelude.{◌<◌};
ghost use Rattle.mk_field.specs.Field.{size};

use crate::{AddMap, Field, FieldId, Gf2, Gf256, map_laws, product_laws, sum_laws};

/// A byte times x: doubled, and reduced by 0x11b.
fn double(a: u8) -> u8 {
    let doubled = u16::from(a) * 2;
    let reduced = if doubled < 256 {
        doubled
    } else {
        doubled ^ 0x11b
    };
    (reduced % 256) as u8
}

/// The product of two bytes: the first doubled i times, summed over the set bits i of the second.
fn plain_product(a: u8, b: u8) -> u8 {
    let mut doubled = a;
    let mut sum = 0;
    for i in 0..8u32 {
        if (b >> i) & 1 == 1 {
            sum ^= doubled;
        }
        doubled = double(doubled);
    }
    sum
}

/// The sum, the product and the square of two elements of a field.
fn all_of<F: Field>(a: u8, b: u8) -> (u8, u8, u8)
    requires left { a < size F.ID }
    requires right { b < size F.ID }
{
    (F::add(a, b), F::mul(a, b), F::sq(a))
}

#[test]
fn products_are_those_of_the_definition(rt: HostRuntime) {
    for a in 0..=255 {
        for b in 0..=255 {
            assert_eq!(rt; Gf256::mul(a, b), plain_product(a, b), "{a} times {b}");
        }
    }
}

#[test]
fn products_of_the_standard(rt: HostRuntime) {
    for (a, b, want) in [(0x57, 0x83, 0xc1), (0x57, 0x13, 0xfe), (0x53, 0x53, 0xb5)] {
        assert_eq!(rt; FieldId::Gf256.mul(a, b), want, "{a} times {b}");
    }
    assert_eq!(rt; FieldId::Gf256.sq(0x53), 0xb5);
    assert_eq!(rt; FieldId::Gf256.add(0x57, 0x83), 0xd4);
}

#[test]
fn bits_are_elements(rt: HostRuntime) {
    for (a, b, sum, product) in [(0, 0, 0, 0), (0, 1, 1, 0), (1, 0, 1, 0), (1, 1, 0, 1)] {
        assert_eq!(rt; FieldId::Gf2.add(a, b), sum, "{a} plus {b}");
        assert_eq!(rt; FieldId::Gf2.mul(a, b), product, "{a} times {b}");
        assert_eq!(rt; FieldId::Gf2.sq(a), a);
        assert_eq!(rt; all_of::<Gf2>(a, b), (sum, product, a));
    }
}

#[test]
fn each_call_through_the_bound(rt: HostRuntime) {
    assert_eq!(rt; all_of::<Gf256>(0x57, 0x83), (0xd4, 0xc1, 0xa5));
    sum_laws();
    product_laws();
    map_laws();
}

#[test]
fn images_are_sums(rt: HostRuntime) {
    let squares = AddMap {
        images: [0x01, 0x04, 0x10, 0x40, 0x1b, 0x6c, 0xab, 0x9a],
    };
    for a in 0..=255 {
        assert_eq!(rt; squares.apply(a), Gf256::sq(a), "the square of {a}");
    }
}
