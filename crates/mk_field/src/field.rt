ghost use Rattle.std.specs.Prelude.{◌≡◌, ◌<◌, ◌↔◌, ℕ, IsTrue, bit_xor};
ghost use Rattle.mk_field.specs.Field.{size, has_maps, product, square};

use crate::powers::product_by_powers;

/// Which of the two fields.
#[derive(Clone, Copy, Debug, PartialEq, Eq)]
pub enum FieldId {
    /// GF(2), whose elements are 0 and 1.
    Gf2,
    /// GF(2^8), whose elements are the bytes.
    Gf256,
}

impl FieldId {
    /// The number of elements, which are the numbers below it.
    pub fn size(self) -> u16
        ensures { result ≡ size self }
    {
        match self {
            FieldId::Gf2 => Gf2::SIZE,
            FieldId::Gf256 => Gf256::SIZE,
        }
    }

    /// Whether the byte is an element.
    pub fn contains(self, a: u8) -> bool
        ensures { IsTrue result ↔ (a < size self) }
    {
        u16::from(a) < self.size()
    }

    /// Whether there are additive maps on its elements: on bytes alone.
    pub fn has_maps(self) -> bool
        ensures { result ≡ has_maps self }
    {
        match self {
            FieldId::Gf2 => false,
            FieldId::Gf256 => true,
        }
    }

    /// The sum of two elements.
    pub fn add(self, a: u8, b: u8) -> u8
        requires left { a < size self }
        requires right { b < size self }
        ensures { result ≡ bit_xor a b }
    {
        match self {
            FieldId::Gf2 => Gf2::add(a, b),
            FieldId::Gf256 => Gf256::add(a, b),
        }
    }

    /// The product of two elements.
    pub fn mul(self, a: u8, b: u8) -> u8
        requires left { a < size self }
        requires right { b < size self }
        ensures { result ≡ product self a b }
    {
        match self {
            FieldId::Gf2 => Gf2::mul(a, b),
            FieldId::Gf256 => Gf256::mul(a, b),
        }
    }

    /// The square of an element.
    pub fn sq(self, a: u8) -> u8
        requires { a < size self }
        ensures { result ≡ square self a }
    {
        match self {
            FieldId::Gf2 => Gf2::sq(a),
            FieldId::Gf256 => Gf256::sq(a),
        }
    }
}

/// A field whose elements are the numbers below its size, as bytes. Its laws are the contracts of
/// `sum_laws` and `product_laws`.
pub trait Field {
    ghost use Rattle.mk_field.specs.declared.field.FieldId.{FieldId};

    ghost ID: { FieldId };

    ghost SIZE: { ℕ };

    const ID: FieldId;

    const SIZE: u16;

    /// The sum of two elements.
    fn add(a: u8, b: u8) -> u8
        requires left { a < size ID }
        requires right { b < size ID }
        ensures { result ≡ bit_xor a b };

    /// The product of two elements.
    fn mul(a: u8, b: u8) -> u8
        requires left { a < size ID }
        requires right { b < size ID }
        ensures { result ≡ product ID a b };

    /// The square of an element.
    fn sq(a: u8) -> u8
        requires { a < size ID }
        ensures { result ≡ square ID a };

    ghost size_of_id: { SIZE ≡ size ID };
}

/// GF(2): the sum is exclusive or, and the product is and.
#[derive(Clone, Copy, Debug, PartialEq, Eq)]
pub struct Gf2;

/// GF(2^8), as in FIPS 197 section 4: the sum is exclusive or, and the product is that of polynomials
/// modulo x^8 + x^4 + x^3 + x + 1.
#[derive(Clone, Copy, Debug, PartialEq, Eq)]
pub struct Gf256;

impl Field for Gf2 {
    ghost use Rattle.std.specs.Prelude.{refl};
    ghost use Rattle.mk_field.specs.declared.field.FieldId.TheVariants.{Gf2};

    ghost ID = { Gf2 };

    ghost SIZE = { 2 };

    ghost size_of_id = { refl };

    const ID: FieldId = FieldId::Gf2;

    const SIZE: u16 = 2;

    fn add(a: u8, b: u8) -> u8 {
        exclusive_or(a, b)
    }

    fn mul(a: u8, b: u8) -> u8 {
        a & b
    }

    fn sq(a: u8) -> u8 {
        Self::mul(a, a)
    }
}

impl Field for Gf256 {
    ghost use Rattle.std.specs.Prelude.{refl};
    ghost use Rattle.mk_field.specs.declared.field.FieldId.TheVariants.{Gf256};

    ghost ID = { Gf256 };

    ghost SIZE = { 256 };

    ghost size_of_id = { refl };

    const ID: FieldId = FieldId::Gf256;

    const SIZE: u16 = 256;

    fn add(a: u8, b: u8) -> u8 {
        exclusive_or(a, b)
    }

    fn mul(a: u8, b: u8) -> u8 {
        product_by_powers(a, b)
    }

    fn sq(a: u8) -> u8 {
        product_by_powers(a, a)
    }
}

/// The sum, which is the same in both fields.
fn exclusive_or(a: u8, b: u8) -> u8
    ensures { result ≡ bit_xor a b }
{
    a ^ b
}
