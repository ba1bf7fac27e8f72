//! The additive maps of the classes of exponents.

ghost use Rattle.std.specs.Prelude.{◌≡◌, ◌<◌, ◌^◌, length, slice_index, IfOk};
ghost use Rattle.mk_table.specs.ClassImages.{class_image as image_of_class, class_images as images_of_class};

use crate::classes::{class_size, double};
use crate::coefficients::raise;
use mk_base::{Bytes, Items, Memory};
use mk_field::{Field, Gf256};
use std::alloc::Global;

/// The byte with this bit alone.
#[tactic(auto, using(crate::proofs::Steps::shifted))]
fn bit(place: u8) -> u8
    requires { place < 8 }
    ensures { result ≡ 2 ^ place }
{
    1 << place
}

/// The image of an element under the map of the class of k, by the coefficients of a polynomial.
#[tactic(auto, using(crate::proofs::Steps::sum_none, crate::proofs::Steps::sum_next, crate::proofs::Steps::product_below))]
fn class_image(coefficients: &[u8], k: u8, a: u8) -> u8
    requires { length coefficients.now ≡ 256 }
    ensures { result ≡ image_of_class (slice_index coefficients.now) k a }
{
    let mut sum = 0;
    for times in 0..class_size(k) {
        let coefficient = coefficients[usize::from(double(k, times))];
        sum = Gf256::add(sum, Gf256::mul(coefficient, raise(a, bit(times))));
    }
    sum
}

/// The images of the eight bits under the map of the class of k, that of bit 0 first.
pub(crate) fn class_images(alloc: Global, coefficients: &[u8], k: u8) -> Result<Bytes, Memory>
    requires { length coefficients.now ≡ 256 }
    ensures { IfOk result (λ images. images ≡ images_of_class (slice_index coefficients.now) k) }
{
    let mut images = Items::new(alloc);
    for place in 0..8 {
        images.push(class_image(coefficients, k, bit(place)))?;
    }
    Ok(images)
}
