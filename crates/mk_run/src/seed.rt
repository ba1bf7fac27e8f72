//! The random elements that a seed gives.

ghost use Rattle.std.specs.Prelude.{◌≡◌, ◌%◌, ◌<◌, IfOk};
ghost use Rattle.mk_field.specs.Field.{size};
ghost use Rattle.mk_code.specs.Counting.{Elements};
ghost use Rattle.mk_run.specs.Seed.{seed_tape};

use mk_base::{Bytes, Items, Memory};
use mk_field::FieldId;
use rand_chacha::ChaCha20Rng;
use rand_core::SeedableRng;
use rand_core::utils::NextWord;
use std::alloc::Global;

/// The element in the low bits of a word.
fn element_of(field: FieldId, word: u32) -> u8
    ensures value { result ≡ word % size field }
    ensures element { result < size field }
{
    (word % u32::from(field.size())) as u8
}

/// The first `len` elements of the tape of a seed: element k is the low byte, in GF(2) the low bit, of
/// 32-bit word k of ChaCha20 under the seed, stream 0.
pub fn tape_from_seed(
    alloc: Global,
    field: FieldId,
    seed: &[u8; 32],
    len: u32,
) -> Result<Bytes, Memory>
    ensures tape { IfOk result (λ tape. tape ≡ seed_tape field seed.now len) }
    ensures elements { IfOk result (λ tape. Elements (size field) len tape) }
{
    let mut words = ChaCha20Rng::from_seed(*seed);
    let mut tape = Vec::with_capacity(alloc, len as usize)?;
    for _ in 0..len {
        tape.push_reserved(element_of(field, words.next_word()));
    }
    Ok(Items::from_vec(tape))
}
