//! Words of numbers: decimal digits without leading zeros, and lists of these with commas between.

ghost use Rattle.std.specs.Prelude.{◌≡◌, ◌↔◌, ◌<◌, ◌^◌, ℕ, IsTrue, IfSome, IfNone, IfOk, decimal};
ghost use Rattle.mk_words.specs.Words.{SaysProbes};
ghost use Rattle.mk_words.specs.Forms.{AreProbes};
ghost use Rattle.mk_words.specs.Numbers.{IsNumber};

use mk_base::{Items, Memory, decimal_number};
use std::alloc::Global;

/// The number below 2^32 that a word says.
pub(crate) fn number_of(word: &[u8]) -> Option<u32>
    ensures found { IfSome result (λ number. word.now ≡ decimal number) }
    ensures none { IfNone result ((number : ℕ) → number < 2 ^ 32 → word.now ≡ decimal number → ⊥) }
{
    decimal_number(word, u32::MAX)
}

/// Whether a word says a number below 2^32.
fn is_number(word: &[u8]) -> bool
    ensures { IsTrue result ↔ IsNumber word.now }
{
    number_of(word).is_some()
}

/// Whether a word says probes. It takes no memory.
pub(crate) fn are_probes(word: &[u8]) -> bool
    ensures { IsTrue result ↔ AreProbes word.now }
{
    if word == b"-".as_slice() {
        return true;
    }
    word.split(|byte| *byte == b',').all(is_number)
}

/// The probes that a word says.
pub fn probes_of(alloc: Global, word: &[u8]) -> Result<Items<u32>, Memory>
    requires probes { AreProbes word.now }
    ensures { IfOk result (SaysProbes word.now) }
{
    let mut probes = Items::new(alloc);
    if word == b"-".as_slice() {
        return Ok(probes);
    }
    for part in word.split(|byte| *byte == b',') {
        match number_of(part) {
            Some(probe) => probes.push(probe)?,
            // Each part of a word of probes is a number.
            None => unreachable!(),
        }
    }
    Ok(probes)
}
