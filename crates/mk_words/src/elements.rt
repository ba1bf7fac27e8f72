//! Words of elements: `-` for none, and else two hexadecimal digits for each.

ghost use Rattle.std.specs.Prelude.{◌≡◌, ◌↔◌, ◌<◌, ◌^◌, ◌++◌, IsTrue, IfOk, OnOk, length, string_bytes};
ghost use Rattle.std.specs.List.{AllPass};
ghost use Rattle.std.specs.Char.{is_ascii_hexdigit};
ghost use Rattle.mk_words.specs.Words.{SaysElements, elements_word};
ghost use Rattle.mk_words.specs.Forms.{AreElements};

use hex::FromHexError;
use mk_base::{Bytes, Items, Memory};
use std::alloc::Global;

/// Whether a word says elements. It takes no memory.
pub(crate) fn are_elements(word: &[u8]) -> bool
    ensures { IsTrue result ↔ AreElements word.now }
{
    if word == b"-".as_slice() {
        return true;
    }
    if word.is_empty() {
        return false;
    }
    word.len() % 2 == 0 && are_digits(word)
}

/// Whether these are hexadecimal digits, of either case.
fn are_digits(word: &[u8]) -> bool
    ensures { IsTrue result ↔ AllPass is_ascii_hexdigit word.now }
{
    word.iter().all(|digit| digit.is_ascii_hexdigit())
}

/// The elements that a word says.
pub fn elements_of(alloc: Global, word: &[u8]) -> Result<Bytes, Memory>
    requires elements { AreElements word.now }
    requires small { length word.now < 2 ^ 32 }
    ensures { IfOk result (SaysElements word.now) }
{
    if word == b"-".as_slice() {
        return Ok(Items::new(alloc));
    }
    match hex::decode(alloc, word) {
        Ok(elements) => Items::try_from_vec(elements),
        Err(FromHexError::OutOfMemory) => Err(Memory),
        // The word's digits are hexadecimal, and an even number of them.
        Err(_) => unreachable!(),
    }
}

/// Appends the word of these elements.
pub fn push_elements(alloc: Global, text: &mut String, elements: &[u8]) -> Result<(), Memory>
    ensures { OnOk result (string_bytes text.new ≡ string_bytes text.old ++ elements_word elements.now) }
{
    if elements.is_empty() {
        text.push_str("-")?;
        return Ok(());
    }
    let digits = hex::encode(alloc, elements)?;
    text.push_str(digits.as_str())?;
    Ok(())
}
