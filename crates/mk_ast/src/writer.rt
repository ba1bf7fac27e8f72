ghost use Rattle.std.specs.Prelude.{◌≡◌, ◌==◌, [], ◌++◌, OnOk, IfOk, if◌then◌else◌, decimal, string_bytes};
ghost use Rattle.mk_ast.specs.Canonical.{element_text, indent};

use mk_base::{Bytes, Items, Memory};
use std::alloc::{AllocError, Global};
use std::marker::Model;

/// A text in the making, which contracts see as its bytes.
#[derive(Drop)]
pub(crate) struct Writer {
    alloc: Global,
    text: Vec<u8>,
}

impl Model for Writer {
    ghost use Rattle.std.specs.Prelude.{List, ℕ};

    ghost Value = { List ℕ };

    ghost view = { λ w. w.text.items };
}

impl Writer {
    /// The empty text.
    pub(crate) fn new(alloc: Global) -> Writer
        ensures { result ≡ [] }
    {
        Writer {
            alloc,
            text: Vec::new(alloc),
        }
    }

    /// Appends bytes.
    pub(crate) fn bytes(&mut self, bytes: &[u8]) -> Result<(), Memory>
        ensures { OnOk result (self.new ≡ self.old ++ bytes.now) }
    {
        self.text.extend_from_slice(bytes)?;
        Ok(())
    }

    /// Appends words.
    pub(crate) fn words(&mut self, words: &str) -> Result<(), Memory>
        ensures { OnOk result (self.new ≡ self.old ++ words.now) }
    {
        self.bytes(words.as_bytes())
    }

    /// Appends a number, in decimal digits.
    pub(crate) fn number(&mut self, number: u32) -> Result<(), Memory>
        ensures { OnOk result (self.new ≡ self.old ++ decimal number) }
    {
        let digits = format!(in self.alloc; "{number}")?;
        self.words(&digits)
    }

    /// Appends an element: `0x` and two digits.
    pub(crate) fn element(&mut self, value: u8) -> Result<(), Memory>
        ensures { OnOk result (self.new ≡ self.old ++ element_text value) }
    {
        let word = element_word(self.alloc, value)?;
        self.words(&word)
    }

    /// Appends what stands between the parts of a list, before part `number`, counted from 0.
    pub(crate) fn separate(&mut self, separator: &str, number: usize) -> Result<(), Memory>
        ensures { OnOk result (self.new ≡ self.old ++ (if number == 0 then [] else separator.now)) }
    {
        if number == 0 {
            return Ok(());
        }
        self.words(separator)
    }

    /// Appends the spaces in front of a line within so many loops.
    #[tactic(auto, using(crate::proofs::Joined::indent_more))]
    pub(crate) fn indent(&mut self, loops: usize) -> Result<(), Memory>
        ensures { OnOk result (self.new ≡ self.old ++ indent loops) }
    {
        for _within in 0..loops {
            self.words("  ")?;
        }
        Ok(())
    }

    /// The bytes of the text. No list has memory for 2^32 bytes.
    pub(crate) fn finish(self) -> Result<Bytes, Memory>
        ensures { IfOk result (λ bytes. bytes ≡ self) }
    {
        if self.text.len() > u32::MAX as usize {
            return Err(Memory);
        }
        Ok(Items::from_vec(self.text))
    }
}

/// An element, as a word.
#[tactic(auto, using(std::proofs::lemmas::Fmt::hex_byte))]
fn element_word(alloc: Global, value: u8) -> Result<String, AllocError>
    ensures { IfOk result (λ word. string_bytes word ≡ element_text value) }
{
    let mut word = String::new(alloc);
    write!(word, "0x{value:02x}")?;
    Ok(word)
}
