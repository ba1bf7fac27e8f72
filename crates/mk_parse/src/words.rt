//! What the bytes of a token say.

ghost use Rattle.std.specs.Prelude.{◌≡◌, ℕ, ◌↔◌, IsTrue, MatchOption, Contains};
ghost use Rattle.mk_ast.specs.Tokens.{reserved, IsElement, IsNumber};

use mk_ast::GREATEST_NUMBER;
use mk_base::{decimal_number, hex_value};

/// The number, of at most `GREATEST_NUMBER`, that this text writes in decimal digits without leading zeros.
pub(crate) fn number(text: &[u8]) -> Option<u32>
    ensures { MatchOption result ((n : ℕ) → IsNumber n text.now → ⊥) (λ n. IsNumber n text.now) }
{
    decimal_number(text, GREATEST_NUMBER)
}

/// The element that this text writes as `0x` and two hexadecimal digits.
pub(crate) fn element(text: &[u8]) -> Option<u8>
    ensures { MatchOption result ((value : ℕ) → IsElement value text.now → ⊥) (λ value. IsElement value text.now) }
{
    let [b'0', b'x', first, second] = text else {
        return None;
    };
    let high = hex_value(*first)?;
    let low = hex_value(*second)?;
    Some(16 * high + low)
}

/// Whether this word is reserved.
pub(crate) fn is_reserved(word: &[u8]) -> bool
    ensures { IsTrue result ↔ Contains reserved word.now }
{
    if word == b"field".as_slice() {
        return true;
    }
    if word == b"gf2".as_slice() {
        return true;
    }
    if word == b"gf256".as_slice() {
        return true;
    }
    if word == b"map".as_slice() {
        return true;
    }
    if word == b"secret".as_slice() {
        return true;
    }
    if word == b"public".as_slice() {
        return true;
    }
    if word == b"output".as_slice() {
        return true;
    }
    if word == b"local".as_slice() {
        return true;
    }
    if word == b"for".as_slice() {
        return true;
    }
    if word == b"in".as_slice() {
        return true;
    }
    word == b"sq".as_slice()
}
