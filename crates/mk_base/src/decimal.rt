//! Numbers in decimal, and hexadecimal digits.

ghost use Rattle.std.specs.Prelude.{◌≡◌, ℕ, ◌<◌, ◌≤◌, ◌↔◌, length, slice_index, IsTrue, IfSome, MatchOption};
ghost use Rattle.mk_base.specs.Digits.{IsDecimal, hex_value};

/// Whether there is a digit, and `0` is the first one only where it is the only one.
fn leads(digits: &[u8]) -> bool
    ensures { IsTrue result ↔ ((0 < length digits.now) × (slice_index digits.now 0 ≡ 48 → length digits.now ≡ 1)) }
{
    match digits {
        [] => false,
        [_] => true,
        [first, _, ..] => *first != b'0',
    }
}

/// The number, of at most `most`, that this text writes in decimal digits without leading zeros.
pub fn decimal_number(text: &[u8], most: u32) -> Option<u32>
    ensures { MatchOption result ((n : ℕ) → IsDecimal most n text.now → ⊥) (λ n. IsDecimal most n text.now) }
{
    if !leads(text) {
        return None;
    }
    let mut value = 0u64;
    for digit in text {
        if !digit.is_ascii_digit() {
            return None;
        }
        value = value * 10 + u64::from(*digit - b'0');
        if value > u64::from(most) {
            return None;
        }
    }
    Some(value as u32)
}

/// The value of a hexadecimal digit of either case.
pub fn hex_value(digit: u8) -> Option<u8>
    ensures value { result ≡ hex_value digit }
    ensures low { IfSome result (λ value. value ≤ 15) }
{
    if digit < b'0' {
        return None;
    }
    if digit < b'0' + 10 {
        return Some(digit - b'0');
    }
    if digit < b'A' {
        return None;
    }
    if digit < b'A' + 6 {
        return Some(digit - b'A' + 10);
    }
    if digit < b'a' {
        return None;
    }
    if digit < b'a' + 6 {
        return Some(digit - b'a' + 10);
    }
    None
}
