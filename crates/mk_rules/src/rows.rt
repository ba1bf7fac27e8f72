//! Rows of bits, in words of 64 bits each: bit k of a row is bit k % 64 of its word k / 64.

ghost use Rattle.std.specs.Prelude.{◌≡◌, ◌⊎◌, ◌*◌, ◌<◌, ◌≤◌, ℕ, length, IsTrue, IfSome, IsSomeAnd, ◌↔◌};
ghost use Rattle.std.specs.Int.{bit_at};
ghost use Rattle.mk_rules.specs.Rows.{HasBit, HasBitIn, HasPair, HasPairAt, Clash};

/// Leaves in `row` the bits that were set in it or are set in `other`, a row of as many words. It takes no
/// memory.
pub fn join_rows(row: &mut [u64], other: &[u64])
    requires { length row.old ≡ length other.now }
    ensures count { length row.new ≡ length row.old }
    ensures bits { (k : ℕ) → HasBit row.new k ↔ HasBitIn row.old other.now k }
{
    for k in 0..row.len() {
        row[k] |= other[k];
    }
}

/// The bits 0, 2, 4 and so on.
const EVEN: u64 = 0x5555_5555_5555_5555;

/// The bits 2j of a word of which bit 2j + 1 is set in it, too.
fn pairs(word: u64) -> u64
    ensures { (i : ℕ) → bit_at result i ≡ 1 ↔ ((j : ℕ) × (i ≡ 2 * j) × HasPairAt word j) }
{
    word & (word >> 1) & EVEN
}

/// Whether a word has both bits 2j and 2j + 1, for some j.
fn has_pair(word: u64) -> bool
    ensures { IsTrue result ↔ HasPair word }
{
    pairs(word) != 0
}

/// The least j of which a word has both bits 2j and 2j + 1, if there is one.
pub fn first_pair(word: u64) -> Option<usize>
    ensures pair { IfSome result (HasPairAt word) }
    ensures first { (j : ℕ) → HasPairAt word j → IsSomeAnd result (λ least. least ≤ j) }
{
    let pairs = pairs(word);
    if pairs == 0 {
        return None;
    }
    Some(pairs.trailing_zeros() as usize / 2)
}

/// Whether, for some r, each of the bits 2r and 2r + 1 is set in one of two rows of as many words. It takes no
/// memory.
pub fn rows_clash(a: &[u64], b: &[u64]) -> bool
    requires { length a.now ≡ length b.now }
    ensures { IsTrue result ↔ Clash a.now b.now }
{
    for k in 0..a.len() {
        if has_pair(a[k] | b[k]) {
            return true;
        }
    }
    false
}

/// Whether a bit of a row is set.
pub fn has_bit(row: &[u64], k: usize) -> bool
    requires { k < 64 * length row.now }
    ensures { IsTrue result ↔ HasBit row.now k }
{
    (row[k / 64] >> (k % 64)) & 1 == 1
}

/// Sets a bit of a row.
pub fn set_bit(row: &mut [u64], k: usize)
    requires { k < 64 * length row.old }
    ensures count { length row.new ≡ length row.old }
    ensures bits { (j : ℕ) → HasBit row.new j ↔ (HasBit row.old j ⊎ (j ≡ k)) }
{
    row[k / 64] |= 1 << (k % 64);
}
