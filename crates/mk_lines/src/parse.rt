//! Reading the words of a line from its front on.

ghost use Rattle.std.specs.Prelude.{◌≡◌, ◌≤◌, IfSome, take_while};
ghost use Rattle.std.specs.Char.{is_ascii_digit};
ghost use Rattle.mk_lines.specs.Parsing.{Tells, Gives, field_of, positions_of, after, leads, narrowed, digits_from, number_at, number_of, lower_hex_value, hex_at, hex_of, images_at, map_of, operand_by, operand_at, operand_of, pair_of, mapped_of, numbers_at, public_op_of, single_op_of, pair_op_of, op_of, add_at, mul_or_map_at, rnd_at, const_or_copy_at, sq_at, instr_at, instr_of, target_at, add_into, mul_or_map_into, rnd_into, const_or_copy_into, sq_into, into_at, into_of};

use crate::refusal::LineRefusal;
use mk_base::{Items, hex_value};
use mk_code::{Instr, PositionList};
use mk_field::{AddMap, FieldId};
use mk_ssa::{Op, Operand};
use std::alloc::Global;

/// The bytes behind this word, or `None` where it doesn't stand at their front.
pub fn after<'a>(word: &[u8], bytes: &'a [u8]) -> Option<&'a [u8]>
    ensures { Tells (λ rest. rest.now) result (after word.now bytes.now) }
{
    let mut rest = bytes;
    for letter in word {
        let [first, behind @ ..] = rest else {
            return None;
        };
        if *letter != *first {
            return None;
        }
        rest = behind;
    }
    Some(rest)
}

/// Whether a digit stands at the front, and `0` only where no digit stands behind it.
fn leads(bytes: &[u8]) -> bool
    ensures { result ≡ leads (take_while is_ascii_digit bytes.now) }
{
    match bytes {
        [] => false,
        [first] => first.is_ascii_digit(),
        [first, second, ..] => {
            first.is_ascii_digit() && (*first != b'0' || !second.is_ascii_digit())
        }
    }
}

/// The greatest number that a further digit may make one of 32 bits with.
const MOST_BEFORE: u64 = 429_496_729;

/// This number and the bytes behind it. `None` where it has more than 32 bits.
fn narrowed(value: u64, rest: &[u8]) -> Option<(u32, &[u8])>
    ensures { Tells (λ x. (x.0, x.1.now)) result (narrowed value rest.now) }
{
    if value > u64::from(u32::MAX) {
        return None;
    }
    Some((value as u32, rest))
}

/// The number that the digits at the front make behind this digit, and the bytes behind them. `None` where it has more
/// than 32 bits.
fn digits_behind(first: u8, bytes: &[u8]) -> Option<(u32, &[u8])>
    ensures { Tells (λ x. (x.0, x.1.now)) result (digits_from first bytes.now) }
{
    let mut value = u64::from(first);
    let mut rest = bytes;
    while let [digit, behind @ ..] = rest {
        if !digit.is_ascii_digit() {
            return narrowed(value, rest);
        }
        if value > MOST_BEFORE {
            return None;
        }
        value = value * 10 + u64::from(*digit - b'0');
        rest = behind;
    }
    narrowed(value, rest)
}

/// The number at the front, in decimal, which all digits there belong to, and the bytes behind it. `None`
/// where there is no digit, a leading zero, or a number of more than 32 bits.
#[tactic(auto, unfolding(crate::specs::Parsing::number_at))]
pub fn number_at(bytes: &[u8]) -> Option<(u32, &[u8])>
    ensures { Tells (λ x. (x.0, x.1.now)) result (number_at bytes.now) }
{
    if !leads(bytes) {
        return None;
    }
    let [first, behind @ ..] = bytes else {
        return None;
    };
    digits_behind(*first - b'0', behind)
}

/// A number, as `number_at` reads it, with nothing behind it.
#[tactic(auto, unfolding(crate::specs::Parsing::number_of, crate::specs::Parsing::whole))]
pub fn number_of(bytes: &[u8]) -> Option<u32>
    ensures { result ≡ number_of bytes.now }
{
    let (number, rest) = number_at(bytes)?;
    if !rest.is_empty() {
        return None;
    }
    Some(number)
}

/// The value of a lower-case hexadecimal digit.
#[tactic(auto, unfolding(crate::specs::Parsing::lower_hex_value))]
fn lower_hex_value(digit: u8) -> Option<u8>
    ensures value { result ≡ lower_hex_value digit }
    ensures low { IfSome result (λ value. value ≤ 15) }
{
    if digit.is_ascii_uppercase() {
        return None;
    }
    hex_value(digit)
}

/// The element at the front, which has two digits, and the bytes behind it.
#[tactic(auto, unfolding(crate::specs::Parsing::hex_at))]
fn hex_at(bytes: &[u8]) -> Option<(u8, &[u8])>
    ensures { Tells (λ x. (x.0, x.1.now)) result (hex_at bytes.now) }
{
    let [first, second, rest @ ..] = bytes else {
        return None;
    };
    let high = lower_hex_value(*first)?;
    let low = lower_hex_value(*second)?;
    Some((high * 16 + low, rest))
}

/// An element with nothing behind it.
#[tactic(auto, unfolding(crate::specs::Parsing::hex_of, crate::specs::Parsing::whole))]
fn hex_of(bytes: &[u8]) -> Option<u8>
    ensures { result ≡ hex_of bytes.now }
{
    let (value, rest) = hex_at(bytes)?;
    if !rest.is_empty() {
        return None;
    }
    Some(value)
}

/// The eight elements at the front, and the bytes behind them.
fn images_at(bytes: &[u8]) -> Option<([u8; 8], &[u8])>
    ensures { Tells (λ x. (x.0, x.1.now)) result (images_at 8 bytes.now) }
{
    let mut images = [0; 8];
    let mut rest = bytes;
    for index in 0..8 {
        let (image, behind) = hex_at(rest)?;
        images[index] = image;
        rest = behind;
    }
    Some((images, rest))
}

/// A map: the images of the eight bits, that of bit 0 first, each as two lower-case hexadecimal digits, with
/// nothing between or behind them.
#[tactic(auto, unfolding(crate::specs::Parsing::map_of, crate::specs::Parsing::whole))]
pub fn map_of(bytes: &[u8]) -> Option<AddMap>
    ensures { result ≡ map_of bytes.now }
{
    let (images, rest) = images_at(bytes)?;
    if !rest.is_empty() {
        return None;
    }
    Some(AddMap { images })
}

/// The operand of this number, of the kind that the letter stands for.
#[tactic(auto, unfolding(crate::specs::Parsing::operand_by))]
fn operand_by(kind: u8, number: u32) -> Option<Operand>
    ensures { result ≡ operand_by kind number }
{
    if kind == b's' {
        return Some(Operand::Secret(number));
    }
    if kind == b'p' {
        return Some(Operand::Public(number));
    }
    if kind == b'b' {
        return Some(Operand::Block(number));
    }
    None
}

/// The operand at the front, and the bytes behind it.
#[tactic(auto, unfolding(crate::specs::Parsing::operand_at))]
fn operand_at(bytes: &[u8]) -> Option<(Operand, &[u8])>
    ensures { Tells (λ x. (x.0, x.1.now)) result (operand_at bytes.now) }
{
    let [kind, behind @ ..] = bytes else {
        return None;
    };
    let (number, rest) = number_at(behind)?;
    let operand = operand_by(*kind, number)?;
    Some((operand, rest))
}

/// An operand with nothing behind it: `sK`, `pK` or `bK`, K as `number_at` reads it.
#[tactic(auto, unfolding(crate::specs::Parsing::operand_of, crate::specs::Parsing::whole))]
pub fn operand_of(bytes: &[u8]) -> Option<Operand>
    ensures { result ≡ operand_of bytes.now }
{
    let (operand, rest) = operand_at(bytes)?;
    if !rest.is_empty() {
        return None;
    }
    Some(operand)
}

/// Two operands.
#[tactic(auto, unfolding(crate::specs::Parsing::pair_of))]
fn pair_of(bytes: &[u8]) -> Option<(Operand, Operand)>
    ensures { result ≡ pair_of bytes.now }
{
    let (left, rest) = operand_at(bytes)?;
    let rest = after(b" ", rest)?;
    let right = operand_of(rest)?;
    Some((left, right))
}

/// The number of a map and an operand.
#[tactic(auto, unfolding(crate::specs::Parsing::mapped_of))]
fn mapped_of(bytes: &[u8]) -> Option<(u32, Operand)>
    ensures { result ≡ mapped_of bytes.now }
{
    let (map, rest) = number_at(bytes)?;
    let rest = after(b" ", rest)?;
    let arg = operand_of(rest)?;
    Some((map, arg))
}

/// Two numbers at the front, a space between them, and the bytes behind them.
#[tactic(auto, unfolding(crate::specs::Parsing::numbers_at))]
fn numbers_at(bytes: &[u8]) -> Option<((u32, u32), &[u8])>
    ensures { Tells (λ x. (x.0, x.1.now)) result (numbers_at bytes.now) }
{
    let (left, rest) = number_at(bytes)?;
    let rest = after(b" ", rest)?;
    let (right, rest) = number_at(rest)?;
    Some(((left, right), rest))
}

/// A block of publics.
#[tactic(auto, unfolding(crate::specs::Parsing::public_op_of))]
fn public_op_of(words: &[u8]) -> Option<Op>
    ensures { result ≡ public_op_of words.now }
{
    if let Some(rest) = after(b"const ", words) {
        let value = hex_of(rest)?;
        return Some(Op::Const { value });
    }
    if let Some(rest) = after(b"padd ", words) {
        let (left, right) = pair_of(rest)?;
        return Some(Op::PubAdd { left, right });
    }
    if let Some(rest) = after(b"pmul ", words) {
        let (left, right) = pair_of(rest)?;
        return Some(Op::PubMul { left, right });
    }
    if let Some(rest) = after(b"psq ", words) {
        let arg = operand_of(rest)?;
        return Some(Op::PubSq { arg });
    }
    let rest = after(b"pmap ", words)?;
    let (map, arg) = mapped_of(rest)?;
    Some(Op::PubMap { map, arg })
}

/// A shared block of one operand.
#[tactic(auto, unfolding(crate::specs::Parsing::single_op_of))]
fn single_op_of(words: &[u8]) -> Option<Op>
    ensures { result ≡ single_op_of words.now }
{
    if let Some(rest) = after(b"lift ", words) {
        let arg = operand_of(rest)?;
        return Some(Op::Lift { arg });
    }
    if let Some(rest) = after(b"sq ", words) {
        let arg = operand_of(rest)?;
        return Some(Op::Sq { arg });
    }
    if let Some(rest) = after(b"map ", words) {
        let (map, arg) = mapped_of(rest)?;
        return Some(Op::Map { map, arg });
    }
    let rest = after(b"refresh ", words)?;
    let arg = operand_of(rest)?;
    Some(Op::Refresh { arg })
}

/// A shared block of two operands.
#[tactic(auto, unfolding(crate::specs::Parsing::pair_op_of))]
fn pair_op_of(words: &[u8]) -> Option<Op>
    ensures { result ≡ pair_op_of words.now }
{
    if let Some(rest) = after(b"add ", words) {
        let (left, right) = pair_of(rest)?;
        return Some(Op::Add { left, right });
    }
    if let Some(rest) = after(b"addp ", words) {
        let (left, right) = pair_of(rest)?;
        return Some(Op::AddPub { left, right });
    }
    if let Some(rest) = after(b"scale ", words) {
        let (left, right) = pair_of(rest)?;
        return Some(Op::Scale { left, right });
    }
    let rest = after(b"mul ", words)?;
    let (left, right) = pair_of(rest)?;
    Some(Op::Mul { left, right })
}

/// A block: what stands in its line behind `block `, its kind and its words, up to the line feed.
#[tactic(auto, unfolding(crate::specs::Parsing::op_of))]
pub fn op_of(words: &[u8]) -> Option<Op>
    ensures { result ≡ op_of words.now }
{
    if let Some(op) = public_op_of(words) {
        return Some(op);
    }
    if let Some(op) = single_op_of(words) {
        return Some(op);
    }
    pair_op_of(words)
}

/// A sum at the front, and the bytes behind it.
#[tactic(auto, unfolding(crate::specs::Parsing::add_at))]
fn add_at(bytes: &[u8]) -> Option<(Instr, &[u8])>
    ensures { Tells (λ x. (x.0, x.1.now)) result (add_at bytes.now) }
{
    let rest = after(b"add ", bytes)?;
    let ((left, right), rest) = numbers_at(rest)?;
    Some((Instr::Add { left, right }, rest))
}

/// A product or a map at the front, and the bytes behind it.
#[tactic(auto, unfolding(crate::specs::Parsing::mul_or_map_at))]
fn mul_or_map_at(bytes: &[u8]) -> Option<(Instr, &[u8])>
    ensures { Tells (λ x. (x.0, x.1.now)) result (mul_or_map_at bytes.now) }
{
    if let Some(rest) = after(b"mul ", bytes) {
        let ((left, right), rest) = numbers_at(rest)?;
        return Some((Instr::Mul { left, right }, rest));
    }
    let rest = after(b"map ", bytes)?;
    let ((map, from), rest) = numbers_at(rest)?;
    Some((Instr::Map { map, from }, rest))
}

/// A random element at the front, and the bytes behind it.
#[tactic(auto, unfolding(crate::specs::Parsing::rnd_at))]
fn rnd_at(bytes: &[u8]) -> Option<(Instr, &[u8])>
    ensures { Tells (λ x. (x.0, x.1.now)) result (rnd_at bytes.now) }
{
    let rest = after(b"rnd", bytes)?;
    Some((Instr::Rnd, rest))
}

/// A constant or a copy at the front, and the bytes behind it.
#[tactic(auto, unfolding(crate::specs::Parsing::const_or_copy_at))]
fn const_or_copy_at(bytes: &[u8]) -> Option<(Instr, &[u8])>
    ensures { Tells (λ x. (x.0, x.1.now)) result (const_or_copy_at bytes.now) }
{
    if let Some(rest) = after(b"const ", bytes) {
        let (value, rest) = hex_at(rest)?;
        return Some((Instr::Const { value }, rest));
    }
    let rest = after(b"copy ", bytes)?;
    let (from, rest) = number_at(rest)?;
    Some((Instr::Copy { from }, rest))
}

/// A square at the front, and the bytes behind it.
#[tactic(auto, unfolding(crate::specs::Parsing::sq_at))]
fn sq_at(bytes: &[u8]) -> Option<(Instr, &[u8])>
    ensures { Tells (λ x. (x.0, x.1.now)) result (sq_at bytes.now) }
{
    let rest = after(b"sq ", bytes)?;
    let (from, rest) = number_at(rest)?;
    Some((Instr::Sq { from }, rest))
}

/// The instruction at the front, which all digits there belong to, and the bytes behind it. Its first letter
/// chooses the kind.
pub fn instr_at(bytes: &[u8]) -> Option<(Instr, &[u8])>
    ensures { Tells (λ x. (x.0, x.1.now)) result (instr_at bytes.now) }
{
    let [kind, ..] = bytes else {
        return None;
    };
    if *kind == b'a' {
        return add_at(bytes);
    }
    if *kind == b'm' {
        return mul_or_map_at(bytes);
    }
    if *kind == b'r' {
        return rnd_at(bytes);
    }
    if *kind == b'c' {
        return const_or_copy_at(bytes);
    }
    if *kind == b's' {
        return sq_at(bytes);
    }
    None
}

/// An instruction: its line, up to the line feed.
#[tactic(auto, unfolding(crate::specs::Parsing::instr_of, crate::specs::Parsing::whole))]
pub fn instr_of(words: &[u8]) -> Option<Instr>
    ensures { result ≡ instr_of words.now }
{
    let (instr, rest) = instr_at(words)?;
    if !rest.is_empty() {
        return None;
    }
    Some(instr)
}

/// The register that an instruction writes, and what stands behind it and a space.
#[tactic(auto, unfolding(crate::specs::Parsing::target_at))]
fn target_at(bytes: &[u8]) -> Option<(u32, &[u8])>
    ensures { Tells (λ x. (x.0, x.1.now)) result (target_at bytes.now) }
{
    let (to, rest) = number_at(bytes)?;
    let rest = after(b" ", rest)?;
    Some((to, rest))
}

/// A sum that writes a register, at the front, and the bytes behind it.
#[tactic(auto, unfolding(crate::specs::Parsing::add_into, crate::specs::Parsing::into_by))]
fn add_into(bytes: &[u8]) -> Option<((u32, Instr), &[u8])>
    ensures { Tells (λ x. (x.0, x.1.now)) result (add_into bytes.now) }
{
    let rest = after(b"add ", bytes)?;
    let (to, rest) = target_at(rest)?;
    let ((left, right), rest) = numbers_at(rest)?;
    Some(((to, Instr::Add { left, right }), rest))
}

/// A product or a map that writes a register, at the front, and the bytes behind it.
#[tactic(auto, unfolding(crate::specs::Parsing::mul_or_map_into, crate::specs::Parsing::into_by))]
fn mul_or_map_into(bytes: &[u8]) -> Option<((u32, Instr), &[u8])>
    ensures { Tells (λ x. (x.0, x.1.now)) result (mul_or_map_into bytes.now) }
{
    if let Some(rest) = after(b"mul ", bytes) {
        let (to, rest) = target_at(rest)?;
        let ((left, right), rest) = numbers_at(rest)?;
        return Some(((to, Instr::Mul { left, right }), rest));
    }
    let rest = after(b"map ", bytes)?;
    let (to, rest) = target_at(rest)?;
    let ((map, from), rest) = numbers_at(rest)?;
    Some(((to, Instr::Map { map, from }), rest))
}

/// A random element that is written into a register, at the front, and the bytes behind it.
#[tactic(auto, unfolding(crate::specs::Parsing::rnd_into))]
fn rnd_into(bytes: &[u8]) -> Option<((u32, Instr), &[u8])>
    ensures { Tells (λ x. (x.0, x.1.now)) result (rnd_into bytes.now) }
{
    let rest = after(b"rnd ", bytes)?;
    let (to, rest) = number_at(rest)?;
    Some(((to, Instr::Rnd), rest))
}

/// A constant or a copy that writes a register, at the front, and the bytes behind it.
#[tactic(auto, unfolding(crate::specs::Parsing::const_or_copy_into, crate::specs::Parsing::into_by))]
fn const_or_copy_into(bytes: &[u8]) -> Option<((u32, Instr), &[u8])>
    ensures { Tells (λ x. (x.0, x.1.now)) result (const_or_copy_into bytes.now) }
{
    if let Some(rest) = after(b"const ", bytes) {
        let (to, rest) = target_at(rest)?;
        let (value, rest) = hex_at(rest)?;
        return Some(((to, Instr::Const { value }), rest));
    }
    let rest = after(b"copy ", bytes)?;
    let (to, rest) = target_at(rest)?;
    let (from, rest) = number_at(rest)?;
    Some(((to, Instr::Copy { from }), rest))
}

/// A square that writes a register, at the front, and the bytes behind it.
#[tactic(auto, unfolding(crate::specs::Parsing::sq_into, crate::specs::Parsing::into_by))]
fn sq_into(bytes: &[u8]) -> Option<((u32, Instr), &[u8])>
    ensures { Tells (λ x. (x.0, x.1.now)) result (sq_into bytes.now) }
{
    let rest = after(b"sq ", bytes)?;
    let (to, rest) = target_at(rest)?;
    let (from, rest) = number_at(rest)?;
    Some(((to, Instr::Sq { from }), rest))
}

/// The register that the instruction at the front writes, and the instruction, with registers as operands, which all
/// digits there belong to, and the bytes behind it. Its first letter chooses the kind.
pub fn into_at(bytes: &[u8]) -> Option<((u32, Instr), &[u8])>
    ensures { Tells (λ x. (x.0, x.1.now)) result (into_at bytes.now) }
{
    let [kind, ..] = bytes else {
        return None;
    };
    if *kind == b'a' {
        return add_into(bytes);
    }
    if *kind == b'm' {
        return mul_or_map_into(bytes);
    }
    if *kind == b'r' {
        return rnd_into(bytes);
    }
    if *kind == b'c' {
        return const_or_copy_into(bytes);
    }
    if *kind == b's' {
        return sq_into(bytes);
    }
    None
}

/// The register that an instruction writes, and the instruction, with registers as operands: its line, up to the
/// line feed.
#[tactic(auto, unfolding(crate::specs::Parsing::into_of, crate::specs::Parsing::whole))]
pub fn into_of(words: &[u8]) -> Option<(u32, Instr)>
    ensures { result ≡ into_of words.now }
{
    let (into, rest) = into_at(words)?;
    if !rest.is_empty() {
        return None;
    }
    Some(into)
}

/// The field of its line, up to the line feed: `field gf2` or `field gf256`.
#[tactic(auto, unfolding(crate::specs::Parsing::field_of))]
pub fn field_of(line: &[u8]) -> Option<FieldId>
    ensures { result ≡ field_of line.now }
{
    if line == b"field gf2".as_slice() {
        return Some(FieldId::Gf2);
    }
    if line == b"field gf256".as_slice() {
        return Some(FieldId::Gf256);
    }
    None
}

/// So many positions below `len`, which is 2^32 for any numbers of 32 bits, a space before each and nothing behind
/// them. Refused are other bytes, and where memory is wanted and not found.
pub fn positions_of(
    alloc: Global,
    count: u32,
    len: u64,
    words: &[u8],
) -> Result<PositionList, LineRefusal>
    ensures { Gives result (positions_of count len words.now) }
{
    let mut positions = Items::new(alloc);
    let mut rest = words;
    for _ in 0..count {
        let Some(word) = after(b" ", rest) else {
            return Err(LineRefusal::Form);
        };
        let Some((position, behind)) = number_at(word) else {
            return Err(LineRefusal::Form);
        };
        if u64::from(position) >= len {
            return Err(LineRefusal::Form);
        }
        positions.push(position)?;
        rest = behind;
    }
    if !rest.is_empty() {
        return Err(LineRefusal::Form);
    }
    Ok(positions)
}
