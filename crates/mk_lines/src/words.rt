ghost use Rattle.std.specs.Prelude.{◌≡◌, ◌≤◌, ◌+◌, ◌<◌, ◌++◌, [], ◌∷◌, length, decimal};
ghost use Rattle.arrayvec.specs.ArrayString.{array_string_len};
ghost use Rattle.mk_lines.specs.declared.words.TheConstants.{MOST_LINE};
ghost use Rattle.mk_lines.specs.Words.{operand_word};
ghost use Rattle.mk_field.specs.Digits.{hex_digit, hex_byte};
ghost use Rattle.mk_ssa.specs.Widths.{OperandFits};

use arrayvec::ArrayString;
use itoa::Buffer;
use mk_ssa::Operand;

/// No line of these texts has more bytes.
pub const MOST_LINE: usize = 192;

/// A line, which is made in place, so that it takes no memory.
pub type Line = ArrayString<MOST_LINE>;

/// Appends a number, which has at most ten digits.
pub fn push_number(line: &mut Line, number: u32)
    requires { array_string_len line.old + 10 ≤ MOST_LINE }
    ensures text { line.new.bytes ≡ line.old.bytes ++ decimal number }
    ensures len { array_string_len line.new ≤ array_string_len line.old + 10 }
{
    let mut digits = Buffer::new();
    line.push_str(digits.format(number));
}

/// A number below 16 as a digit.
fn hex_digit(value: u8) -> char
    requires { value < 16 }
    ensures digit { result ≡ hex_digit value }
    ensures ascii { result < 128 }
{
    if value < 10 {
        return (b'0' + value) as char;
    }
    (b'a' - 10 + value) as char
}

/// Appends a character of one byte.
fn push_ascii(line: &mut Line, character: char)
    requires ascii { character < 128 }
    requires room { array_string_len line.old + 4 ≤ MOST_LINE }
    ensures text { line.new.bytes ≡ line.old.bytes ++ character ∷ [] }
    ensures len { array_string_len line.new ≡ array_string_len line.old + 1 }
{
    let mut bytes = [0; 4];
    line.push_str(character.encode_utf8(&mut bytes));
}

/// Appends an element, as two digits.
pub(crate) fn push_hex(line: &mut Line, value: u8)
    requires { array_string_len line.old + 5 ≤ MOST_LINE }
    ensures text { line.new.bytes ≡ line.old.bytes ++ hex_byte value }
    ensures len { array_string_len line.new ≡ array_string_len line.old + 2 }
{
    push_ascii(line, hex_digit(value / 16));
    push_ascii(line, hex_digit(value % 16));
}

/// Appends an operand: a letter for its kind, and its number.
pub(crate) fn push_operand(line: &mut Line, operand: Operand)
    requires { array_string_len line.old + 11 ≤ MOST_LINE }
    ensures text { line.new.bytes ≡ line.old.bytes ++ operand_word operand }
    ensures fits { OperandFits operand }
    ensures len { array_string_len line.new ≤ array_string_len line.old + 11 }
{
    match operand {
        Operand::Secret(number) => push_kind(line, "s", number),
        Operand::Public(number) => push_kind(line, "p", number),
        Operand::Block(number) => push_kind(line, "b", number),
    }
}

/// Appends a letter and a number.
fn push_kind(line: &mut Line, kind: &str, number: u32)
    requires room { array_string_len line.old + 11 ≤ MOST_LINE }
    requires letter { length kind.now ≡ 1 }
    ensures text { line.new.bytes ≡ line.old.bytes ++ kind.now ++ decimal number }
    ensures len { array_string_len line.new ≤ array_string_len line.old + 11 }
{
    line.push_str(kind);
    push_number(line, number);
}
