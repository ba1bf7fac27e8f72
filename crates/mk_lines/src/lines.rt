//! The lines as they are written. Each is made in place of what the line was before.

ghost use Rattle.std.specs.Prelude.{◌≡◌, ◌≤◌, ◌<◌, ◌+◌, ◌*◌, length, ◌^◌, ◌++◌, codes, flat_map, decimal};
ghost use Rattle.std.specs.List.{AllByRecursion};
ghost use Rattle.arrayvec.specs.ArrayString.{array_string_len};
ghost use Rattle.mk_base.specs.declared.TheConstants.{TOP_ORDER};
ghost use Rattle.mk_lines.specs.declared.words.TheConstants.{MOST_LINE};
ghost use Rattle.mk_lines.specs.Words.{operand_word};
ghost use Rattle.mk_field.specs.Digits.{hex_byte};
ghost use Rattle.mk_lines.specs.CertLines.{block_line, pair_words, mapped_words, op_line, claim_line};
ghost use Rattle.mk_lines.specs.CodeLines.{field_line, map_line, instr_line, into_line, IntoFits, position_word, out_line};
ghost use Rattle.mk_ssa.specs.Widths.{OperandFits, OpFits};
ghost use Rattle.mk_field.specs.Maps.{MapFits};

use crate::words::{Line, push_hex, push_number, push_operand};
use mk_code::Instr;
use mk_field::{AddMap, FieldId};
use mk_ssa::{Op, Operand};

/// Makes it the line of a map: its images, that of bit 0 first.
pub fn spell_map(line: &mut Line, map: AddMap)
    ensures text { line.new.bytes ≡ map_line map }
    ensures fits { MapFits map }
{
    line.clear();
    line.push_str("map ");
    push_images(line, &map.images);
    line.push_str("\n");
}

/// Appends elements, with nothing between them.
fn push_images(line: &mut Line, images: &[u8; 8])
    requires { array_string_len line.old + 20 ≤ MOST_LINE }
    ensures text { line.new.bytes ≡ line.old.bytes ++ flat_map hex_byte images.now }
    ensures fits { (length images.now ≡ 8) × AllByRecursion (λ b. b < 256) images.now }
    ensures len { array_string_len line.new ≡ array_string_len line.old + 16 }
{
    for image in images {
        push_hex(line, *image);
    }
}

/// Makes it the line of a block.
pub fn spell_op(line: &mut Line, op: Op)
    ensures text { line.new.bytes ≡ op_line op }
    ensures fits { OpFits op }
{
    let kind = op.word();
    match op {
        Op::Const { value } => spell_constant(line, kind, value),
        Op::PubSq { arg } | Op::Lift { arg } | Op::Sq { arg } | Op::Refresh { arg } => {
            spell_single(line, kind, arg)
        }
        Op::PubMap { map, arg } | Op::Map { map, arg } => spell_mapped(line, kind, map, arg),
        Op::PubAdd { left, right }
        | Op::PubMul { left, right }
        | Op::Add { left, right }
        | Op::AddPub { left, right }
        | Op::Scale { left, right }
        | Op::Mul { left, right } => spell_pair(line, kind, left, right),
    }
}

/// Makes it the front of the line of a block of this kind.
fn begin_block(line: &mut Line, kind: &str)
    requires { length kind.now ≤ 16 }
    ensures text { line.new.bytes ≡ codes "block " ++ kind.now ++ codes " " }
    ensures len { array_string_len line.new ≤ 23 }
{
    line.clear();
    line.push_str("block ");
    line.push_str(kind);
    line.push_str(" ");
}

/// Makes it the line of a block of this kind with an element.
fn spell_constant(line: &mut Line, kind: &str, value: u8)
    requires { length kind.now ≤ 16 }
    ensures text { line.new.bytes ≡ block_line kind.now (hex_byte value) }
    ensures fits { value < 256 }
{
    begin_block(line, kind);
    push_hex(line, value);
    line.push_str("\n");
}

/// Makes it the line of a block of this kind with one operand.
fn spell_single(line: &mut Line, kind: &str, arg: Operand)
    requires { length kind.now ≤ 16 }
    ensures text { line.new.bytes ≡ block_line kind.now (operand_word arg) }
    ensures fits { OperandFits arg }
{
    begin_block(line, kind);
    push_operand(line, arg);
    line.push_str("\n");
}

/// Makes it the line of a block of this kind with two operands.
fn spell_pair(line: &mut Line, kind: &str, left: Operand, right: Operand)
    requires { length kind.now ≤ 16 }
    ensures text { line.new.bytes ≡ block_line kind.now (pair_words left right) }
    ensures fits { OperandFits left × OperandFits right }
{
    begin_block(line, kind);
    push_operand(line, left);
    line.push_str(" ");
    push_operand(line, right);
    line.push_str("\n");
}

/// Makes it the line of a block of this kind with the number of a map and an operand.
fn spell_mapped(line: &mut Line, kind: &str, map: u32, arg: Operand)
    requires { length kind.now ≤ 16 }
    ensures text { line.new.bytes ≡ block_line kind.now (mapped_words map arg) }
    ensures fits { (map < 2 ^ 32) × OperandFits arg }
{
    begin_block(line, kind);
    push_number(line, map);
    line.push_str(" ");
    push_operand(line, arg);
    line.push_str("\n");
}

/// Makes it the line of a claim.
pub fn spell_claim(line: &mut Line, value: Operand)
    ensures text { line.new.bytes ≡ claim_line value }
    ensures fits { OperandFits value }
{
    line.clear();
    line.push_str("claim ");
    push_operand(line, value);
    line.push_str("\n");
}

/// Makes it the line of an instruction.
pub fn spell_instr(line: &mut Line, instr: Instr)
    ensures { line.new.bytes ≡ instr_line instr }
{
    match instr {
        Instr::Rnd => {
            line.clear();
            line.push_str("rnd\n");
        }
        Instr::Const { value } => spell_element(line, value),
        Instr::Copy { from } => spell_number(line, "copy ", from),
        Instr::Add { left, right } => spell_numbers(line, "add ", left, right),
        Instr::Mul { left, right } => spell_numbers(line, "mul ", left, right),
        Instr::Sq { from } => spell_number(line, "sq ", from),
        Instr::Map { map, from } => spell_numbers(line, "map ", map, from),
    }
}

/// Makes it the line of an instruction that writes this register.
pub fn spell_into(line: &mut Line, to: u32, instr: Instr)
    ensures text { line.new.bytes ≡ into_line to instr }
    ensures fits { IntoFits to instr }
{
    match instr {
        Instr::Rnd => spell_number(line, "rnd ", to),
        Instr::Const { value } => spell_element_into(line, to, value),
        Instr::Copy { from } => spell_numbers(line, "copy ", to, from),
        Instr::Add { left, right } => spell_three_numbers(line, "add ", to, left, right),
        Instr::Mul { left, right } => spell_three_numbers(line, "mul ", to, left, right),
        Instr::Sq { from } => spell_numbers(line, "sq ", to, from),
        Instr::Map { map, from } => spell_three_numbers(line, "map ", to, map, from),
    }
}

/// Makes it the line of the instruction that writes an element to this register.
fn spell_element_into(line: &mut Line, to: u32, value: u8)
    ensures { line.new.bytes ≡ codes "const " ++ decimal to ++ codes " " ++ hex_byte value ++ codes "\n" }
{
    line.clear();
    line.push_str("const ");
    push_number(line, to);
    line.push_str(" ");
    push_hex(line, value);
    line.push_str("\n");
}

/// Makes it the line of the instruction that gives an element.
fn spell_element(line: &mut Line, value: u8)
    ensures { line.new.bytes ≡ codes "const " ++ hex_byte value ++ codes "\n" }
{
    line.clear();
    line.push_str("const ");
    push_hex(line, value);
    line.push_str("\n");
}

/// Makes it a line of a name and a number.
fn spell_number(line: &mut Line, name: &str, number: u32)
    requires { length name.now ≤ 16 }
    ensures { line.new.bytes ≡ name.now ++ decimal number ++ codes "\n" }
{
    line.clear();
    line.push_str(name);
    push_number(line, number);
    line.push_str("\n");
}

/// Makes it a line of a name and two numbers.
fn spell_numbers(line: &mut Line, name: &str, left: u32, right: u32)
    requires { length name.now ≤ 16 }
    ensures { line.new.bytes ≡ name.now ++ decimal left ++ codes " " ++ decimal right ++ codes "\n" }
{
    line.clear();
    line.push_str(name);
    push_number(line, left);
    line.push_str(" ");
    push_number(line, right);
    line.push_str("\n");
}

/// Makes it a line of a name and three numbers.
fn spell_three_numbers(line: &mut Line, name: &str, first: u32, second: u32, third: u32)
    requires { length name.now ≤ 16 }
    ensures { line.new.bytes ≡ name.now ++ decimal first ++ codes " " ++ decimal second ++ codes " " ++ decimal third ++ codes "\n" }
{
    line.clear();
    line.push_str(name);
    push_number(line, first);
    line.push_str(" ");
    push_number(line, second);
    line.push_str(" ");
    push_number(line, third);
    line.push_str("\n");
}

/// Makes it the line of an output: the positions of its shares, or their registers.
pub fn spell_out(line: &mut Line, positions: &[u32])
    requires { length positions.now ≤ TOP_ORDER + 1 }
    ensures text { line.new.bytes ≡ out_line positions.now }
    ensures fits { AllByRecursion (λ p. p < 2 ^ 32) positions.now }
{
    line.clear();
    line.push_str("out");
    push_positions(line, positions);
    line.push_str("\n");
}

/// Appends positions in the trace, a space before each.
fn push_positions(line: &mut Line, positions: &[u32])
    requires few { length positions.now ≤ TOP_ORDER + 1 }
    requires room { array_string_len line.old ≤ 3 }
    ensures text { line.new.bytes ≡ line.old.bytes ++ flat_map position_word positions.now }
    ensures fits { AllByRecursion (λ p. p < 2 ^ 32) positions.now }
    ensures len { array_string_len line.new ≤ array_string_len line.old + 11 * length positions.now }
{
    for position in positions {
        line.push_str(" ");
        push_number(line, *position);
    }
}

/// The line of a field.
pub fn field_line(field: FieldId) -> &'static str
    ensures line { result.now ≡ field_line field }
    ensures short { length result.now ≤ 12 }
{
    match field {
        FieldId::Gf2 => "field gf2\n",
        FieldId::Gf256 => "field gf256\n",
    }
}
