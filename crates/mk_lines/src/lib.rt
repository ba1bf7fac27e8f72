//! The lines that texts share, and their words.
//!
//! Each line ends with a line feed. Its words stand one space apart: numbers are decimal and without
//! leading zeros, an element is two lower-case hexadecimal digits, and `V` is an operand, `sK`, `pK` or
//! `bK`, for the secret, the public input or the block of number K. The lines are:
//!
//! - `field gf2` or `field gf256` for a field;
//! - `map H` for an additive map, H being the images of the eight bits, that of bit 0 first;
//! - `block const C`, `block padd V V`, `block pmul V V`, `block psq V`, `block pmap M V`,
//!   `block lift V`, `block add V V`, `block addp V V`, `block scale V V`, `block sq V`, `block map M V`,
//!   `block mul V V` or `block refresh V` for a block;
//! - `claim V` for a claim;
//! - `rnd`, `const C`, `copy P`, `add P P`, `mul P P`, `sq P` or `map M P` for an instruction;
//! - `rnd D`, `const D C`, `copy D S`, `add D S S`, `mul D S S`, `sq D S` or `map D M S` for an
//!   instruction that reads registers and writes the register D;
//! - `out` and the positions of its shares, or their registers, for an output.
//!
//! A call that writes makes one line in place, and takes no memory. One that reads takes the bytes from their front on,
//! and answers `None` where they don't spell what it reads.
#![tactic(auto)]

mod cutting;
mod lines;
mod parse;
mod refusal;
mod words;

pub use cutting::cut;
pub use lines::{field_line, spell_claim, spell_instr, spell_into, spell_map, spell_op, spell_out};
pub use parse::{
    after, field_of, instr_at, instr_of, into_at, into_of, map_of, number_at, number_of, op_of,
    operand_of, positions_of,
};
pub use refusal::LineRefusal;
pub use words::{Line, MOST_LINE, push_number};

#[cfg(test)]
mod tests {
    use super::*;
    use mk_code::Instr;
    use mk_field::AddMap;
    use mk_ssa::{Op, Operand};

    #[test]
    fn lines_are_made_in_place(rt: HostRuntime) {
        let mut line = Line::new();
        let images = [1, 2, 4, 8, 16, 32, 64, 0xa7];
        spell_map(&mut line, AddMap { images });
        assert_eq!(rt; line.as_str(), "map 01020408102040a7\n");
        let arg = Operand::Block(4_294_967_295);
        spell_op(&mut line, Op::Map { map: 7, arg });
        assert_eq!(rt; line.as_str(), "block map 7 b4294967295\n");
        spell_claim(&mut line, Operand::Secret(0));
        assert_eq!(rt; line.as_str(), "claim s0\n");
        spell_claim(&mut line, Operand::Public(10));
        assert_eq!(rt; line.as_str(), "claim p10\n");
        spell_instr(&mut line, Instr::Map { map: 7, from: 10 });
        assert_eq!(rt; line.as_str(), "map 7 10\n");
        spell_into(&mut line, 3, Instr::Map { map: 7, from: 10 });
        assert_eq!(rt; line.as_str(), "map 3 7 10\n");
        spell_into(&mut line, 3, Instr::Const { value: 10 });
        assert_eq!(rt; line.as_str(), "const 3 0a\n");
        spell_out(&mut line, &[4, 15]);
        assert_eq!(rt; line.as_str(), "out 4 15\n");
    }

    #[test]
    fn instructions_that_write_registers_are_read(rt: HostRuntime) {
        let product = Instr::Mul { left: 7, right: 10 };
        assert_eq!(rt; into_of(b"mul 3 7 10"), Some((3, product)));
        assert_eq!(rt;
            into_of(b"const 3 0a"),
            Some((3, Instr::Const { value: 10 }))
        );
        assert_eq!(rt;
            into_of(b"rnd 4294967295"),
            Some((4_294_967_295, Instr::Rnd))
        );
        assert_eq!(rt; into_of(b"rnd 4294967296"), None);
        assert_eq!(rt; into_of(b"sq 3 7 10"), None);
        assert!(rt; into_at(b"sq 3 7 10").is_some());
    }
}
