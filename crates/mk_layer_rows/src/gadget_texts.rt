//! Gadget texts: they are read, or the first wrong line is named.
ghost use Rattle.std.specs.Prelude.{IfOk};
ghost use Rattle.mk_pad.specs.Form.{IsGadget};

use mk_base::Memory;
use mk_code::Instr;
use mk_field::FieldId;
use mk_lib::{LibRefusal, MOST_GADGET_BYTES, read_gadget, texts_differ};
use mk_pad::{Gadget, GadgetKind, right_value};
use std::alloc::Global;
use std::test::*;

/// What is read of a text that isn't too long.
fn read(alloc: Global, text: &str) -> Result<Gadget, LibRefusal>
    ensures { IfOk result IsGadget }
{
    if text.len() > MOST_GADGET_BYTES as usize {
        return Err(LibRefusal::Memory);
    }
    read_gadget(alloc, text.as_bytes())
}

/// The line that is named, or 0 where none is.
fn named(alloc: Global, text: &str) -> u32 {
    match read(alloc, text) {
        Err(LibRefusal::Gadget { line }) => line,
        _ => 0,
    }
}

#[test]
fn gadgets_are_read_or_the_first_wrong_line_is_named(rt: HostRuntime) {
    let cases = [
        // Two products of bits, a refresh of three shares, and one of two that is wrong: all are gadgets.
        (
            "gadget mul\nfield gf2\norder 1\nrnd\nmul 0 3\nadd 4 5\nmul 1 2\nadd 6 7\nmul 0 2\nadd 9 4\nmul 1 3\nadd 11 8\nout 10 12\nend\n",
            0,
        ),
        (
            "gadget mul\nfield gf2\norder 1\nrnd\nmul 0 3\nmul 1 2\nadd 5 6\nadd 4 7\nmul 0 2\nadd 9 4\nmul 1 3\nadd 11 8\nout 10 12\nend\n",
            0,
        ),
        (
            "gadget refresh\nfield gf2\norder 2\nrnd\nadd 0 3\nadd 1 3\nrnd\nadd 4 6\nadd 2 6\nout 7 5 8\nend\n",
            0,
        ),
        (
            "gadget refresh\nfield gf2\norder 1\nrnd\nrnd\nout 2 3\nend\n",
            0,
        ),
        // Outs that repeat, that are shares, that are no positions, and that are too few.
        (
            "gadget refresh\nfield gf2\norder 1\nrnd\nrnd\nout 2 2\nend\n",
            6,
        ),
        (
            "gadget refresh\nfield gf2\norder 1\nrnd\nrnd\nout 1 2\nend\n",
            6,
        ),
        (
            "gadget refresh\nfield gf2\norder 1\nrnd\nrnd\nout 3 4\nend\n",
            6,
        ),
        ("gadget refresh\nfield gf2\norder 1\nrnd\nout 2\nend\n", 5),
        // A kind and orders that there aren't.
        ("gadget add\nfield gf2\n", 1),
        ("gadget mul\nfield gf2\norder 9\n", 3),
        ("gadget mul\nfield gf2\norder 0\n", 3),
        // A map, an element of another field, and a position that isn't earlier.
        ("gadget refresh\nfield gf256\norder 1\nmap 0 1\n", 4),
        ("gadget refresh\nfield gf2\norder 1\nrnd\nconst 02\n", 5),
        ("gadget refresh\nfield gf2\norder 1\nadd 0 2\n", 4),
        // No outs, an instruction behind them, and bytes behind the last line.
        ("gadget refresh\nfield gf2\norder 1\nrnd\nrnd\nend\n", 6),
        (
            "gadget refresh\nfield gf2\norder 1\nrnd\nrnd\nout 2 3\nrnd\n",
            7,
        ),
        (
            "gadget refresh\nfield gf2\norder 1\nrnd\nrnd\nout 2 3\nend\n\n",
            8,
        ),
        (
            "gadget refresh\nfield gf2\norder 1\nrnd\nrnd\nout 2 3\nend\nx",
            8,
        ),
        // The last line feed is missing, lines are missing, and all of them are.
        (
            "gadget refresh\nfield gf2\norder 1\nrnd\nrnd\nout 2 3\nend",
            7,
        ),
        ("gadget refresh\nfield gf2\n", 3),
        ("", 1),
    ];
    for (text, line) in cases {
        assert_eq!(rt; named(rt.alloc(), text), line);
    }
}

/// The text of a refresh of six shares by so many random elements.
fn randoms(alloc: Global, count: u32) -> Result<String, Memory> {
    let mut text = String::new(alloc);
    text.push_str("gadget refresh\nfield gf2\norder 5\n")?;
    for _ in 0..count {
        text.push_str("rnd\n")?;
    }
    text.push_str("out 6 7 8 9 10 11\nend\n")?;
    Ok(text)
}

#[test]
fn instructions_are_read_up_to_their_limit(rt: HostRuntime) -> Result<(), Memory> {
    for (count, line) in [(50, 0), (512, 0), (513, 516)] {
        let text = randoms(rt.alloc(), count)?;
        assert_eq!(rt; named(rt.alloc(), text.as_str()), line);
    }
    Ok(())
}

#[test]
fn what_is_read_is_the_gadget(rt: HostRuntime) -> Result<(), Fail> {
    texts_differ();
    let text = "gadget refresh\nfield gf256\norder 1\nrnd\nsq 2\nconst 0a\ncopy 0\nout 5 3\nend\n";
    let gadget = read(rt.alloc(), text).ok().ok_or("the text is a gadget's")?;
    assert_eq!(rt; gadget.kind(), GadgetKind::Refresh);
    assert_eq!(rt; gadget.field(), FieldId::Gf256);
    assert_eq!(rt; gadget.order(), 1);
    let instrs = [
        Instr::Rnd,
        Instr::Sq { from: 2 },
        Instr::Const { value: 0x0a },
        Instr::Copy { from: 0 },
    ];
    assert!(rt; gadget.instrs().as_slice() == instrs.as_slice());
    assert!(rt; gadget.outs().as_slice() == [5, 3].as_slice());
    Ok(())
}

#[test]
fn the_value_of_what_is_read_is_decided(rt: HostRuntime) -> Result<(), Fail> {
    let alloc = rt.alloc();
    let text =
        "gadget refresh\nfield gf2\norder 2\nrnd\nadd 0 3\nadd 1 3\nrnd\nadd 4 6\nadd 2 6\nout 7 5 8\nend\n";
    let gadget = read(alloc, text).ok().ok_or("the text is a gadget's")?;
    assert_eq!(rt; right_value(alloc, &gadget), Ok(true));
    Ok(())
}
