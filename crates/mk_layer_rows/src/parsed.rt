//! The tokens of sources, and the canonical texts of the programs that sources spell.

use crate::sources::{at, program_of};
use mk_ast::{SourceRefusal, to_text};
use mk_parse::{TokenKind, tokens};
use std::alloc::Global;

/// Whether these are the tokens of a text of at most 100 bytes, each by its kind, where it begins and ends, and
/// its line and column.
fn has_tokens(
    alloc: Global,
    text: &[u8],
    wanted: &[(TokenKind, u32, u32, u32, u32)],
) -> Result<bool, SourceRefusal> {
    if text.len() > 100 {
        return Ok(false);
    }
    let list = tokens(alloc, text)?;
    if list.len() != wanted.len() {
        return Ok(false);
    }
    for (token, (kind, from, to, line, column)) in list.as_slice().iter().zip(wanted) {
        if token.kind != *kind || (token.from, token.to) != (*from, *to) {
            return Ok(false);
        }
        if token.at != at(*line, *column) {
            return Ok(false);
        }
    }
    Ok(true)
}

#[test]
fn tokens_have_kinds_spans_and_places(rt: HostRuntime) -> Result<(), SourceRefusal> {
    let alloc = rt.alloc();
    let assignment = [
        (TokenKind::Word, 0, 1, 1, 1),
        (TokenKind::Symbol, 1, 2, 1, 2),
        (TokenKind::Element, 2, 6, 1, 3),
        (TokenKind::Symbol, 6, 7, 1, 7),
    ];
    assert!(rt; has_tokens(alloc, b"y=0x1f;", &assignment)?);
    let range = [
        (TokenKind::Number, 0, 1, 1, 1),
        (TokenKind::Symbol, 1, 3, 1, 2),
        (TokenKind::Number, 3, 8, 1, 4),
    ];
    assert!(rt; has_tokens(alloc, b"0..65535 # all", &range)?);
    let lines = [(TokenKind::Word, 4, 5, 2, 2)];
    assert!(rt; has_tokens(alloc, b"#;\n\ta", &lines)?);
    // A point alone begins no token.
    let point = tokens(alloc, b"0..5\n\n2.3").err();
    assert_eq!(rt; point, Some(SourceRefusal::Syntax(at(3, 2))));
    Ok(())
}

#[test]
fn programs_have_canonical_texts(rt: HostRuntime) -> Result<(), SourceRefusal> {
    let alloc = rt.alloc();
    let rows = [
        ("field gf2;output y ;", "field gf2;\noutput y;\n"),
        // The brackets that are needed stay: of a sum in a product, and of a chain in a chain.
        (
            "field gf2; for i in 0..3{y[(i)]=((y+0x1F))*sq((y)) # all\n;}",
            "field gf2;\nfor i in 0..3 {\n  y[i] = (y + 0x1f) * sq(y);\n}\n",
        ),
        (
            "field gf2;y[(3)*(i%5)]=(a*b)+(c+d);",
            "field gf2;\ny[3 * (i % 5)] = a * b + (c + d);\n",
        ),
        (
            "field gf2;for i in 0..3 { } y=a; y=a+b*c;# all",
            "field gf2;\nfor i in 0..3 {\n}\ny = a;\ny = a + b * c;\n",
        ),
    ];
    for (text, wanted) in rows {
        let program = program_of(alloc, text)?;
        let written = to_text(alloc, &program)?;
        assert!(rt; written.as_slice() == wanted.as_bytes(), "{text}");
    }
    Ok(())
}

#[test]
fn brackets_of_all_kinds_are_counted(rt: HostRuntime) {
    // A brace, a bracket and 62 parentheses, and one more.
    let most =
        "field gf2;for i in 0..1{y[((((((((((((((((((((((((((((((((((((((((((((((((((((((((((((((i";
    let more =
        "field gf2;for i in 0..1{y[(((((((((((((((((((((((((((((((((((((((((((((((((((((((((((((((i";
    let rows = [(most, at(1, 90)), (more, at(1, 89))];
    for (text, place) in rows {
        let refusal = program_of(rt.alloc(), text).err();
        assert_eq!(rt; refusal, Some(SourceRefusal::Syntax(place)));
    }
}
