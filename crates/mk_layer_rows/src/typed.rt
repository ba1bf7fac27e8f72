//! Programs that are well typed, and the first offences of others.

use crate::sources::{at, typed_of};
use mk_ast::SourceRefusal;

#[test]
fn what_is_well_typed_is_taken(rt: HostRuntime) {
    let texts = [
        "field gf2;\nsecret s;\noutput y;\nlocal secret t;\nt = s;\ny = t * 0x01;",
        // A public index of a public array, and a public value into a public variable.
        "field gf2;\nlocal public q[2];\nfor i in 0..2 { q[i] = q[i * 2 % 2]; }",
        // A loop's name is free again behind the loop.
        "field gf2;\noutput y;\nfor i in 0..2 { }\nfor i in 0..2 { y = 0x00; }",
        "field gf256;\noutput y;\ny = 0x02;",
        "field gf256;\nmap m = 0x01, 0x02, 0x03, 0x04, 0x05, 0x06, 0x07, 0x08;\noutput y;\ny = m(y);",
    ];
    for text in texts {
        assert!(rt; typed_of(rt.alloc(), text).is_ok(), "{text}");
    }
}

#[test]
fn names_that_are_not_free_or_not_there_are_refused(rt: HostRuntime) {
    let rows = [
        (
            "field gf2;\noutput y;\ny = z(y);",
            SourceRefusal::Unknown(at(3, 5)),
        ),
        (
            "field gf2;\noutput y[2];\ny[i] = y[0];",
            SourceRefusal::Unknown(at(3, 3)),
        ),
        (
            "field gf2;\nfor i in 0..1 { for i in 0..1 { } }",
            SourceRefusal::Twice(at(2, 21)),
        ),
        (
            "field gf2;\npublic p;\np = p;",
            SourceRefusal::AssignInput(at(3, 1)),
        ),
        (
            "field gf2;\nmap m = 0x01, 0x01, 0x01, 0x01, 0x01, 0x01, 0x01, 0x01;",
            SourceRefusal::MapForm(at(2, 5)),
        ),
    ];
    for (text, refusal) in rows {
        assert_eq!(rt; typed_of(rt.alloc(), text).err(), Some(refusal));
    }
}

#[test]
fn names_of_other_kinds_are_refused(rt: HostRuntime) {
    let rows = [
        ("field gf2;\noutput y;\nfor i in 0..1 { y = i; }", 3, 21),
        ("field gf2;\noutput y;\nfor i in 0..1 { y = i(y); }", 3, 21),
        ("field gf2;\noutput y;\nfor i in 0..1 { i = y; }", 3, 17),
        ("field gf2;\noutput y[2];\ny = 0x00;", 3, 1),
        ("field gf2;\noutput y;\ny = y(y);", 3, 5),
        ("field gf2;\noutput y[2];\noutput z;\ny[z] = z;", 4, 3),
        // An input without its index: of two offences at one place the one of the least number.
        ("field gf2;\npublic p[2];\np = 0x00;", 3, 1),
        // A map without an argument, as a target, and in an index.
        (
            "field gf256;\nmap m = 0x01, 0x02, 0x03, 0x04, 0x05, 0x06, 0x07, 0x08;\noutput y;\ny = m;",
            4,
            5,
        ),
        (
            "field gf256;\nmap m = 0x01, 0x02, 0x03, 0x04, 0x05, 0x06, 0x07, 0x08;\noutput y;\nm = y;",
            4,
            1,
        ),
        (
            "field gf256;\nmap m = 0x01, 0x02, 0x03, 0x04, 0x05, 0x06, 0x07, 0x08;\noutput y[2];\ny[m] = 0x00;",
            4,
            3,
        ),
    ];
    for (text, line, column) in rows {
        let refusal = SourceRefusal::Kind(at(line, column));
        assert_eq!(rt; typed_of(rt.alloc(), text).err(), Some(refusal));
    }
}

#[test]
fn shared_values_in_public_variables_are_refused(rt: HostRuntime) {
    let rows = [
        (
            "field gf2;\noutput y;\nlocal public q;\nq = 0x01 + y;",
            4,
            1,
        ),
        (
            "field gf2;\nlocal secret t;\nlocal public q;\nq = 0x01 * 0x00 * t;",
            4,
            1,
        ),
        (
            "field gf2;\nlocal secret t;\nlocal public q;\nq = sq(t);",
            4,
            1,
        ),
        (
            "field gf256;\nmap m = 0x01, 0x02, 0x03, 0x04, 0x05, 0x06, 0x07, 0x08;\nsecret s;\nlocal public q;\nq = m(s);",
            5,
            1,
        ),
        // A name in an index shares nothing: it is the index that is refused.
        (
            "field gf2;\nsecret s;\npublic p[2];\nlocal public q;\nq = p[s];",
            5,
            7,
        ),
    ];
    for (text, line, column) in rows {
        let refusal = SourceRefusal::Kind(at(line, column));
        assert_eq!(rt; typed_of(rt.alloc(), text).err(), Some(refusal));
    }
}
