//! Bundle texts: they are written as they were read, and the first wrong line is named.
ghost use Rattle.std.specs.Prelude.{◌≡◌, ◌≤◌, IfOk, IsTrue, ◌↔◌};
ghost use Rattle.mk_rules.specs.Pairs.{IsPair};
ghost use Rattle.mk_bundle.specs.declared.TheConstants.{TEXT_TOP_ORDER};
ghost use Rattle.mk_bundle.specs.declared.event.Event.TheVariants as event;

use mk_base::{Failed, Items, MemSink, MemSource, Memory};
use mk_bundle::{
    BundleReader, BundleRefusal, Event, Head, MOST_BYTES, StreamRefusal, TEXT_TOP_ORDER,
    collect_bundle, read_bundle, to_text, write_bundle,
};
use mk_code::Instr;
use mk_field::FieldId;
use mk_rules::Bundle;
use mk_ssa::{Op, Operand};
use std::alloc::Global;
use std::test::*;

/// A block and an instruction of each kind.
const KINDS: &str =
    "mask 1\nfield gf256\norder 2\nsecrets 1\npublics 1\nmap 1f3e7cf8f1e3c78f\nblock const 63\nblock padd p0 b0\nblock pmul b0 b1\nblock psq b2\nblock pmap 0 b3\nblock lift b4\nblock add s0 b5\nblock addp b6 p0\nblock scale b7 b0\nblock sq b8\nblock map 0 b9\nblock mul b10 s0\nblock refresh b11\nclaim s0\nclaim b12\ncode\nrnd\nconst 0a\ncopy 3\nadd 0 4\nmul 1 5\nsq 2\nmap 0 9\nout 0 1 2\nout 10 9 8\nend\n";

/// What is read of a text that isn't too long, and whose masking order isn't too high for version 1.
pub(crate) fn read(alloc: Global, text: &str) -> Result<Bundle, BundleRefusal>
    ensures pair { IfOk result (λ b. IsPair b.code b.cert) }
    ensures order { IfOk result (λ b. b.code.order ≤ TEXT_TOP_ORDER) }
{
    if text.len() > MOST_BYTES as usize {
        return Err(BundleRefusal::Memory);
    }
    let bundle = read_bundle(alloc, text.as_bytes())?;
    if bundle.code.order() > TEXT_TOP_ORDER {
        return Err(BundleRefusal::Memory);
    }
    Ok(bundle)
}

#[test]
fn texts_are_read_and_written_again(rt: HostRuntime) -> Result<(), Fail> {
    let least = "mask 1\nfield gf2\norder 8\nsecrets 0\npublics 65536\ncode\nend\n";
    let free =
        "mask 1\nfield gf2\norder 1\nsecrets 1\npublics 0\nblock map 4294967295 b4294967295\nclaim p9\ncode\ncopy 0\nconst 01\nend\n";
    let most = "mask 1\nfield gf2\norder 1\nsecrets 65536\npublics 0\ncode\nend\n";
    for text in [KINDS, least, free, most] {
        let bundle = read(rt.alloc(), text).ok().ok_or("the text is a bundle's")?;
        let again = to_text(rt.alloc(), &bundle.code, &bundle.cert)
            .ok()
            .ok_or("there is memory")?;
        assert!(rt; again.as_slice() == text.as_bytes());
    }
    Ok(())
}

/// The line that is named, or 0 where none is.
fn named(alloc: Global, text: &str) -> u32 {
    match read(alloc, text) {
        Err(BundleRefusal::Form { line }) => line,
        _ => 0,
    }
}

#[test]
fn wrong_lines_are_named(rt: HostRuntime) {
    let cases = [
        // A rest, lines behind the last, and a line twice.
        ("mask 1\nfield gf2\norder 1\n", 4),
        (
            "mask 1\nfield gf2\norder 1\nsecrets 0\npublics 0\ncode\nend\n\n",
            8,
        ),
        (
            "mask 1\nfield gf2\norder 1\nsecrets 0\npublics 0\ncode\ncode\nend\n",
            7,
        ),
        // Other line ends, spaces and letters.
        ("mask 1\r\nfield gf2\r\n", 1),
        ("mask 1 \n", 1),
        (
            "mask 1\nfield gf2\norder 1\nsecrets 0\npublics 0\ncode\nconst 0A\nend\n",
            7,
        ),
        // Numbers that begin with 0, and such of more than 32 bits.
        ("mask 1\nfield gf256\norder 01\n", 3),
        (
            "mask 1\nfield gf256\norder 1\nsecrets 0\npublics 4294967296\n",
            5,
        ),
        (
            "mask 1\nfield gf256\norder 1\nsecrets 0\npublics 0\nblock add s0 s01\n",
            6,
        ),
        (
            "mask 1\nfield gf256\norder 1\nsecrets 0\npublics 0\nblock pmap 4294967296 p0\n",
            6,
        ),
        // An operand too few, and a map behind a block.
        (
            "mask 1\nfield gf256\norder 1\nsecrets 0\npublics 0\nblock add s0\n",
            6,
        ),
        (
            "mask 1\nfield gf256\norder 1\nsecrets 0\npublics 0\nblock const 00\nmap 0102040810204080\n",
            7,
        ),
    ];
    for (text, line) in cases {
        assert_eq!(rt; named(rt.alloc(), text), line);
    }
}

/// A text of so many maps.
fn maps(alloc: Global, count: u32) -> Result<String, Memory> {
    let mut text = String::new(alloc);
    text.push_str("mask 1\nfield gf256\norder 1\nsecrets 1\npublics 0\n")?;
    for _ in 0..count {
        text.push_str("map 0102040810204080\n")?;
    }
    text.push_str("code\nend\n")?;
    Ok(text)
}

#[test]
fn maps_are_read_up_to_their_limit(rt: HostRuntime) -> Result<(), Memory> {
    let most = maps(rt.alloc(), 32_768)?;
    assert!(rt; read(rt.alloc(), most.as_str()).is_ok());
    let more = maps(rt.alloc(), 32_769)?;
    assert_eq!(rt; named(rt.alloc(), more.as_str()), 32_774);
    Ok(())
}

/// The sum of two secrets.
const SUM: &str =
    "mask 1\nfield gf256\norder 1\nsecrets 2\npublics 0\nblock add s0 s1\nclaim b0\ncode\nadd 0 2\nadd 1 3\nout 4 5\nend\n";

/// Its lines but the last.
const SUM_CUT: &str =
    "mask 1\nfield gf256\norder 1\nsecrets 2\npublics 0\nblock add s0 s1\nclaim b0\ncode\nadd 0 2\nadd 1 3\nout 4 5\n";

/// A claim and an output twice.
const SUM_TWICE: &str =
    "mask 1\nfield gf256\norder 1\nsecrets 2\npublics 0\nblock add s0 s1\nclaim b0\nclaim b0\ncode\nadd 0 2\nadd 1 3\nout 4 5\nout 4 5\nend\n";

/// Whether it is the last event.
fn is_last(answered: &Event) -> bool
    ensures { IsTrue result ↔ (answered.now ≡ event.End) }
{
    matches!(answered, Event::End)
}

/// The events of a text, of which at most `most` bytes come at once.
fn events(alloc: Global, text: &str, most: usize) -> Result<Vec<Event>, StreamRefusal>
    requires { 1 ≤ most }
{
    let mut source = MemSource::new(alloc, text.as_bytes(), most, &[])?;
    let mut reader = BundleReader::new(alloc, MOST_BYTES)?;
    let mut events = Vec::new(alloc);
    loop {
        let answered = reader.next(&mut source)?;
        let last = is_last(&answered);
        if events.push(answered).is_err() {
            return Err(StreamRefusal::Memory);
        }
        if last {
            return Ok(events);
        }
    }
}

#[test]
fn events_come_one_by_one(rt: HostRuntime) -> Result<(), StreamRefusal> {
    for (text, count) in [(SUM, 8), (SUM_TWICE, 10), (KINDS, 27)] {
        assert_eq!(rt; events(rt.alloc(), text, 1)?.len(), count);
    }
    Ok(())
}

/// The product of a secret, refreshed, and itself.
const PRODUCT: &str =
    "mask 1\nfield gf2\norder 1\nsecrets 1\npublics 0\nblock refresh s0\nblock mul b0 s0\nclaim b1\ncode\nrnd\nadd 0 2\nadd 1 2\nrnd\nmul 3 1\nadd 5 6\nmul 4 0\nadd 7 8\nmul 3 0\nadd 10 5\nmul 4 1\nadd 12 9\nout 11 13\nend\n";

/// Its instructions.
const INSTRS: [Instr; 12] = [
    Instr::Rnd,
    Instr::Add { left: 0, right: 2 },
    Instr::Add { left: 1, right: 2 },
    Instr::Rnd,
    Instr::Mul { left: 3, right: 1 },
    Instr::Add { left: 5, right: 6 },
    Instr::Mul { left: 4, right: 0 },
    Instr::Add { left: 7, right: 8 },
    Instr::Mul { left: 3, right: 0 },
    Instr::Add { left: 10, right: 5 },
    Instr::Mul { left: 4, right: 1 },
    Instr::Add { left: 12, right: 9 },
];

/// Its events.
fn events_of_product(alloc: Global) -> Result<Vec<Event>, Fail> {
    let mut outs = Items::new(alloc);
    outs.push(11).ok().ok_or("there is memory")?;
    outs.push(13).ok().ok_or("there is memory")?;
    let mut events = vec![in alloc;
        Event::Head(Head {
            field: FieldId::Gf2,
            order: 1,
            secrets: 1,
            publics: 0,
            maps: Items::new(alloc),
        }),
        Event::Block(Op::Refresh {
            arg: Operand::Secret(0),
        }),
        Event::Block(Op::Mul {
            left: Operand::Block(0),
            right: Operand::Secret(0),
        }),
        Event::Claim(Operand::Block(1)),
        Event::Code,
    ]?;
    for instr in INSTRS {
        events.push(Event::Instr(instr))?;
    }
    events.push(Event::Out(outs))?;
    events.push(Event::End)?;
    Ok(events)
}

/// Whether both are the same event.
fn is_same(one: &Event, other: &Event) -> bool {
    match (one, other) {
        (Event::Head(one), Event::Head(other)) => {
            one.field == other.field
                && one.order == other.order
                && one.secrets == other.secrets
                && one.publics == other.publics
                && one.maps.as_slice() == other.maps.as_slice()
        }
        (Event::Block(one), Event::Block(other)) => one == other,
        (Event::Claim(one), Event::Claim(other)) => one == other,
        (Event::Code, Event::Code) => true,
        (Event::Instr(one), Event::Instr(other)) => one == other,
        (Event::Out(one), Event::Out(other)) => one.as_slice() == other.as_slice(),
        (Event::End, Event::End) => true,
        _ => false,
    }
}

#[test]
fn events_are_the_same_in_any_pieces(rt: HostRuntime) -> Result<(), Fail> {
    let wanted = events_of_product(rt.alloc())?;
    for most in [1, 2, 3, 4096] {
        let read = events(rt.alloc(), PRODUCT, most)
            .ok()
            .ok_or("the text is a bundle's")?;
        assert_eq!(rt; read.len(), wanted.len());
        for (one, other) in read.iter().zip(&wanted) {
            assert!(rt; is_same(one, other), "{one:?} in pieces of {most}");
        }
    }
    Ok(())
}

/// Why a text is not collected of a source that gives so many bytes at once and fails at these calls.
fn refused(
    alloc: Global,
    text: &str,
    most: usize,
    fail: &[u32],
    limit: u32,
) -> Option<StreamRefusal>
    requires { 1 ≤ most }
{
    let mut source = match MemSource::new(alloc, text.as_bytes(), most, fail) {
        Ok(source) => source,
        Err(_) => return Some(StreamRefusal::Memory),
    };
    match &collect_bundle(alloc, &mut source, limit) {
        Ok(_) => None,
        Err(refusal) => Some(*refusal),
    }
}

#[test]
fn sources_are_refused(rt: HostRuntime) {
    // A number of 200 digits, a line that lacks its end, and bytes behind the last line.
    let long =
        "mask 1\nfield gf2\norder 1\nsecrets 11111111111111111111111111111111111111111111111111111111111111111111111111111111111111111111111111111111111111111111111111111111111111111111111111111111111111111111111111111111111111111111111111111111\n";
    let inside = "mask 1\nfield gf2\norder 1\nsecrets 0\npublics 0\ncode\nen";
    let behind = "mask 1\nfield gf2\norder 1\nsecrets 0\npublics 0\ncode\nend\nend\n";
    for (text, fail, limit, wanted) in [
        (SUM_CUT, 2, MOST_BYTES, Some(StreamRefusal::Fault)),
        (
            SUM_CUT,
            0,
            MOST_BYTES,
            Some(StreamRefusal::Form { line: 12 }),
        ),
        (long, 0, MOST_BYTES, Some(StreamRefusal::Form { line: 4 })),
        (inside, 0, MOST_BYTES, Some(StreamRefusal::Form { line: 7 })),
        (behind, 0, MOST_BYTES, Some(StreamRefusal::Form { line: 8 })),
        // A limit inside the last line, at its line feed, and behind it.
        (SUM, 0, 103, Some(StreamRefusal::TooLong)),
        (SUM, 0, 104, Some(StreamRefusal::TooLong)),
        (SUM, 0, 105, None),
    ] {
        assert_eq!(rt; refused(rt.alloc(), text, 4096, &[fail], limit), wanted);
    }
}

#[test]
fn wrong_texts_are_read_to_their_end(rt: HostRuntime) {
    // The first line is wrong, and there are 25 bytes, of which eight come at once.
    let text = "mask 3\nfield gf2\norder 1\n";
    for (fail, limit, wanted) in [
        (0, 25, StreamRefusal::Form { line: 1 }),
        (3, 25, StreamRefusal::Fault),
        (5, 25, StreamRefusal::Fault),
        (0, 24, StreamRefusal::TooLong),
        (5, 24, StreamRefusal::TooLong),
    ] {
        assert_eq!(rt; refused(rt.alloc(), text, 8, &[fail], limit), Some(wanted));
    }
}

#[test]
fn a_sink_that_fails_took_a_prefix(rt: HostRuntime) -> Result<(), Fail> {
    let bundle = read(rt.alloc(), SUM).ok().ok_or("the text is a bundle's")?;
    for (fail, wanted, taken) in [(0, Ok(()), 105), (3, Err(Failed), 14)] {
        let mut sink = MemSink::new(rt.alloc(), 4096, 7, &[fail])
            .ok()
            .ok_or("there is memory")?;
        assert_eq!(rt; write_bundle(&mut sink, &bundle.code, &bundle.cert), wanted);
        assert_eq!(rt; sink.taken().len(), taken);
    }
    Ok(())
}
