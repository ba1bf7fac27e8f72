//! Failing devices, damaged bundles and sources at the limits. Each table is made from a text.

use crate::outside::{CALM, Outside, WIDE};
use crate::row::{answered, words_of};
use crate::texts::{REFRESHED, SUM, SUM_BUNDLE, SUM_REGISTERS};
use mk_base::{DropSink, MemSink, MemSource, Memory, Sink, Source, SureSource};
use mk_top::{MOST_SOURCE_BYTES, Status, mask_main};
use std::alloc::Global;
use std::test::*;

/// How many bytes a device gives or takes at each call.
const PIECE: usize = 7;

/// The first line of a fault about a line of a bundle.
fn bundle_line(alloc: Global, line: usize) -> Result<String, Memory> {
    let mut text = String::new(alloc);
    write!(text, "41 bundle {line}\n")?;
    Ok(text)
}

/// Whether the next call of a source fails.
fn read_fails(src: &mut MemSource) -> bool {
    let mut byte = [0; 1];
    src.read(&mut byte).is_err()
}

/// Whether the next call of a sink fails.
fn write_fails(sink: &mut MemSink) -> bool {
    sink.write(b"x").is_err()
}

/// Whether a command answers a read fault, writes nothing and reads no more, where the read of this number fails.
fn fails_to_read(alloc: Global, words: &[&str], input: &str, call: u32) -> Result<bool, Memory> {
    // The read behind it is left to this test.
    let reads = [call, call.saturating_add(1)];
    let outside = Outside {
        piece: PIECE,
        reads: &reads,
        ..CALM
    };
    let mut given = answered(alloc, &outside, words, input.as_bytes())?;
    Ok(
        given.status == Status::ReadFault
            && given.out.taken().is_empty()
            && given.err.taken() == "6 read fault\n".as_bytes()
            && read_fails(&mut given.src),
    )
}

/// Whether a command answers a write fault, writes what came before and no more, where the write of this number fails.
fn fails_to_write(
    alloc: Global,
    words: &[&str],
    input: &str,
    text: &str,
    call: u32,
) -> Result<bool, Memory> {
    // The write behind it is left to this test.
    let writes = [call, call.saturating_add(1)];
    let outside = Outside {
        piece: PIECE,
        writes: &writes,
        ..CALM
    };
    let mut given = answered(alloc, &outside, words, input.as_bytes())?;
    let taken = (call as usize).saturating_sub(1).saturating_mul(PIECE);
    let front = text.as_bytes().get(..taken).unwrap_or(b"");
    Ok(
        given.status == Status::WriteFault
            && given.out.taken() == front
            && given.err.taken() == "7 write fault\n".as_bytes()
            && write_fails(&mut given.out),
    )
}

/// Whether `check` of nothing tells a front of its fault alone, with its own status, where the call of this number of the
/// error output fails.
fn fails_to_tell(alloc: Global, call: u32) -> Result<bool, Memory> {
    let tells = [call, call.saturating_add(1)];
    let outside = Outside {
        piece: PIECE,
        tells: &tells,
        ..CALM
    };
    let mut given = answered(alloc, &outside, &["check"], b"")?;
    let taken = (call as usize).saturating_sub(1).saturating_mul(PIECE);
    let front = UNTOLD.as_bytes().get(..taken).unwrap_or(UNTOLD.as_bytes());
    Ok(
        given.status == Status::Bundle
            && given.out.taken().is_empty()
            && given.err.taken() == front
            && write_fails(&mut given.err),
    )
}

/// Whether a command is carried out and writes its text by so many reads and writes, and tells nothing, where each device
/// would fail at its next call.
fn ends_at(
    alloc: Global,
    words: &[&str],
    input: &str,
    text: &str,
    (reads, writes): (u32, u32),
) -> Result<bool, Memory> {
    let behind_reads = [reads.saturating_add(1)];
    let behind_writes = [writes.saturating_add(1)];
    let outside = Outside {
        piece: PIECE,
        reads: &behind_reads,
        writes: &behind_writes,
        tells: &[1],
    };
    let mut given = answered(alloc, &outside, words, input.as_bytes())?;
    Ok(
        given.status == Status::Done
            && given.out.taken() == text.as_bytes()
            && read_fails(&mut given.src)
            && write_fails(&mut given.out)
            && write_fails(&mut given.err),
    )
}

/// How many calls a device of these pieces needs for a text.
fn pieces_of(text: &str) -> u32 {
    u32::try_from(text.len().div_ceil(PIECE)).unwrap_or(u32::MAX)
}

/// The commands, what they read, and what they write.
const COMMANDS: [(&[&str], &str, &str); 2] = [
    (&["compile", "1"], SUM, SUM_REGISTERS),
    (&["check"], SUM_BUNDLE, "accepted\n"),
];

/// What `check` of nothing tells.
const UNTOLD: &str = "41 bundle 1\n";

/// How many calls read a text: the last finds its end.
fn reads_of(text: &str) -> u32 {
    pieces_of(text).saturating_add(1)
}

#[test]
fn each_read_that_fails_is_told(rt: HostRuntime) -> Result<(), Memory> {
    let alloc = rt.alloc();
    for (words, input, _) in COMMANDS {
        for call in 1..=reads_of(input) {
            assert!(rt; fails_to_read(alloc, words, input, call)?);
        }
    }
    Ok(())
}

#[test]
fn each_write_that_fails_is_told(rt: HostRuntime) -> Result<(), Memory> {
    let alloc = rt.alloc();
    for (words, input, text) in COMMANDS {
        for call in 1..=pieces_of(text) {
            assert!(rt; fails_to_write(alloc, words, input, text, call)?);
        }
    }
    Ok(())
}

#[test]
fn an_error_output_that_fails_changes_no_status(rt: HostRuntime) -> Result<(), Memory> {
    for call in 1..=pieces_of(UNTOLD) {
        assert!(rt; fails_to_tell(rt.alloc(), call)?);
    }
    Ok(())
}

#[test]
fn no_call_behind_the_last_is_made(rt: HostRuntime) -> Result<(), Memory> {
    let alloc = rt.alloc();
    for (words, input, text) in COMMANDS {
        let calls = (reads_of(input), pieces_of(text));
        assert!(rt; ends_at(alloc, words, input, text, calls)?);
    }
    Ok(())
}

/// Whether `check` refuses a text with this line.
fn is_told(alloc: Global, text: &[u8], status: Status, line: &str) -> Result<bool, Memory> {
    let given = answered(alloc, &CALM, &["check"], text)?;
    Ok(
        given.status == status
            && given.out.taken().is_empty()
            && given.err.taken() == line.as_bytes(),
    )
}

#[test]
fn each_front_of_a_bundle_ends_at_its_last_line(rt: HostRuntime) -> Result<(), Memory> {
    let alloc = rt.alloc();
    let bytes = REFRESHED.as_bytes();
    let mut line: usize = 1;
    for end in 0..bytes.len() {
        let told = bundle_line(alloc, line)?;
        assert!(rt; is_told(alloc, &bytes[..end], Status::Bundle, &told)?);
        if bytes[end] == b'\n' {
            line = line.saturating_add(1);
        }
    }
    Ok(())
}

/// A text with its line of this number, counted from 1, doubled.
fn doubled(alloc: Global, text: &str, number: usize) -> Result<String, Memory> {
    let mut made = String::new(alloc);
    let mut at: usize = 0;
    for line in text.split_inclusive('\n') {
        made.push_str(line)?;
        at = at.saturating_add(1);
        if at == number {
            made.push_str(line)?;
        }
    }
    Ok(made)
}

#[test]
fn each_line_of_a_bundle_is_missed_where_it_is_doubled(rt: HostRuntime) -> Result<(), Memory> {
    let alloc = rt.alloc();
    // Which line of the text without form, which instruction, or which output is told, by the doubled line.
    let rows: [(usize, Status, &str); 23] = [
        (1, Status::Bundle, "41 bundle 2\n"),
        (2, Status::Bundle, "41 bundle 3\n"),
        (3, Status::Bundle, "41 bundle 4\n"),
        (4, Status::Bundle, "41 bundle 5\n"),
        (5, Status::Bundle, "41 bundle 6\n"),
        (6, Status::Refused, "11 tile 4\n"),
        (7, Status::Refused, "11 tile 12\n"),
        (8, Status::Refused, "14 output 1\n"),
        (9, Status::Bundle, "41 bundle 10\n"),
        (10, Status::Refused, "11 tile 1\n"),
        (11, Status::Refused, "11 tile 2\n"),
        (12, Status::Refused, "11 tile 3\n"),
        (13, Status::Refused, "11 tile 4\n"),
        (14, Status::Refused, "11 tile 5\n"),
        (15, Status::Refused, "11 tile 6\n"),
        (16, Status::Refused, "11 tile 7\n"),
        (17, Status::Refused, "11 tile 8\n"),
        (18, Status::Refused, "11 tile 9\n"),
        (19, Status::Refused, "11 tile 10\n"),
        (20, Status::Refused, "11 tile 11\n"),
        (21, Status::Refused, "11 tile 12\n"),
        (22, Status::Refused, "14 output 1\n"),
        (23, Status::Bundle, "41 bundle 24\n"),
    ];
    for (number, status, line) in rows {
        let text = doubled(alloc, REFRESHED, number)?;
        assert!(rt; is_told(alloc, text.as_bytes(), status, line)?);
    }
    Ok(())
}

/// A source with a comment behind it, of so many bytes in all, at least those of the source and one.
fn commented(alloc: Global, source: &str, len: usize) -> Result<String, Memory> {
    let mut text = String::new(alloc);
    text.push_str(source)?;
    text.push('#')?;
    for _ in text.len()..len {
        text.push('x')?;
    }
    Ok(text)
}

/// A source whose output is a secret in so many brackets.
fn bracketed(alloc: Global, depth: usize) -> Result<String, Memory> {
    let mut text = String::new(alloc);
    text.push_str("field gf2;\nsecret a;\noutput y;\ny = ")?;
    for _ in 0..depth {
        text.push('(')?;
    }
    text.push('a')?;
    for _ in 0..depth {
        text.push(')')?;
    }
    text.push_str(";\n")?;
    Ok(text)
}

/// A source with a loop that assigns so often.
fn looped(alloc: Global, assigned: &str, turns: u32) -> Result<String, Memory> {
    let mut text = String::new(alloc);
    write!(
        text,
        "field gf2;\nsecret x;\noutput y;\nfor i in 0..{turns} {{\ny = {assigned};\n}}\n"
    )?;
    Ok(text)
}

/// Whether `compile 1` of a source is carried out and writes this text.
fn is_compiled(alloc: Global, source: &str, text: &str) -> Result<bool, Memory> {
    let given = answered(alloc, &WIDE, &["compile", "1"], source.as_bytes())?;
    Ok(given.status == Status::Done && given.out.taken() == text.as_bytes())
}

/// Whether `compile 1` of a source is carried out, whatever it writes.
fn is_taken(alloc: Global, source: &str) -> Result<bool, Memory> {
    let words = words_of(alloc, &["compile", "1"])?;
    let mut src = SureSource::new(source.as_bytes());
    let (mut out, mut err) = (DropSink::new(), DropSink::new());
    Ok(mask_main(alloc, &words, &mut src, &mut out, &mut err) == Status::Done)
}

/// Whether `compile 1` refuses a source with this line.
fn is_refused(alloc: Global, source: &str, status: Status, line: &str) -> Result<bool, Memory> {
    let given = answered(alloc, &WIDE, &["compile", "1"], source.as_bytes())?;
    Ok(
        given.status == status
            && given.out.taken().is_empty()
            && given.err.taken() == line.as_bytes(),
    )
}

#[test]
fn sources_at_the_limits_are_taken_and_one_more_is_refused(rt: HostRuntime) -> Result<(), Memory> {
    let alloc = rt.alloc();
    let most = MOST_SOURCE_BYTES as usize;
    assert!(rt; is_compiled(alloc, &commented(alloc, SUM, most)?, SUM_REGISTERS)?);
    let long = commented(alloc, SUM, most + 1)?;
    assert!(rt; is_refused(alloc, &long, Status::TooLong, "10 too long 1048576\n")?);
    let secret =
        "mask 2\nfield gf2\norder 1\nsecrets 1\npublics 0\nregisters 2\nclaim s0\ncode\nout 0 1\nend\n";
    assert!(rt; is_compiled(alloc, &bracketed(alloc, 64)?, secret)?);
    assert!(rt;
        is_refused(
            alloc,
            &bracketed(alloc, 65)?,
            Status::Source,
            "31 syntax 4:69\n"
        )?
    );
    assert!(rt; is_taken(alloc, &looped(alloc, "y + x", 16_384)?)?);
    let operations = looped(alloc, "y + x", 16_385)?;
    assert!(rt; is_refused(alloc, &operations, Status::Source, "38 large operations\n")?);
    assert!(rt; is_taken(alloc, &looped(alloc, "x", 32_767)?)?);
    let work = looped(alloc, "x", 32_768)?;
    assert!(rt; is_refused(alloc, &work, Status::Source, "38 large work\n")?);
    Ok(())
}
