//! Rows, and whether the top call does what they say.

use crate::outside::Outside;
use mk_base::{Bytes, Items, MemSink, MemSource, Memory, Words};
use mk_top::{Status, mask_main};
use std::alloc::Global;

/// What the program is given, and what it answers, writes and tells.
#[derive(Clone, Copy)]
pub(crate) struct Row<'a> {
    pub words: &'a [&'a str],
    pub input: &'a str,
    pub status: Status,
    pub out: &'a str,
    pub err: &'a str,
}

impl<'a> Row<'a> {
    /// A command that is carried out.
    pub(crate) fn done(words: &'a [&'a str], input: &'a str, out: &'a str) -> Row<'a> {
        Row {
            words,
            input,
            status: Status::Done,
            out,
            err: "",
        }
    }

    /// What is refused.
    pub(crate) fn refused(
        words: &'a [&'a str],
        input: &'a str,
        status: Status,
        err: &'a str,
    ) -> Row<'a> {
        Row {
            words,
            input,
            status,
            out: "",
            err,
        }
    }
}

/// The words as the program takes them.
pub(crate) fn words_of(alloc: Global, words: &[&str]) -> Result<Words, Memory> {
    let mut list = Items::new(alloc);
    for word in words {
        let mut bytes: Bytes = Items::new(alloc);
        for byte in word.as_bytes() {
            bytes.push(*byte)?;
        }
        list.push(bytes)?;
    }
    Ok(list)
}

/// What the top call answered, what it left of the input, and what it wrote and told.
#[derive(Drop)]
pub(crate) struct Outcome {
    pub status: Status,
    pub src: MemSource,
    pub out: MemSink,
    pub err: MemSink,
}

/// What the top call answers.
pub(crate) fn answered(
    alloc: Global,
    outside: &Outside,
    words: &[&str],
    input: &[u8],
) -> Result<Outcome, Memory> {
    let words = words_of(alloc, words)?;
    let piece = outside.piece.max(1);
    let mut src = MemSource::new(alloc, input, piece, outside.reads)?;
    let mut out = MemSink::new(alloc, 4096, piece, outside.writes)?;
    let mut err = MemSink::new(alloc, 4096, piece, outside.tells)?;
    let status = mask_main(alloc, &words, &mut src, &mut out, &mut err);
    Ok(Outcome {
        status,
        src,
        out,
        err,
    })
}

/// Whether the top call does what a row says.
fn holds(alloc: Global, outside: &Outside, row: &Row) -> Result<bool, Memory> {
    let given = answered(alloc, outside, row.words, row.input.as_bytes())?;
    Ok(
        given.status == row.status
            && given.out.taken() == row.out.as_bytes()
            && given.err.taken() == row.err.as_bytes(),
    )
}

/// Whether it does what each row says.
pub(crate) fn holds_each(alloc: Global, outside: &Outside, rows: &[Row]) -> Result<bool, Memory> {
    for row in rows {
        if !holds(alloc, outside, row)? {
            return Ok(false);
        }
    }
    Ok(true)
}
