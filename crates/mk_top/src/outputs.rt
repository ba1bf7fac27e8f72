//! The lines of a code's outputs, by the entries of a trace.

ghost use Rattle.std.specs.Prelude.{◌≡◌, ◌++◌, ◌∷◌, [], ◌<◌, ◌/◌, OnOk, IfOk, length, string_bytes};
ghost use Rattle.mk_code.specs.Counting.{AllBelow};
ghost use Rattle.mk_code.specs.Listing.{trace_len};
ghost use Rattle.mk_code.specs.Private.{observation};
ghost use Rattle.mk_words.specs.Words.{elements_word};
ghost use Rattle.mk_top.specs.Runs.{output_line, output_lines, run_text};

use mk_base::{Bytes, Items, Memory};
use mk_code::Code;
use mk_share::value_of;
use mk_words::push_elements;
use std::alloc::Global;

/// Appends the line of an output.
fn push_output(alloc: Global, text: &mut String, number: usize, shares: &[u8]) -> Result<(), Memory>
    ensures { OnOk result (string_bytes text.new ≡ string_bytes text.old ++ output_line number shares.now) }
{
    write!(text, "{number} ")?;
    push_elements(alloc, text, shares)?;
    text.push_str(" ")?;
    push_elements(alloc, text, &[value_of(shares)])?;
    text.push_str("\n")?;
    Ok(())
}

/// Appends the lines of the outputs, each of which has the next `count` of the shares.
fn push_outputs(alloc: Global, text: &mut String, count: usize, shares: &[u8]) -> Result<(), Memory>
    requires { 0 < count }
    ensures { OnOk result (string_bytes text.new ≡ string_bytes text.old
        ++ output_lines count 0 (length shares.now / count) shares.now) }
{
    let mut rest = shares;
    for number in 0..shares.len() / count {
        let (first, behind) = rest.split_at(count);
        push_output(alloc, text, number, first)?;
        rest = behind;
    }
    Ok(())
}

/// The entries of a trace at these positions.
fn entries_at(alloc: Global, positions: &[u32], entries: &[u8]) -> Result<Bytes, Memory>
    requires { AllBelow (length entries.now) positions.now }
    ensures { IfOk result (λ seen. seen ≡ observation positions.now entries.now) }
{
    let mut seen = Items::new(alloc);
    for position in positions {
        seen.push(entries[*position as usize])?;
    }
    Ok(seen)
}

/// The lines of the outputs of a code, whose shares are entries of this trace.
pub(crate) fn outputs_text(alloc: Global, code: &Code, entries: &[u8]) -> Result<Bytes, Memory>
    requires { length entries.now ≡ trace_len code.now }
    ensures { IfOk result (λ bytes. bytes ≡ run_text code.now entries.now) }
{
    code.law();
    let shares = entries_at(alloc, code.outs().as_slice(), entries)?;
    let mut text = String::new(alloc);
    let count = usize::from(code.order()) + 1;
    push_outputs(alloc, &mut text, count, shares.as_slice())?;
    bytes_of(text)
}

/// The word of these elements, with a line feed.
pub(crate) fn elements_line(alloc: Global, elements: &[u8]) -> Result<Bytes, Memory>
    ensures { IfOk result (λ line. line ≡ elements_word elements.now ++ 10 ∷ []) }
{
    let mut text = String::new(alloc);
    push_elements(alloc, &mut text, elements)?;
    text.push_str("\n")?;
    bytes_of(text)
}

/// The bytes of a text. No list has memory for 2^32 bytes.
pub(crate) fn bytes_of(text: String) -> Result<Bytes, Memory>
    ensures { IfOk result (λ bytes. bytes ≡ string_bytes text) }
{
    Items::try_from_vec(text.into_bytes())
}
