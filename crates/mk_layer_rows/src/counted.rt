//! Counts, over all tapes, of what observers of a product of bits see: equal for any two states that agree
//! in the shares that an observer asks for.
ghost use Rattle.std.specs.Prelude.{◌<◌};

use crate::sources::{bundle_of, small_bundle_of};
use mk_code::Code;
use mk_run::run_code;
use std::alloc::Global;
use std::test::*;

/// What an observed value belongs to. Shares are bits: 1, 2 and 4 are the shares 0, 1 and 2.
#[derive(Clone, Copy)]
enum Part {
    /// A cell, the product of both shares, or a sum of a row.
    Row { share: u8 },
    /// Another value of a share of the first operand and one of the second.
    Pair { left: u8, right: u8 },
    /// A share of the product.
    Output,
}

/// An observed value, at its place in the trace.
#[derive(Clone, Copy)]
struct Seen {
    place: u32,
    part: Part,
}

/// A value of a row.
fn row(place: u32, share: u8) -> Seen {
    let part = Part::Row { share };
    Seen { place, part }
}

/// Another value of a pair.
fn pair(place: u32, left: u8, right: u8) -> Seen {
    let part = Part::Pair { left, right };
    Seen { place, part }
}

/// A share of the product.
fn output(place: u32) -> Seen {
    let part = Part::Output;
    Seen { place, part }
}

/// The row that an observed value belongs to, if any.
fn row_of(part: Part) -> u8 {
    match part {
        Part::Row { share } => share,
        _ => 0,
    }
}

/// The share of the first operand that is asked for: the row, or the first of the pair, but the second
/// where the first is a row.
fn left_of(part: Part, rows: u8) -> u8 {
    match part {
        Part::Row { share } => share,
        Part::Pair { left, right } => { if rows & left == left { right } else { left } }
        Part::Output => 0,
    }
}

/// The share of the second operand that is asked for: the row, or the second of the pair, but the first
/// where the second is a row.
fn right_of(part: Part, rows: u8) -> u8 {
    match part {
        Part::Row { share } => share,
        Part::Pair { left, right } => { if rows & right == right { left } else { right } }
        Part::Output => 0,
    }
}

/// The shares that are asked for, as the state in which they alone are 1. An operand has `shares` shares.
fn asked(first: Part, second: Part, shares: u32) -> usize
    requires { shares < 64 }
{
    let rows = row_of(first) | row_of(second);
    let left = left_of(first, rows) | left_of(second, rows);
    let right = right_of(first, rows) | right_of(second, rows);
    left as usize | (right as usize) << shares
}

/// The lowest bits of a number, lowest first.
fn bits_of<const N: usize>(number: u32) -> [u8; N] {
    let mut bits = [0; N];
    let mut rest = number;
    for place in 0..N {
        bits[place] = (rest % 2) as u8;
        rest /= 2;
    }
    bits
}

/// The entries of a run over the lowest bits of the state and of the tape, as many as the code takes: bit k is
/// entry k.
fn entries(alloc: Global, code: &Code, state: u32, tape: u32) -> Option<u32> {
    let (state, tape) = (bits_of::<6>(state), bits_of::<3>(tape));
    let shares = state.get(..2 * (usize::from(code.order()) + 1))?;
    let tape = tape.get(..code.randoms() as usize)?;
    let trace = run_code(alloc, code, &[], shares, tape).ok()?;
    let mut bits = 0;
    for entry in trace.as_slice().iter().rev() {
        bits = bits << 1 | *entry as u32;
    }
    Some(bits)
}

/// The runs of a code over all tapes of three bits, state by state of six bits. A code that takes fewer has each run
/// as often as any other.
fn all_runs(alloc: Global, code: &Code) -> Option<Vec<[u32; 8]>> {
    let mut runs = Vec::new(alloc);
    for state in 0..64 {
        let mut tapes = [0; 8];
        for tape in 0..8 {
            tapes[tape] = entries(alloc, code, state, tape as u32)?;
        }
        runs.push(tapes).ok()?;
    }
    Some(runs)
}

/// How many of the tapes show each two bits.
fn counts(runs: &[u32; 8], first: Seen, second: Seen) -> [u32; 4] {
    let mut counts = [0u32; 4];
    for entries in runs {
        let one = entries.wrapping_shr(first.place) % 2;
        let two = entries.wrapping_shr(second.place) % 2;
        let seen = (2 * one + two) as usize;
        counts[seen] = counts[seen].wrapping_add(1);
    }
    counts
}

/// Whether each state shows two values as often as the state with only the shares that are asked for.
fn depends(runs: &[[u32; 8]], first: Seen, second: Seen, asked: usize) -> bool {
    for (state, tapes) in runs.iter().enumerate() {
        let Some(alike) = runs.get(state & asked) else {
            return false;
        };
        if counts(tapes, first, second) != counts(alike, first, second) {
            return false;
        }
    }
    true
}

#[test]
fn each_place_of_a_product_of_two_shares(rt: HostRuntime) -> Result<(), Fail> {
    let text = "field gf2; secret a; secret b; output y; y = a * b;";
    let product = small_bundle_of(rt.alloc(), text)
        .ok()
        .ok_or("it is compiled")?;
    let runs = all_runs(rt.alloc(), &product.code).ok_or("it runs")?;
    let places = [
        row(4, 1),
        pair(5, 1, 2),
        pair(6, 1, 2),
        pair(7, 2, 1),
        row(8, 2),
        row(9, 1),
        row(10, 1),
        row(11, 2),
        row(12, 2),
        output(10),
        output(12),
    ];
    for one in &places {
        let asked = asked(one.part, one.part, 2);
        assert_eq!(rt; depends(&runs, *one, *one, asked), true);
    }
    // A cross product doesn't depend on nothing.
    let pair = pair(5, 1, 2);
    assert_eq!(rt; depends(&runs, pair, pair, 0), false);
    Ok(())
}

/// The places of a product of three shares, each with the shares that its row or pair has, and its outputs.
fn places_of_three_shares() -> [Seen; 27] {
    [
        row(6, 1),
        pair(7, 1, 2),
        pair(8, 1, 2),
        pair(9, 2, 1),
        row(10, 2),
        row(11, 1),
        pair(12, 1, 4),
        pair(13, 1, 4),
        pair(14, 4, 1),
        row(15, 4),
        row(16, 2),
        pair(17, 2, 4),
        pair(18, 2, 4),
        pair(19, 4, 2),
        row(20, 4),
        row(21, 1),
        row(22, 1),
        row(23, 1),
        row(24, 2),
        row(25, 2),
        row(26, 2),
        row(27, 4),
        row(28, 4),
        row(29, 4),
        output(23),
        output(26),
        output(29),
    ]
}

#[test]
fn each_two_places_of_a_product_of_three_shares(rt: HostRuntime) -> Result<(), Fail> {
    let text = "field gf2; secret a; secret b; output y; y = a * b;";
    let product = bundle_of(rt.alloc(), text).ok().ok_or("it is compiled")?;
    let runs = all_runs(rt.alloc(), &product.code).ok_or("it runs")?;
    let places = places_of_three_shares();
    for first in &places {
        for second in &places {
            let asked = asked(first.part, second.part, 3);
            assert_eq!(rt; depends(&runs, *first, *second, asked), true);
        }
    }
    // A cross product doesn't depend on nothing, nor on the shares of a row alone.
    let pair = pair(17, 2, 4);
    assert_eq!(rt; depends(&runs, pair, pair, 0), false);
    assert_eq!(rt; depends(&runs, row(16, 2), pair, 0b010_010), false);
    Ok(())
}
