//! The report of a bundle.

use mk_base::Bytes;
use mk_bundle::{MOST_BYTES, read_bundle};
use mk_check::check;
use mk_report::report;
use std::alloc::Global;
use std::test::*;

/// A constant, a chain of a sum and a square, nine products of two secrets, and one of the chain and the
/// first of them.
const MANY: &str =
    "mask 1\nfield gf2\norder 1\nsecrets 3\npublics 0\nblock const 01\nblock addp s2 b0\nblock sq b1\nblock mul s0 s1\nblock mul s0 s1\nblock mul s0 s1\nblock mul s0 s1\nblock mul s0 s1\nblock mul s0 s1\nblock mul s0 s1\nblock mul s0 s1\nblock mul s0 s1\nblock mul b2 s0\nclaim b12\ncode\nconst 01\nadd 4 6\ncopy 5\nsq 7\nsq 8\nrnd\nmul 0 3\nadd 11 12\nmul 1 2\nadd 13 14\nmul 0 2\nadd 16 11\nmul 1 3\nadd 18 15\nrnd\nmul 0 3\nadd 20 21\nmul 1 2\nadd 22 23\nmul 0 2\nadd 25 20\nmul 1 3\nadd 27 24\nrnd\nmul 0 3\nadd 29 30\nmul 1 2\nadd 31 32\nmul 0 2\nadd 34 29\nmul 1 3\nadd 36 33\nrnd\nmul 0 3\nadd 38 39\nmul 1 2\nadd 40 41\nmul 0 2\nadd 43 38\nmul 1 3\nadd 45 42\nrnd\nmul 0 3\nadd 47 48\nmul 1 2\nadd 49 50\nmul 0 2\nadd 52 47\nmul 1 3\nadd 54 51\nrnd\nmul 0 3\nadd 56 57\nmul 1 2\nadd 58 59\nmul 0 2\nadd 61 56\nmul 1 3\nadd 63 60\nrnd\nmul 0 3\nadd 65 66\nmul 1 2\nadd 67 68\nmul 0 2\nadd 70 65\nmul 1 3\nadd 72 69\nrnd\nmul 0 3\nadd 74 75\nmul 1 2\nadd 76 77\nmul 0 2\nadd 79 74\nmul 1 3\nadd 81 78\nrnd\nmul 0 3\nadd 83 84\nmul 1 2\nadd 85 86\nmul 0 2\nadd 88 83\nmul 1 3\nadd 90 87\nrnd\nmul 9 1\nadd 92 93\nmul 10 0\nadd 94 95\nmul 9 0\nadd 97 92\nmul 10 1\nadd 99 96\nout 98 100\nend\n";

/// The report of a bundle's text, if it is one and the rule accepts it.
fn reported(alloc: Global, text: &str) -> Option<Bytes> {
    if text.len() > MOST_BYTES as usize {
        return None;
    }
    let bundle = read_bundle(alloc, text.as_bytes()).ok()?;
    check(alloc, &bundle.code, &bundle.cert).ok()?;
    report(alloc, &bundle.code, &bundle.cert).ok()
}

#[test]
fn eight_of_many_places_are_shown(rt: HostRuntime) -> Result<(), Fail> {
    let text = reported(rt.alloc(), MANY).ok_or("the rule accepts it")?;
    let wanted =
        "s0 input 0 0 10 b3.0,b4.0,b5.0,b6.0,b7.0,b8.0,b9.0,b10.0\ns1 input 0 0 9 b3.1,b4.1,b5.1,b6.1,b7.1,b8.1,b9.1,b10.1\ns2 input 0 0 1 b12.0\nb0 const 1 0 0 -\nb1 addp 2 0 1 b12.0\nb2 sq 2 0 1 b12.0\nb3 mul 9 1 0 -\nb4 mul 9 1 0 -\nb5 mul 9 1 0 -\nb6 mul 9 1 0 -\nb7 mul 9 1 0 -\nb8 mul 9 1 0 -\nb9 mul 9 1 0 -\nb10 mul 9 1 0 -\nb11 mul 9 1 0 -\nb12 mul 9 1 0 -\ntotal 13 95 10 9\n";
    assert!(rt; text.as_slice() == wanted.as_bytes());
    Ok(())
}
