//! Rows of bits: which clash, and what they are joined to.

use mk_rules::{join_rows, rows_clash};

/// Whether two rows of as many words clash.
fn clash(a: &[u64], b: &[u64]) -> bool {
    a.len() == b.len() && rows_clash(a, b)
}

#[test]
fn both_places_of_a_product_clash(rt: HostRuntime) {
    let rows: [(&[u64], &[u64], bool); 8] = [
        (&[], &[], false),
        (&[1], &[2], true),
        (&[3], &[0], true),
        (&[0], &[12], true),
        (&[2], &[4], false),
        (&[0, 0, 1 << 62], &[0, 0, 1 << 63], true),
        (&[1 << 63, 0, 0], &[0, 1, 0], false),
        (&[1, 2, 0], &[0, 0, 2], false),
    ];
    for (a, b, clashes) in rows {
        assert_eq!(rt; clash(a, b), clashes);
        assert_eq!(rt; clash(b, a), clashes);
    }
}

#[test]
fn joined_rows_have_the_bits_of_both(rt: HostRuntime) {
    let mut row: [u64; 2] = [5, 1 << 63];
    join_rows(&mut row, &[6, 1]);
    assert_eq!(rt; row, [7, (1 << 63) + 1]);
}
