//! Sources and bundle texts.

/// A sum of two secrets, and the bundle text of its code at order 1.
pub(crate) const SUM: &str = "field gf256;\nsecret a;\nsecret b;\noutput y;\ny = a + b;\n";

pub(crate) const SUM_BUNDLE: &str =
    "mask 1\nfield gf256\norder 1\nsecrets 2\npublics 0\nblock add s0 s1\nclaim b0\ncode\nadd 0 2\nadd 1 3\nout 4 5\nend\n";

/// The same over registers: each instruction writes the register of the share that it reads first.
pub(crate) const SUM_REGISTERS: &str =
    "mask 2\nfield gf256\norder 1\nsecrets 2\npublics 0\nregisters 4\nblock add s0 s1\nclaim b0\ncode\nadd 0 0 2\nadd 1 1 3\nout 0 1\nend\n";

/// The S-box of AES.
pub(crate) const SBOX: &str =
    "field gf256;\nmap m = 0x1f, 0x3e, 0x7c, 0xf8, 0xf1, 0xe3, 0xc7, 0x8f;\nsecret x;\nlocal secret x2;\nlocal secret x3;\nlocal secret x12;\noutput y;\nx2 = sq(x);\nx3 = x2 * x;\nx12 = sq(sq(x3));\ny = m(sq(sq(sq(sq(x12 * x3)))) * x12 * x2) + 0x63;\n";

/// The square of a bit as a product with itself, one of the two refreshed.
pub(crate) const REFRESHED: &str =
    "mask 1\nfield gf2\norder 1\nsecrets 1\npublics 0\nblock refresh s0\nblock mul b0 s0\nclaim b1\ncode\nrnd\nadd 0 2\nadd 1 2\nrnd\nmul 3 1\nadd 5 6\nmul 4 0\nadd 7 8\nmul 3 0\nadd 10 5\nmul 4 1\nadd 12 9\nout 11 13\nend\n";

/// The generator's text with one turn.
pub(crate) const ONE_TURN: &str =
    "field gf256;\nmap m = 0x1f, 0x3e, 0x7c, 0xf8, 0xf1, 0xe3, 0xc7, 0x8f;\nsecret x[16];\nlocal secret a;\noutput y[16];\nfor i in 0..1 {\n  a = x[i % 16] + y[5 * i % 16];\n  y[i % 16] = a * m(a) + sq(y[(i + 1) % 16]);\n}\n";
