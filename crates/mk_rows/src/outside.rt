//! How the outside of a row behaves.

/// How many bytes one read gives and one write takes, and which calls of the input, the output and the error output
/// fail, counted from 1.
#[derive(Clone, Copy)]
pub(crate) struct Outside<'a> {
    pub piece: usize,
    pub reads: &'a [u32],
    pub writes: &'a [u32],
    pub tells: &'a [u32],
}

/// Sixteen bytes at a time, and no call fails.
pub(crate) const CALM: Outside<'static> = Outside {
    piece: 16,
    reads: &[],
    writes: &[],
    tells: &[],
};

/// 4,096 bytes at a time, and no call fails.
pub(crate) const WIDE: Outside<'static> = Outside {
    piece: 4096,
    ..CALM
};
