ghost use Rattle.std.specs.Prelude.{◌≡◌, ◌≤◌, ◌<◌, ℕ, List, Option, Some, None, Ok, [], length, take, drop, IfOk, IfSome, OnErr};

use crate::outside::{Failed, Sink, Source};
use std::marker::Model;

/// A source over borrowed bytes, which tells them and never fails. Contracts see the bytes left.
#[derive(Debug, Drop)]
pub struct SureSource<'a> {
    bytes: &'a [u8],
}

impl<'a> Model for SureSource<'a> {
    ghost use Rattle.std.specs.Prelude.{List, ℕ};

    ghost Value = { List ℕ };

    ghost view = { λ s. s.bytes.now };
}

impl<'a> SureSource<'a> {
    /// A source of these bytes. It takes no memory.
    pub fn new(bytes: &'a [u8]) -> SureSource<'a>
        ensures { result ≡ bytes.now }
    {
        SureSource { bytes }
    }
}

impl Source for SureSource<'_> {
    ghost left = { λ s. Some s };

    ghost faults = { λ _. 0 };

    fn read(&mut self, buf: &mut [u8]) -> Result<usize, Failed> {
        let count = buf.len().min(self.bytes.len());
        let (front, rest) = self.bytes.split_at(count);
        buf[..count].copy_from_slice(front);
        self.bytes = rest;
        Ok(count)
    }
}

/// A sink that takes every piece whole, keeps nothing of it, tells nothing and never fails.
#[derive(Debug, Drop)]
pub struct DropSink;

impl DropSink {
    /// A sink that keeps nothing. It takes no memory.
    pub fn new() -> DropSink {
        DropSink
    }
}

impl Default for DropSink {
    fn default() -> DropSink {
        DropSink
    }
}

impl Sink for DropSink {
    ghost taken = { λ _. None };

    ghost faults = { λ _. 0 };

    fn write(&mut self, piece: &[u8]) -> Result<usize, Failed>
        ensures { result ≡ Ok (length piece.now) }
    {
        Ok(piece.len())
    }
}

#[cfg(test)]
mod tests;
