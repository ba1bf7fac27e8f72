ghost use Rattle.std.specs.Prelude.{◌≡◌, ◌≤◌, ◌<◌, None, Ok, length, IfSome, OnErr, IsErr};
ghost use Rattle.mk_base.specs.Outside.{one_more};

use mk_base::{Failed, Sink, Source};
use std::io::{ErrorKind, Read, Stderr, Stdin, Stdout, Write};
use std::marker::Model;

/// How often a call that was interrupted is made in all, before it counts as a failure.
const MOST_TRIES: u32 = 1000;

/// Standard input as a source. It tells nothing of its bytes. Each failure that it answers is counted.
#[derive(Drop)]
pub struct StdSource {
    stdin: Stdin,
    faults: u64,
}

/// Standard output as a sink. It tells nothing of what it took. Each failure that it answers is
/// counted. Nothing is kept in a buffer, so what a write took is written.
#[derive(Drop)]
pub struct StdOut {
    stdout: Stdout,
    faults: u64,
}

/// Standard error as a sink, which is as `StdOut`.
#[derive(Drop)]
pub struct StdErr {
    stderr: Stderr,
    faults: u64,
}

impl Model for StdSource {
    ghost use Rattle.std.specs.Prelude.{ℕ};

    ghost Value = { ℕ };

    ghost view = { λ s. s.faults };
}

impl Model for StdOut {
    ghost use Rattle.std.specs.Prelude.{ℕ};

    ghost Value = { ℕ };

    ghost view = { λ s. s.faults };
}

impl Model for StdErr {
    ghost use Rattle.std.specs.Prelude.{ℕ};

    ghost Value = { ℕ };

    ghost view = { λ s. s.faults };
}

impl StdSource {
    /// Standard input, with no fault so far.
    pub fn new(stdin: Stdin) -> StdSource
        ensures { result ≡ 0 }
    {
        StdSource { stdin, faults: 0 }
    }
}

impl StdOut {
    /// Standard output, with no fault so far.
    pub fn new(stdout: Stdout) -> StdOut
        ensures { result ≡ 0 }
    {
        StdOut { stdout, faults: 0 }
    }
}

impl StdErr {
    /// Standard error, with no fault so far.
    pub fn new(stderr: Stderr) -> StdErr
        ensures { result ≡ 0 }
    {
        StdErr { stderr, faults: 0 }
    }

    /// How many faults there were.
    pub fn faults(&self) -> u64
        ensures { result ≡ self.now }
    {
        self.faults
    }
}

impl Source for StdSource {
    ghost left = { λ _. None };

    ghost faults = { λ s. s };

    fn read(&mut self, buf: &mut [u8]) -> Result<usize, Failed> {
        let done = read_some(&mut self.stdin, buf);
        counted(done, &mut self.faults)
    }
}

impl Sink for StdOut {
    ghost taken = { λ _. None };

    ghost faults = { λ s. s };

    fn write(&mut self, piece: &[u8]) -> Result<usize, Failed> {
        let done = write_some(&mut self.stdout, piece);
        counted(done, &mut self.faults)
    }
}

impl Sink for StdErr {
    ghost taken = { λ _. None };

    ghost faults = { λ s. s };

    fn write(&mut self, piece: &[u8]) -> Result<usize, Failed> {
        let done = write_some(&mut self.stderr, piece);
        counted(done, &mut self.faults)
    }
}

/// The answer of a call that is done, or a failure, which is counted.
fn counted(done: Option<usize>, faults: &mut u64) -> Result<usize, Failed>
    ensures done { IfSome done (λ n. (result ≡ Ok n) × (faults.new ≡ faults.old)) }
    ensures failed { done ≡ None → IsErr result × (faults.new ≡ one_more faults.old) }
    ensures never_falls { faults.old ≤ faults.new }
{
    match done {
        Some(count) => Ok(count),
        None => {
            *faults = faults.saturating_add(1);
            Err(Failed)
        }
    }
}

/// Reads once, and again where that was interrupted. `None` is a failure.
fn read_some<R: Read>(reader: &mut R, buf: &mut [u8]) -> Option<usize>
    ensures { IfSome result (λ n. n ≤ length buf.old) }
{
    for _ in 0..MOST_TRIES {
        match reader.read(buf) {
            Ok(count) => return Some(count),
            Err(error) if error.kind() == ErrorKind::Interrupted => {}
            Err(_) => return None,
        }
    }
    None
}

/// Writes once, and again where that was interrupted. `None` is a failure, as it is to take nothing
/// of a piece that is not empty.
fn write_some<W: Write>(writer: &mut W, piece: &[u8]) -> Option<usize>
    ensures count { IfSome result (λ n. n ≤ length piece.now) }
    ensures some { IfSome result (λ n. 0 < length piece.now → 0 < n) }
{
    for _ in 0..MOST_TRIES {
        match writer.write(piece) {
            Ok(0) if !piece.is_empty() => return None,
            Ok(count) => return Some(count),
            Err(error) if error.kind() == ErrorKind::Interrupted => {}
            Err(_) => return None,
        }
    }
    None
}

#[cfg(test)]
mod tests {
    use super::*;
    use mk_base::write_all;

    #[test]
    fn standard_error_takes_a_line(rt: HostRuntime) {
        let mut err = StdErr::new(rt.stderr());
        assert!(rt; write_all(&mut err, b"8 memory\n").is_ok());
        assert_eq!(rt; err.faults(), 0);
    }
}
