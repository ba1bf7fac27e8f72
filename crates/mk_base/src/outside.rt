ghost use Rattle.std.specs.Prelude.{◌≡◌, ◌≤◌, ◌<◌, ℕ, List, Option, Some, Ok, [], length, IfOk, IfSome, OnErr};
ghost use Rattle.mk_base.specs.Outside.{Rose, GivesNext, TakesFront};

use thiserror::Error;

/// The outside failed, and counted a fault.
#[derive(Clone, Copy, Debug, PartialEq, Eq, Error)]
#[error("the outside failed")]
pub struct Failed;

/// What bytes are read from.
///
/// `left` are the bytes still to come, where the source tells them, and `faults` is the number of
/// faults so far.
pub trait Source {
    ghost left: { Self → Option (List ℕ) };

    ghost faults: { Self → ℕ };

    /// Reads the next bytes into the front of `buf`, and answers how many. No byte for a nonempty
    /// `buf` is the end of the input.
    fn read(&mut self, buf: &mut [u8]) -> Result<usize, Failed>
        ensures count { IfOk result (λ n. n ≤ length buf.old) }
        ensures bytes { IfOk result (λ n. IfSome (left self.old) (λ rest. GivesNext rest n buf.new (left self.new))) }
        ensures end { result ≡ Ok 0 → 0 < length buf.old → IfSome (left self.old) (λ rest. rest ≡ []) }
        ensures failed { OnErr result (Rose (faults self.old) (faults self.new)) }
        ensures kept { OnErr result (IfSome (left self.old) (λ rest. left self.new ≡ Some rest)) }
        ensures never_falls { faults self.old ≤ faults self.new };
}

/// What bytes are written to.
///
/// `taken` are the bytes taken so far, where the sink tells them, and `faults` is the number of
/// faults so far.
pub trait Sink {
    ghost taken: { Self → Option (List ℕ) };

    ghost faults: { Self → ℕ };

    /// Takes bytes from the front of `piece`, and answers how many.
    fn write(&mut self, piece: &[u8]) -> Result<usize, Failed>
        ensures count { IfOk result (λ n. n ≤ length piece.now) }
        ensures bytes { IfOk result (λ n. IfSome (taken self.old) (λ before. TakesFront before piece.now n (taken self.new))) }
        ensures none { result ≡ Ok 0 → 0 < length piece.now → Rose (faults self.old) (faults self.new) }
        ensures failed { OnErr result (Rose (faults self.old) (faults self.new)) }
        ensures kept { OnErr result (IfSome (taken self.old) (λ before. taken self.new ≡ Some before)) }
        ensures never_falls { faults self.old ≤ faults self.new };
}
