ghost use Rattle.std.specs.Prelude.{◌≡◌, ◌≤◌, ◌<◌, ◌-◌, ◌↔◌, ◌⊎◌, ℕ, List, Option, Some, Ok, [], length, take, drop, min, Contains, IsTrue, IsErr, IfOk, IfSome, OnErr, OnOk};
ghost use Rattle.mk_base.specs.Outside.{Rose, one_more, GivesNext, TakesFront};
ghost use Rattle.mk_base.specs.Fed.{next_call};

use crate::items::Memory;
use crate::outside::{Failed, Sink, Source};
use std::alloc::Global;
use std::marker::Model;

/// A source over memory, which gives at most `most` bytes for each read and fails at the calls whose
/// numbers are in its list, the first call being number 1.
#[derive(Debug, Drop)]
pub struct MemSource {
    bytes: Vec<u8>,
    at: usize,
    most: usize,
    fail: Vec<u32>,
    calls: u64,
    faults: u64,
}

impl Model for MemSource {
    ghost use Rattle.std.specs.Prelude.{◌≤◌, drop, length};
    ghost use Rattle.mk_base.specs.Fed.{Fed};

    ghost Value = { Fed };

    ghost view = { λ s. record { rest = drop s.at s.bytes.items; most = s.most; fail = s.fail.items; calls = s.calls; faults = s.faults } };

    ghost invariant = { λ s. (s.at ≤ length s.bytes.items) × (1 ≤ s.most) };
}

impl MemSource {
    /// A source of these bytes, before its first call.
    pub fn new(alloc: Global, bytes: &[u8], most: usize, fail: &[u32]) -> Result<MemSource, Memory>
        requires { 1 ≤ most }
        ensures { IfOk result (λ s. s ≡ record { rest = bytes.now; most = most; fail = fail.now; calls = 0; faults = 0 }) }
    {
        Ok(MemSource {
            bytes: Vec::from_slice(alloc, bytes)?,
            at: 0,
            most,
            fail: Vec::from_slice(alloc, fail)?,
            calls: 0,
            faults: 0,
        })
    }
}

impl Source for MemSource {
    ghost left = { λ s. Some s.rest };

    ghost faults = { λ s. s.faults };

    fn read(&mut self, buf: &mut [u8]) -> Result<usize, Failed>
        ensures count { IfOk result (λ n. n ≤ length buf.old) }
        ensures bytes { IfOk result (λ n. IfSome (Some self.old.rest) (λ rest. GivesNext rest n buf.new (Some self.new.rest))) }
        ensures end { result ≡ Ok 0 → 0 < length buf.old → IfSome (Some self.old.rest) (λ rest. rest ≡ []) }
        ensures failed { OnErr result (Rose self.old.faults self.new.faults) }
        ensures kept { OnErr result (IfSome (Some self.old.rest) (λ rest. Some self.new.rest ≡ Some rest)) }
        ensures never_falls { self.old.faults ≤ self.new.faults }

        // It fails at just the calls of its list, and else gives as many bytes as it can.
        ensures listed { IsErr result ↔ Contains self.old.fail (next_call self.old.calls) }
        ensures most { IfOk result (λ n. n ≡ min (min self.old.most (length buf.old)) (length self.old.rest)) }
        ensures counted { OnErr result (self.new.faults ≡ one_more self.old.faults) }
        ensures uncounted { OnOk result (self.new.faults ≡ self.old.faults) }
        ensures calls { self.new.calls ≡ next_call self.old.calls }
        ensures same { (self.new.most ≡ self.old.most) × (self.new.fail ≡ self.old.fail) }
    {
        self.calls = self.calls.saturating_add(1);
        if is_listed(self.fail.as_slice(), self.calls) {
            self.faults = self.faults.saturating_add(1);
            return Err(Failed);
        }
        let rest = &self.bytes[self.at..];
        let count = self.most.min(buf.len()).min(rest.len());
        buf[..count].copy_from_slice(&rest[..count]);
        self.at += count;
        Ok(count)
    }
}

/// Whether the call with this number is in the list.
fn is_listed(fail: &[u32], call: u64) -> bool
    ensures { IsTrue result ↔ Contains fail.now call }
{
    fail.iter().any(|number| u64::from(*number) == call)
}

/// A sink over memory with room for a number of bytes. It takes at most `most` bytes for each write,
/// and fails where no room is left and at the calls whose numbers are in its list, the first call
/// being number 1.
#[derive(Debug, Drop)]
pub struct MemSink {
    bytes: Vec<u8>,
    room: usize,
    most: usize,
    fail: Vec<u32>,
    calls: u64,
    faults: u64,
}

impl Model for MemSink {
    ghost use Rattle.std.specs.Prelude.{◌≤◌, length, vec_capacity};
    ghost use Rattle.mk_base.specs.Fed.{Filled};

    ghost Value = { Filled };

    ghost view = { λ s. record { bytes = s.bytes.items; room = s.room; most = s.most; fail = s.fail.items; calls = s.calls; faults = s.faults } };

    ghost invariant = { λ s. (length s.bytes.items ≤ s.room) × (s.room ≤ vec_capacity s.bytes) × (1 ≤ s.most) };
}

impl MemSink {
    /// An empty sink before its first call, with room for `room` bytes reserved.
    pub fn new(alloc: Global, room: usize, most: usize, fail: &[u32]) -> Result<MemSink, Memory>
        requires { 1 ≤ most }
        ensures { IfOk result (λ s. s ≡ record { bytes = []; room = room; most = most; fail = fail.now; calls = 0; faults = 0 }) }
    {
        Ok(MemSink {
            bytes: Vec::with_capacity(alloc, room)?,
            room,
            most,
            fail: Vec::from_slice(alloc, fail)?,
            calls: 0,
            faults: 0,
        })
    }

    /// The bytes taken so far.
    pub fn taken(&self) -> &[u8]
        ensures { result.now ≡ self.now.bytes }
    {
        self.bytes.as_slice()
    }
}

impl Sink for MemSink {
    ghost taken = { λ s. Some s.bytes };

    ghost faults = { λ s. s.faults };

    fn write(&mut self, piece: &[u8]) -> Result<usize, Failed>
        ensures count { IfOk result (λ n. n ≤ length piece.now) }
        ensures bytes { IfOk result (λ n. IfSome (Some self.old.bytes) (λ before. TakesFront before piece.now n (Some self.new.bytes))) }
        ensures none { result ≡ Ok 0 → 0 < length piece.now → Rose self.old.faults self.new.faults }
        ensures failed { OnErr result (Rose self.old.faults self.new.faults) }
        ensures kept { OnErr result (IfSome (Some self.old.bytes) (λ before. Some self.new.bytes ≡ Some before)) }
        ensures never_falls { self.old.faults ≤ self.new.faults }

        // It fails at just the calls of its list and where no room is left, and else takes as many
        // bytes as it can.
        ensures listed { IsErr result ↔ (Contains self.old.fail (next_call self.old.calls) ⊎ (self.old.room ≤ length self.old.bytes)) }
        ensures most { IfOk result (λ n. n ≡ min (min self.old.most (self.old.room - length self.old.bytes)) (length piece.now)) }
        ensures counted { OnErr result (self.new.faults ≡ one_more self.old.faults) }
        ensures uncounted { OnOk result (self.new.faults ≡ self.old.faults) }
        ensures calls { self.new.calls ≡ next_call self.old.calls }
        ensures same { (self.new.room ≡ self.old.room) × (self.new.most ≡ self.old.most) × (self.new.fail ≡ self.old.fail) }
    {
        self.calls = self.calls.saturating_add(1);
        let free = self.room - self.bytes.len();
        if free == 0 || is_listed(self.fail.as_slice(), self.calls) {
            self.faults = self.faults.saturating_add(1);
            return Err(Failed);
        }
        let count = self.most.min(free).min(piece.len());
        self.bytes.extend_from_slice(&piece[..count]).unwrap();
        Ok(count)
    }
}
