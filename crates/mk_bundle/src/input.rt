//! The bytes of a source, of which a reader holds a few.

ghost use Rattle.std.specs.Prelude.{◌≡◌, ◌≤◌, ◌<◌, ◌+◌, ◌++◌, [], Err, ℕ, IfOk, IfSome, IfNone, OnOk, OnErr, length, drop};
ghost use Rattle.mk_base.specs.Outside.{Rose};
ghost use Rattle.mk_lines.specs.declared.words.TheConstants.{MOST_LINE};
ghost use Rattle.mk_bundle.specs.declared.TheConstants.{MOST_HELD};
ghost use Rattle.mk_bundle.specs.declared.input.TheConstants.{PIECE};
ghost use Rattle.mk_bundle.specs.declared.refusal.StreamRefusal.TheVariants as refusals;

use crate::MOST_HELD;
use crate::refusal::StreamRefusal;
use arrayvec::ArrayVec;
use mk_base::{Memory, Source};
use mk_code::Instr;
use mk_lines::{MOST_LINE, cut, instr_at, into_at};
use std::alloc::Global;
use std::marker::Model;

/// So many bytes are asked of a source at once, where fewer than those of the longest line are held.
const PIECE: usize = MOST_HELD - MOST_LINE;

/// Bytes that came and were not read yet.
#[derive(Debug, Drop)]
pub(crate) struct Input {
    bytes: Vec<u8>,
    start: usize,
    count: u32,
    limit: u32,
}

impl Model for Input {
    ghost use Rattle.std.specs.Prelude.{◌≤◌, drop, length};
    ghost use Rattle.mk_bundle.specs.declared.TheConstants.{MOST_HELD};
    ghost use Rattle.mk_bundle.specs.Taking.{Held};

    ghost Value = { Held };

    ghost view = { λ s. record { pending = drop s.start s.bytes.items; count = s.count; limit = s.limit } };

    ghost invariant = { λ s. (s.start ≤ length s.bytes.items) × (length s.bytes.items ≤ MOST_HELD) × (s.count ≤ s.limit) };
}

impl Input {
    ghost use Rattle.mk_code.specs.declared.instr.Instr.{Instr};
    ghost use Rattle.mk_bundle.specs.Taking.{Feeds, Drains, Fronts, IsInstrLine, IsIntoLine};

    /// Nothing came yet.
    pub(crate) fn new(alloc: Global, limit: u32) -> Result<Input, Memory>
        ensures { IfOk result (λ s. s ≡ record { pending = []; count = 0; limit = limit }) }
    {
        Ok(Input {
            bytes: Vec::with_capacity(alloc, MOST_HELD)?,
            start: 0,
            count: 0,
            limit,
        })
    }

    /// How many bytes came.
    pub(crate) fn count(&self) -> u32
        ensures { result ≡ self.now.count }
    {
        self.count
    }

    /// How many bytes are held.
    pub(crate) fn len(&self) -> usize
        ensures value { result ≡ length self.now.pending }
        ensures few { result ≤ MOST_HELD }
    {
        self.bytes.len() - self.start
    }

    /// The bytes that are held.
    fn bytes(&self) -> &[u8]
        ensures { result.now ≡ self.now.pending }
    {
        &self.bytes[self.start..]
    }

    /// The first line that is held, without its line feed.
    pub(crate) fn line(&self) -> Option<&[u8]>
        ensures { Fronts result self.now.pending }
    {
        let (line, _behind) = cut(self.bytes())?;
        Some(line)
    }

    /// The instruction of the first line that is held, and how many bytes its line has before the line feed. `None`
    /// where it isn't the line of an instruction.
    pub(crate) fn instr(&self) -> Option<(Instr, usize)>
        ensures some { IfSome result (λ x. IsInstrLine x.0 x.1 self.now.pending) }
        ensures none { IfNone result ((i : Instr) (n : ℕ) → IsInstrLine i n self.now.pending → ⊥) }
    {
        let held = self.bytes();
        let (instr, behind) = instr_at(held)?;
        let [feed, ..] = behind else {
            return None;
        };
        if *feed != b'\n' {
            return None;
        }
        Some((instr, held.len() - behind.len()))
    }

    /// The instruction over registers of the first line that is held, behind the register that it writes, and how many
    /// bytes its line has before the line feed. `None` where it isn't the line of such an instruction.
    pub(crate) fn instr_into(&self) -> Option<((u32, Instr), usize)>
        ensures some { IfSome result (λ x. IsIntoLine x.0 x.1 self.now.pending) }
        ensures none { IfNone result ((x : ℕ × Instr) (n : ℕ) → IsIntoLine x n self.now.pending → ⊥) }
    {
        let held = self.bytes();
        let (into, behind) = into_at(held)?;
        let [feed, ..] = behind else {
            return None;
        };
        if *feed != b'\n' {
            return None;
        }
        Some((into, held.len() - behind.len()))
    }

    /// Gives up the first bytes.
    pub(crate) fn pass(&mut self, count: usize)
        requires { count ≤ length self.old.pending }
        ensures { self.new ≡ record self.old { pending = drop count self.old.pending } }
    {
        self.start += count;
    }

    /// Holds these bytes too, behind the others.
    fn append(&mut self, piece: &[u8]) -> Result<(), Memory>
        requires few { length self.old.pending < MOST_LINE }
        requires short { length piece.now ≤ PIECE }
        ensures ok { OnOk result (self.new ≡ record self.old { pending = self.old.pending ++ piece.now }) }
        ensures limit { self.new.limit ≡ self.old.limit }
        ensures count { self.new.count ≡ self.old.count }
        ensures fewer { OnErr result (length self.new.pending ≤ length self.old.pending) }
    {
        let mut kept: ArrayVec<u8, MOST_LINE> = ArrayVec::new();
        let _kept = kept.try_extend_from_slice(&self.bytes[self.start..]);
        self.bytes.clear();
        self.start = 0;
        self.bytes.extend_from_slice(kept.as_slice())?;
        self.bytes.extend_from_slice(piece)?;
        Ok(())
    }

    /// How many bytes may come still.
    fn room(&self) -> usize
        ensures { self.now.count + result ≡ self.now.limit }
    {
        (self.limit - self.count) as usize
    }

    /// Counts bytes that came.
    fn came(&mut self, count: usize)
        requires { self.old.count + count ≤ self.old.limit }
        ensures { self.new ≡ record self.old { count = self.old.count + count } }
    {
        let _limit = self.limit;
        self.count += count as u32;
    }

    /// Asks for the next bytes, and answers how many came.
    pub(crate) fn fill<S: Source>(&mut self, src: &mut S) -> Result<usize, StreamRefusal>
        requires { length self.old.pending < MOST_LINE }
        ensures fed { Feeds result self.old self.new (S.left src.old) (S.left src.new) }
        ensures limit { self.new.limit ≡ self.old.limit }
        ensures held { length self.new.pending + self.old.count ≤ self.new.count + length self.old.pending }
        ensures fault { result ≡ Err refusals.Fault → Rose (S.faults src.old) (S.faults src.new) }
        ensures never_falls { S.faults src.old ≤ S.faults src.new }
    {
        let room = self.room();
        let mut piece = [0u8; PIECE];
        let count = src.read(&mut piece)?;
        if count > room {
            return Err(StreamRefusal::TooLong);
        }
        self.append(&piece[..count])?;
        self.came(count);
        Ok(count)
    }

    /// Reads to the end, and keeps nothing of it.
    pub(crate) fn drain<S: Source>(&mut self, src: &mut S) -> Result<(), StreamRefusal>
        ensures drained { Drains result self.old (S.left src.old) (S.left src.new) }
        ensures limit { self.new.limit ≡ self.old.limit }
        ensures held { length self.new.pending + self.old.count ≤ self.new.count + length self.old.pending }
        ensures fault { result ≡ Err refusals.Fault → Rose (S.faults src.old) (S.faults src.new) }
        ensures never_falls { S.faults src.old ≤ S.faults src.new }
    {
        let _room = self.room();
        let mut piece = [0u8; PIECE];
        loop {
            let left = self.room();
            let count = src.read(&mut piece)?;
            if count == 0 {
                return Ok(());
            }
            if count > left {
                return Err(StreamRefusal::TooLong);
            }
            self.came(count);
        }
    }
}
