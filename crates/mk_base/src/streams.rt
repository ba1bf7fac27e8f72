ghost use Rattle.std.specs.Prelude.{◌≡◌, ◌≤◌, ◌++◌, ℕ, Some, length, Ok, Err, IfOk, IfSome, OnErr, OnOk};
ghost use Rattle.mk_base.specs.Outside.{Rose};
ghost use Rattle.mk_base.specs.Streams.{ReadsAll, CameWithin, CamePast, TakesPrefix};

use crate::items::{Bytes, Items, Memory};
use crate::outside::{Failed, Sink, Source};
use std::alloc::{AllocError, Global};
use thiserror::Error;

/// How many bytes are asked of a source at once.
const PIECE: usize = 4096;

/// Why a reading ended before the end of its input.
#[derive(Clone, Copy, Debug, PartialEq, Eq, Error)]
pub enum ReadRefusal {
    /// The source failed.
    #[error("the source failed")]
    Fault,
    /// More bytes came than the limit.
    #[error("the input is too long")]
    TooLong,
    /// Memory was wanted and not found.
    #[error("out of memory")]
    Memory,
}

impl From<Failed> for ReadRefusal {
    ghost use Rattle.std.specs.Prelude.{◌≡◌};
    ghost use Rattle.mk_base.specs.declared.streams.ReadRefusal.TheVariants.{Fault};

    ghost from_gives = { λ _ e. e ≡ Fault };

    fn from(_failed: Failed) -> ReadRefusal {
        ReadRefusal::Fault
    }
}

impl From<AllocError> for ReadRefusal {
    ghost use Rattle.std.specs.Prelude.{◌≡◌};
    ghost use Rattle.mk_base.specs.declared.streams.ReadRefusal.TheVariants.{Memory};

    ghost from_gives = { λ _ e. e ≡ Memory };

    fn from(_error: AllocError) -> ReadRefusal {
        ReadRefusal::Memory
    }
}

/// Reads to the end of the source, at most `limit` bytes.
pub fn read_all<S: Source>(alloc: Global, src: &mut S, limit: u32) -> Result<Bytes, ReadRefusal>
    ensures ok { IfOk result (λ bytes. IfSome (S.left src.old) (λ rest. ReadsAll rest bytes (S.left src.new))) }
    ensures within { IfOk result (λ bytes. length bytes ≤ limit) }

    // A fault comes only where the source counted one, and before more bytes than the limit came.
    ensures fault { result ≡ Err ReadRefusal.Fault → Rose (S.faults src.old) (S.faults src.new) }
    ensures fault_first { result ≡ Err ReadRefusal.Fault → IfSome (S.left src.old) (λ rest. CameWithin limit rest (S.left src.new)) }

    // Too long is answered exactly where more bytes than the limit came before an end or a fault.
    ensures too_long { result ≡ Err ReadRefusal.TooLong → IfSome (S.left src.old) (λ rest. CamePast limit rest (S.left src.new)) }
    ensures never_falls { S.faults src.old ≤ S.faults src.new }
{
    let mut bytes: Vec<u8> = Vec::new(alloc);
    let mut buf = [0u8; PIECE];
    loop {
        let count = src.read(&mut buf)?;
        if count == 0 {
            return Ok(Items::from_vec(bytes));
        }
        if count > limit as usize - bytes.len() {
            return Err(ReadRefusal::TooLong);
        }
        bytes.extend_from_slice(&buf[..count])?;
    }
}

/// Writes the whole piece. It takes no memory.
pub fn write_all<O: Sink>(sink: &mut O, piece: &[u8]) -> Result<(), Failed>
    ensures ok { OnOk result (IfSome (O.taken sink.old) (λ before. O.taken sink.new ≡ Some (before ++ piece.now))) }

    // A fault comes only where the sink counted one, and the sink then took a prefix of the piece.
    ensures failed { OnErr result (Rose (O.faults sink.old) (O.faults sink.new)) }
    ensures prefix { OnErr result (IfSome (O.taken sink.old) (λ before. TakesPrefix before piece.now (O.taken sink.new))) }
    ensures never_falls { O.faults sink.old ≤ O.faults sink.new }
{
    let mut start = 0;
    while start < piece.len() {
        let count = sink.write(&piece[start..])?;
        if count == 0 {
            return Err(Failed);
        }
        start += count;
    }
    Ok(())
}

#[cfg(test)]
mod tests {
    use super::*;
    use crate::memory::{MemSink, MemSource};

    #[test]
    fn reads_and_writes_up_to_a_fault(rt: HostRuntime) -> Result<(), Memory> {
        let alloc = rt.alloc();
        let bytes = b"0123456789abcdefghijklmnopqrstuvwxyzABCD";
        for (limit, fail, wanted) in [
            (40, 0, Ok(&bytes[..])),
            (39, 0, Err(ReadRefusal::TooLong)),
            (40, 2, Err(ReadRefusal::Fault)),
        ] {
            let mut source = MemSource::new(alloc, bytes, 16, &[fail])?;
            let read = read_all(alloc, &mut source, limit);
            let read = match &read {
                Ok(items) => Ok(items.as_slice()),
                Err(refusal) => Err(*refusal),
            };
            assert_eq!(rt; read, wanted, "limit {limit}, call {fail} fails");
        }
        for (fail, wanted, taken) in [(0, Ok(()), 40), (3, Err(Failed), 32)] {
            let mut sink = MemSink::new(alloc, 64, 16, &[fail])?;
            assert_eq!(rt; write_all(&mut sink, bytes), wanted, "call {fail} fails");
            assert_eq!(rt; sink.taken(), &bytes[..taken], "call {fail} fails");
        }
        Ok(())
    }
}
