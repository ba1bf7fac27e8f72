use super::*;
use crate::streams::{ReadRefusal, read_all, write_all};

#[test]
fn reads_and_writes_without_a_fault(rt: HostRuntime) {
    let bytes = b"0123456789";
    for (limit, wanted) in [(10, Ok(&bytes[..])), (9, Err(ReadRefusal::TooLong))] {
        let read = read_all(rt.alloc(), &mut SureSource::new(bytes), limit);
        let read = match &read {
            Ok(items) => Ok(items.as_slice()),
            Err(refusal) => Err(*refusal),
        };
        assert_eq!(rt; read, wanted, "limit {limit}");
    }
    assert_eq!(rt; write_all(&mut DropSink::new(), bytes), Ok(()));
}
