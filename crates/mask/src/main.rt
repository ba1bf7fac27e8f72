//! The program: it takes the arguments after its name as words, and reads from standard input and
//! writes to standard output and standard error through the adapters in `standard`.
#![tactic(auto)]

mod standard;

use crate::standard::{StdErr, StdOut, StdSource};
use mk_base::{Items, Memory, Words, write_all};
use mk_top::{Status, code_of, mask_main};
use std::env;
use std::io::ErrorKind;
use std::process::ExitCode;

/// The most bytes of one word.
const MOST_BYTES: usize = u32::MAX as usize;

fn main(rt: HostRuntime) -> ExitCode {
    let mut err = StdErr::new(rt.stderr());
    let Ok(words) = words(&rt) else {
        let _ = write_all(&mut err, b"8 memory\n");
        return ExitCode::from(code_of(Status::Memory));
    };
    let mut source = StdSource::new(rt.stdin());
    let mut out = StdOut::new(rt.stdout());
    let status = mask_main(rt.alloc(), &words, &mut source, &mut out, &mut err);
    ExitCode::from(code_of(status))
}

/// The arguments after the program's name. Where one of them is not text there are no words, which is
/// refused as the arguments would be.
fn words(rt: &HostRuntime) -> Result<Words, Memory> {
    let mut words = Items::new(rt.alloc());
    let arguments = match env::args(rt) {
        Ok(arguments) => arguments,
        Err(error) if error.kind() == ErrorKind::InvalidData => return Ok(words),
        Err(_) => return Err(Memory),
    };
    for argument in arguments.skip(1) {
        let bytes = argument.into_bytes();
        if bytes.len() > MOST_BYTES {
            return Err(Memory);
        }
        words.push(Items::from_vec(bytes))?;
    }
    Ok(words)
}
