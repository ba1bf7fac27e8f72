//! Reports: what each block of an accepted certificate costs, and which places of products each value
//! reaches.
//!
//! A report is lines that end with a line feed, their words one space apart. First stands `sK input 0 0
//! NEED PLACES` for each secret, then `bK KIND INSTRUCTIONS RANDOMS NEED PLACES` for each block, and then
//! `total BLOCKS INSTRUCTIONS RANDOMS WIDTH`. `KIND` is the word that stands for the operator in a bundle
//! text, and `NEED` is how many places of products the value reaches. `PLACES` are the first eight of these,
//! as `bK.0` or `bK.1`, by block and then place, with commas between, or `-` where there is none. `WIDTH` is
//! the least number of registers that the code can do with: the most entries of its trace that are wanted at
//! once, and at least one for each share and public input.
#![tactic(auto)]

ghost use Rattle.std.specs.Prelude.{IfOk};
ghost use Rattle.mk_rules.specs.Accepts.{IsAccepted};
ghost use Rattle.mk_report.specs.Report.{IsReport};

mod laws;
mod lines;
mod need;
mod reached;

pub use laws::report_law;
use lines::push_report;
use mk_base::{Bytes, Items, Memory};
use mk_code::Code;
use mk_regs::width;
use mk_rules::Cert;
use reached::reached;
use std::alloc::Global;

/// The report of a code and its certificate, which the rule accepts; there is one. `Memory` comes where
/// memory is wanted and not found.
pub fn report(alloc: Global, code: &Code, cert: &Cert) -> Result<Bytes, Memory>
    requires accepted { IsAccepted code.now cert.now }
    ensures report { IfOk result (λ bytes. IsReport code.now cert.now bytes) }
{
    let blocks = cert.blocks().as_slice();
    let registers = width(alloc, code)?;
    let told = reached(alloc, code, blocks)?;
    let mut text = String::new(alloc);
    push_report(&mut text, code, blocks, told.as_slice(), registers)?;
    let bytes = text.into_bytes();
    if bytes.len() > u32::MAX as usize {
        return Err(Memory);
    }
    Ok(Items::from_vec(bytes))
}
