ghost use Rattle.std.specs.Prelude.{◌≡◌, ◌≤◌, ◌++◌, Err, OnOk, IsTrue, ◌↔◌};
ghost use Rattle.mk_base.specs.Outside.{Rose};
ghost use Rattle.mk_code.specs.Listing.{IsListing};
ghost use Rattle.mk_bundle.specs.declared.event.Event.TheVariants as event;
ghost use Rattle.mk_bundle.specs.declared.refusal.StreamRefusal.TheVariants as refusals;
ghost use Rattle.mk_bundle.specs.Reads.{Collects};
ghost use Rattle.mk_bundle.specs.Gathering.{gathered_of, nothing, gather, code_of, cert_of};

use crate::event::{Event, Head};
use crate::reader::BundleReader;
use crate::refusal::StreamRefusal;
use mk_base::{Items, Memory, Source};
use mk_code::{Code, InstrList, PositionList};
use mk_field::FieldId;
use mk_rules::{Bundle, Cert};
use std::alloc::Global;

/// What the events so far gave.
#[derive(Drop)]
struct Parts {
    head: Head,
    cert: Cert,
    instrs: InstrList,
    outs: PositionList,
}

/// What no event gives.
fn no_parts(alloc: Global) -> Parts
    ensures { gathered_of result ≡ nothing }
{
    Parts {
        head: Head {
            field: FieldId::Gf2,
            order: 1,
            secrets: 0,
            publics: 0,
            maps: Items::new(alloc),
        },
        cert: Cert::new(alloc),
        instrs: Items::new(alloc),
        outs: Items::new(alloc),
    }
}

/// Appends positions.
fn append(positions: &mut PositionList, more: &[u32]) -> Result<(), Memory>
    ensures { OnOk result (positions.new ≡ positions.old ++ more.now) }
{
    for position in more {
        positions.push(*position)?;
    }
    Ok(())
}

/// Takes what an event gives.
fn gather(parts: &mut Parts, answered: Event) -> Result<(), Memory>
    ensures { OnOk result (gathered_of parts.new ≡ gather (gathered_of parts.old) answered) }
{
    match answered {
        Event::Head(head) => parts.head = head,
        Event::Block(op) => parts.cert.push_block(op)?,
        Event::Claim(value) => parts.cert.push_claim(value)?,
        Event::Instr(instr) => parts.instrs.push(instr)?,
        Event::Out(positions) => append(&mut parts.outs, positions.as_slice())?,
        Event::Code | Event::End => {}
    }
    Ok(())
}

/// The bundle of these parts.
fn bundle_of(parts: Parts) -> Bundle
    requires { IsListing (code_of (gathered_of parts)) }
    ensures code { result.code ≡ code_of (gathered_of parts) }
    ensures cert { result.cert ≡ cert_of (gathered_of parts) }
{
    let Parts {
        head,
        cert,
        instrs,
        outs,
    } = parts;
    let Head {
        field,
        order,
        secrets,
        publics,
        maps,
    } = head;
    let code = Code::new(field, order, secrets, publics, maps, instrs, outs);
    Bundle { code, cert }
}

/// Whether it is the last event.
fn is_last(answered: &Event) -> bool
    ensures { IsTrue result ↔ (answered.now ≡ event.End) }
{
    matches!(answered, Event::End)
}

/// The bundle of a text that comes from a source, of which at most `limit` bytes may come.
pub fn collect_bundle<S: Source>(
    alloc: Global,
    src: &mut S,
    limit: u32,
) -> Result<Bundle, StreamRefusal>
    // The source is read to its end, and the bytes are the text of the bundle; or they are refused.
    ensures collects { Collects result limit (S.left src.old) (S.left src.new) }

    // A fault comes only where the source counted one.
    ensures fault { result ≡ Err refusals.Fault → Rose (S.faults src.old) (S.faults src.new) }
    ensures never_falls { S.faults src.old ≤ S.faults src.new }
{
    let mut reader = BundleReader::new(alloc, limit)?;
    let mut parts = no_parts(alloc);
    loop {
        let next = reader.next(src)?;
        if is_last(&next) {
            return Ok(bundle_of(parts));
        }
        gather(&mut parts, next)?;
    }
}
