//! Bundles: checked while they are read.

ghost use Rattle.std.specs.Prelude.{◌≡◌, ◌≤◌, ◌<◌, ℕ, List, [], ◌∷◌, ◌++◌, Option, OnOk, IfOk, IfErr, codes};
ghost use Rattle.mk_bundle.specs.Reads.{IsGoing, to_come};
ghost use Rattle.mk_bundle.specs.Events.{AreFirst};
ghost use Rattle.mk_bundle.specs.declared.event.Event.{Event};
ghost use Rattle.mk_bundle.specs.declared.event.Event.TheVariants as event;
ghost use Rattle.mk_words.specs.Words.{Check};
ghost use Rattle.mk_top.specs.Reading.{Reading, GivesBundle, IsInput, GivesCertificate, IsBegun};
ghost use Rattle.mk_top.specs.Seen.{Seen, seen};
ghost use Rattle.mk_top.specs.Running.{Made, NoText, NoBundle, Checked};

use crate::fault::Fault;
use crate::outputs::bytes_of;
use mk_base::{Bytes, Memory, Source};
use mk_bundle::{BundleReader, Event, Head, MOST_BYTES};
use mk_check::Checker;
use mk_rules::Cert;
use std::alloc::Global;

/// The next event of the text that is read.
fn next_event<S: Source>(reader: &mut BundleReader, src: &mut S) -> Result<Event, Fault>
    requires { IsGoing reader.old }
    ensures read { (before : Option (List ℕ)) (events : List Event) → Reading before (S.left src.old) reader.old events
        → IfOk result (λ e. Reading before (S.left src.new) reader.new (events ++ e ∷ [])) }
    ensures first { (before : Option (List ℕ)) (events : List Event) → Reading before (S.left src.old) reader.old events
        → IfOk result (λ e. AreFirst (events ++ e ∷ [])) }
    ensures whole { (before : Option (List ℕ)) (events : List Event) → Reading before (S.left src.old) reader.old events
        → IfOk result (λ e. e ≡ event.End → GivesBundle before (S.left src.new) events) }
    ensures fault { (input : Seen) (events : List Event)
        → IsInput input (S.faults src.old) (S.left src.new) (S.faults src.new)
        → Reading input.before (S.left src.old) reader.old events → IfErr result (NoBundle input) }
    ensures going { IfOk result (λ e. (e ≡ event.End → ⊥) → IsGoing reader.new) }
    ensures fewer { OnOk result (to_come reader.new < to_come reader.old) }
    ensures never_falls { S.faults src.old ≤ S.faults src.new }
{
    Ok(reader.next(src)?)
}

/// What stands before the blocks.
fn read_head<S: Source>(reader: &mut BundleReader, src: &mut S) -> Result<Head, Fault>
    requires going { IsGoing reader.old }
    requires begins { (before : Option (List ℕ)) × Reading before (S.left src.old) reader.old [] }
    ensures read { (before : Option (List ℕ)) → Reading before (S.left src.old) reader.old []
        → IfOk result (λ head. Reading before (S.left src.new) reader.new (event.Head head ∷ [])) }
    ensures fault { (input : Seen) → IsInput input (S.faults src.old) (S.left src.new) (S.faults src.new)
        → Reading input.before (S.left src.old) reader.old [] → IfErr result (NoBundle input) }
    ensures going { OnOk result (IsGoing reader.new) }
    ensures never_falls { S.faults src.old ≤ S.faults src.new }
{
    match next_event(reader, src)? {
        Event::Head(head) => Ok(head),
        _ => unreachable!(),
    }
}

/// The certificate that the blocks and claims give, up to the line `code`.
fn read_certificate<S: Source>(
    alloc: Global,
    reader: &mut BundleReader,
    src: &mut S,
    head: &Head,
) -> Result<Cert, Fault>
    requires going { IsGoing reader.old }
    requires begins { (before : Option (List ℕ)) × Reading before (S.left src.old) reader.old (event.Head head.now ∷ []) }
    ensures read { (before : Option (List ℕ)) → Reading before (S.left src.old) reader.old (event.Head head.now ∷ [])
        → IfOk result (GivesCertificate before (S.left src.new) reader.new head.now) }
    ensures fault { (input : Seen) → IsInput input (S.faults src.old) (S.left src.new) (S.faults src.new)
        → Reading input.before (S.left src.old) reader.old (event.Head head.now ∷ []) → IfErr result (NoBundle input) }
    ensures going { OnOk result (IsGoing reader.new) }
    ensures never_falls { S.faults src.old ≤ S.faults src.new }
{
    let mut cert = Cert::new(alloc);
    loop {
        match next_event(reader, src)? {
            Event::Block(op) => cert.push_block(op)?,
            Event::Claim(value) => cert.push_claim(value)?,
            // The line `code`.
            _ => return Ok(cert),
        }
    }
}

/// What a checker says of the instructions and outputs behind the line `code`.
fn judged<S: Source>(reader: BundleReader, src: &mut S, checker: Checker) -> Result<(), Fault>
    requires going { IsGoing reader }
    requires begins { (before : Option (List ℕ)) × IsBegun before (S.left src.old) reader checker }
    ensures checked { (before : Option (List ℕ)) → IsBegun before (S.left src.old) reader checker
        → OnOk result (Checked before (S.left src.new)) }
    ensures fault { (input : Seen) → IsInput input (S.faults src.old) (S.left src.new) (S.faults src.new)
        → IsBegun input.before (S.left src.old) reader checker → IfErr result (NoText Check input) }
    ensures never_falls { S.faults src.old ≤ S.faults src.new }
{
    let mut reader = reader;
    let mut checker = checker;
    loop {
        match next_event(&mut reader, src)? {
            Event::Instr(instr) => checker.instr(instr),
            Event::Out(positions) => checker.out(&positions),
            // The end.
            _ => return Ok(checker.finish()?),
        }
    }
}

/// Checks the bundle whose text is all that the input gives. No more of the text is kept than a few lines, and of a
/// bundle over registers what these hold.
fn verdict<S: Source>(alloc: Global, src: &mut S) -> Result<(), Fault>
    ensures checked { OnOk result (Checked (S.left src.old) (S.left src.new)) }
    ensures fault { IfErr result (NoText Check (seen S.left S.faults src.old src.new)) }
    ensures reads { S.faults src.old ≤ S.faults src.new }
{
    let mut reader = BundleReader::new(alloc, MOST_BYTES)?;
    let head = read_head(&mut reader, src)?;
    let cert = read_certificate(alloc, &mut reader, src, &head)?;
    let checker = Checker::new(
        alloc,
        head.order,
        head.secrets,
        head.publics,
        head.field,
        head.maps.len() as u32,
        cert,
    )?;
    judged(reader, src, checker)
}

/// The line that tells that a bundle is accepted.
fn accepted_line(alloc: Global) -> Result<Bytes, Memory>
    ensures { IfOk result (λ line. line ≡ codes "accepted\n") }
{
    let mut line = String::new(alloc);
    line.push_str("accepted\n")?;
    bytes_of(line)
}

/// Reads a bundle to its end, checks it, and answers the line that tells that it is accepted.
pub(crate) fn checked_text<S: Source>(alloc: Global, src: &mut S) -> Result<Bytes, Fault>
    ensures made { IfOk result (Made Check (seen S.left S.faults src.old src.new)) }
    ensures unmade { IfErr result (NoText Check (seen S.left S.faults src.old src.new)) }
    ensures reads { S.faults src.old ≤ S.faults src.new }
{
    verdict(alloc, src)?;
    Ok(accepted_line(alloc)?)
}
