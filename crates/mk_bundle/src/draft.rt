//! What was read of a bundle text of version 1 so far, and how a line goes on with it. The lines that both versions have
//! are read so in version 2 too.

ghost use Rattle.std.specs.Prelude.{◌≡◌, ◌≤◌, ◌<◌, ◌+◌, ◌*◌, [], IfSome, IsTrue, ◌↔◌};
ghost use Rattle.mk_bundle.specs.declared.draft.Stage.TheVariants.{Lower, Ended};
ghost use Rattle.mk_base.specs.declared.TheConstants.{TOP_ORDER};
ghost use Rattle.mk_field.specs.Field.{size};
ghost use Rattle.mk_code.specs.Listing.{inputs_len};
ghost use Rattle.mk_code.specs.declared.TheConstants.{MOST_INPUTS, MOST_MAPS, MOST_INSTRS};
ghost use Rattle.mk_rules.specs.declared.TheConstants.{MOST_BLOCKS};
ghost use Rattle.mk_bundle.specs.Events.{has_begun};
ghost use Rattle.mk_bundle.specs.Reading.{start, headed, fits_at};
ghost use Rattle.mk_bundle.specs.Counting.{seen_of, summary, HasBounds, Steps, entries, version_counted, field_counted, order_counted, secrets_counted, publics_counted, map_counts, map_counted, block_counts, block_counted, claim_counted, code_counted, cert_counted, upper_counted, instr_counts, instr_counted, out_counted, lower_counted, line_counted};

use crate::TEXT_TOP_ORDER;
use crate::event::{Event, Head};
use mk_base::Items;
use mk_code::{Instr, MOST_INPUTS, MOST_INSTRS, MOST_MAPS, MapList};
use mk_field::FieldId;
use mk_lines::{
    LineRefusal, after, field_of, instr_of, map_of, number_of, op_of, operand_of, positions_of,
};
use mk_rules::{MOST_BLOCKS, MOST_CLAIMS};
use std::alloc::Global;
use std::mem;

/// Which lines stand next.
#[derive(Clone, Copy, Debug, PartialEq, Eq)]
pub(crate) enum Stage {
    /// `mask 1` or `mask 2`.
    Version,
    /// The field.
    Field,
    /// The order.
    Order,
    /// The number of secrets.
    Secrets,
    /// The number of publics.
    Publics,
    /// Maps, in version 2 the number of registers, then blocks, then claims, and then `code`.
    Upper,
    /// Instructions, then outputs, and then `end`.
    Lower,
    /// No line.
    Ended,
}

/// What is kept of what was read so far.
#[derive(Debug, Drop)]
pub(crate) struct Draft {
    pub stage: Stage,
    pub field: FieldId,
    pub order: u8,
    pub secrets: u32,
    pub publics: u32,
    /// The maps of which no event told yet.
    pub untold: MapList,
    /// How many maps there were.
    pub maps: u32,
    /// How many blocks there were.
    pub blocks: u32,
    /// How many claims there were.
    pub claims: u32,
    /// How many instructions there were.
    pub instrs: u32,
    /// How many positions of outputs there were.
    pub outs: u32,
}

/// What a line is refused for, or the event that it gives, if it has one of its own.
pub(crate) type Line = Result<Option<Event>, LineRefusal>;

/// Before the first line.
pub(crate) fn empty_draft(alloc: Global) -> Draft
    ensures empty { seen_of result ≡ summary start [] }
    ensures bounds { HasBounds (seen_of result) }
{
    Draft {
        stage: Stage::Version,
        field: FieldId::Gf2,
        order: 1,
        secrets: 0,
        publics: 0,
        untold: Items::new(alloc),
        maps: 0,
        blocks: 0,
        claims: 0,
        instrs: 0,
        outs: 0,
    }
}

/// The line of the version.
#[tactic(auto, unfolding(crate::specs::Counting::version_counted))]
pub(crate) fn read_version(draft: &mut Draft, line: &[u8]) -> Line
    requires { HasBounds (seen_of draft.old) }
    ensures steps { Steps result (seen_of draft.new) (version_counted (seen_of draft.old) line.now) }
    ensures bounds { HasBounds (seen_of draft.new) }
    ensures grows { draft.old.instrs ≤ draft.new.instrs }
{
    if line != b"mask 1".as_slice() {
        return Err(LineRefusal::Form);
    }
    draft.stage = Stage::Field;
    Ok(None)
}

/// The line of the field.
#[tactic(auto, unfolding(crate::specs::Counting::field_counted))]
fn read_field(draft: &mut Draft, line: &[u8]) -> Line
    requires { HasBounds (seen_of draft.old) }
    ensures steps { Steps result (seen_of draft.new) (field_counted (seen_of draft.old) line.now) }
    ensures bounds { HasBounds (seen_of draft.new) }
    ensures grows { draft.old.instrs ≤ draft.new.instrs }
{
    let field = field_of(line).ok_or(LineRefusal::Form)?;
    draft.field = field;
    draft.stage = Stage::Order;
    Ok(None)
}

/// The number in a line that begins so, at most `most`.
#[tactic(auto, unfolding(crate::specs::Reading::headed))]
pub(crate) fn headed(name: &[u8], most: u32, line: &[u8]) -> Option<u32>
    ensures value { result ≡ headed name.now most line.now }
    ensures few { IfSome result (λ number. number ≤ most) }
{
    let rest = after(name, line)?;
    let number = number_of(rest)?;
    if number > most {
        return None;
    }
    Some(number)
}

/// The line of the order, which is at most `most`.
#[tactic(auto, unfolding(crate::specs::Counting::order_counted))]
pub(crate) fn read_order(draft: &mut Draft, most: u8, line: &[u8]) -> Line
    requires bounds { HasBounds (seen_of draft.old) }
    requires most { most ≤ TOP_ORDER }
    ensures steps { Steps result (seen_of draft.new) (order_counted most (seen_of draft.old) line.now) }
    ensures bounds { HasBounds (seen_of draft.new) }
    ensures grows { draft.old.instrs ≤ draft.new.instrs }
{
    let number = headed(b"order ", u32::from(most), line).ok_or(LineRefusal::Form)?;
    if number < 1 {
        return Err(LineRefusal::Form);
    }
    draft.order = number as u8;
    draft.stage = Stage::Secrets;
    Ok(None)
}

/// The line of the number of secrets.
#[tactic(auto, unfolding(crate::specs::Counting::secrets_counted))]
fn read_secrets(draft: &mut Draft, line: &[u8]) -> Line
    requires { HasBounds (seen_of draft.old) }
    ensures steps { Steps result (seen_of draft.new) (secrets_counted (seen_of draft.old) line.now) }
    ensures bounds { HasBounds (seen_of draft.new) }
    ensures grows { draft.old.instrs ≤ draft.new.instrs }
{
    let number = headed(b"secrets ", MOST_INPUTS, line).ok_or(LineRefusal::Form)?;
    draft.secrets = number;
    draft.stage = Stage::Publics;
    Ok(None)
}

/// The line of the number of publics.
#[tactic(auto, unfolding(crate::specs::Counting::publics_counted))]
fn read_publics(draft: &mut Draft, line: &[u8]) -> Line
    requires { HasBounds (seen_of draft.old) }
    ensures steps { Steps result (seen_of draft.new) (publics_counted (seen_of draft.old) line.now) }
    ensures bounds { HasBounds (seen_of draft.new) }
    ensures grows { draft.old.instrs ≤ draft.new.instrs }
{
    let number = headed(b"publics ", MOST_INPUTS, line).ok_or(LineRefusal::Form)?;
    draft.publics = number;
    draft.stage = Stage::Upper;
    Ok(None)
}

/// Whether a map may stand here: before blocks and claims.
#[tactic(auto, unfolding(crate::specs::Counting::map_counts))]
fn may_map(draft: &Draft) -> bool
    ensures counts { result ≡ map_counts (seen_of draft.now) }
    ensures few { IsTrue result → draft.now.maps < MOST_MAPS }
{
    draft.field.has_maps() && draft.blocks < 1 && draft.claims < 1 && draft.maps < MOST_MAPS
}

/// The line of a map, behind its first word.
#[tactic(auto, unfolding(crate::specs::Counting::map_counted))]
pub(crate) fn read_map(draft: &mut Draft, words: &[u8]) -> Line
    requires { HasBounds (seen_of draft.old) }
    ensures steps { Steps result (seen_of draft.new) (map_counted (seen_of draft.old) words.now) }
    ensures bounds { HasBounds (seen_of draft.new) }
    ensures grows { draft.old.instrs ≤ draft.new.instrs }
{
    let map = map_of(words).ok_or(LineRefusal::Form)?;
    if !may_map(draft) {
        return Err(LineRefusal::Form);
    }
    draft.untold.push(map)?;
    draft.maps += 1;
    Ok(None)
}

/// Whether a block may stand here: before claims.
#[tactic(auto, unfolding(crate::specs::Counting::block_counts))]
fn may_block(draft: &Draft) -> bool
    ensures counts { result ≡ block_counts (seen_of draft.now) }
    ensures few { IsTrue result → draft.now.blocks < MOST_BLOCKS }
{
    draft.claims < 1 && draft.blocks < MOST_BLOCKS
}

/// The line of a block, behind its first word.
#[tactic(auto, unfolding(crate::specs::Counting::block_counted))]
fn read_block(draft: &mut Draft, words: &[u8]) -> Line
    requires { HasBounds (seen_of draft.old) }
    ensures steps { Steps result (seen_of draft.new) (block_counted (seen_of draft.old) words.now) }
    ensures bounds { HasBounds (seen_of draft.new) }
    ensures grows { draft.old.instrs ≤ draft.new.instrs }
{
    let op = op_of(words).ok_or(LineRefusal::Form)?;
    if !may_block(draft) {
        return Err(LineRefusal::Form);
    }
    draft.blocks += 1;
    Ok(Some(Event::Block(op)))
}

/// The line of a claim, behind its first word.
#[tactic(auto, unfolding(crate::specs::Counting::claim_counted))]
fn read_claim(draft: &mut Draft, words: &[u8]) -> Line
    requires { HasBounds (seen_of draft.old) }
    ensures steps { Steps result (seen_of draft.new) (claim_counted (seen_of draft.old) words.now) }
    ensures bounds { HasBounds (seen_of draft.new) }
    ensures grows { draft.old.instrs ≤ draft.new.instrs }
{
    let value = operand_of(words).ok_or(LineRefusal::Form)?;
    if draft.claims >= MOST_CLAIMS {
        return Err(LineRefusal::Form);
    }
    draft.claims += 1;
    Ok(Some(Event::Claim(value)))
}

/// The line `code`.
#[tactic(auto, unfolding(crate::specs::Counting::code_counted))]
fn read_code(draft: &mut Draft, line: &[u8]) -> Line
    requires { HasBounds (seen_of draft.old) }
    ensures steps { Steps result (seen_of draft.new) (code_counted (seen_of draft.old) line.now) }
    ensures bounds { HasBounds (seen_of draft.new) }
    ensures grows { draft.old.instrs ≤ draft.new.instrs }
{
    if line != b"code".as_slice() {
        return Err(LineRefusal::Form);
    }
    draft.stage = Stage::Lower;
    Ok(Some(Event::Code))
}

/// A line of the certificate.
#[tactic(auto, unfolding(crate::specs::Counting::cert_counted))]
pub(crate) fn read_cert(draft: &mut Draft, line: &[u8]) -> Line
    requires { HasBounds (seen_of draft.old) }
    ensures steps { Steps result (seen_of draft.new) (cert_counted (seen_of draft.old) line.now) }
    ensures bounds { HasBounds (seen_of draft.new) }
    ensures grows { draft.old.instrs ≤ draft.new.instrs }
{
    if let Some(words) = after(b"block ", line) {
        return read_block(draft, words);
    }
    if let Some(words) = after(b"claim ", line) {
        return read_claim(draft, words);
    }
    read_code(draft, line)
}

/// A line between the head and the code.
#[tactic(auto, unfolding(crate::specs::Counting::upper_counted))]
fn read_upper(draft: &mut Draft, line: &[u8]) -> Line
    requires { HasBounds (seen_of draft.old) }
    ensures steps { Steps result (seen_of draft.new) (upper_counted (seen_of draft.old) line.now) }
    ensures bounds { HasBounds (seen_of draft.new) }
    ensures grows { draft.old.instrs ≤ draft.new.instrs }
{
    if let Some(words) = after(b"map ", line) {
        return read_map(draft, words);
    }
    read_cert(draft, line)
}

/// How many shares and public inputs there are.
pub(crate) fn inputs_len(draft: &Draft) -> u32
    requires { HasBounds (seen_of draft.now) }
    ensures value { result ≡ inputs_len draft.now.order draft.now.secrets draft.now.publics }
    ensures few { result ≤ MOST_INPUTS * (TOP_ORDER + 2) }
{
    draft.secrets * (u32::from(draft.order) + 1) + draft.publics
}

/// How many entries the trace has so far.
fn trace_len(draft: &Draft) -> u32
    requires { HasBounds (seen_of draft.now) }
    ensures { result ≡ entries (seen_of draft.now) }
{
    inputs_len(draft) + draft.instrs
}

/// The greatest element of a field.
pub(crate) fn greatest(field: FieldId) -> u8
    ensures { result + 1 ≡ size field }
{
    match field {
        FieldId::Gf2 => 1,
        FieldId::Gf256 => 255,
    }
}

/// Whether the instruction fits behind `len` entries in a code with so many maps.
#[tactic(auto, unfolding(crate::specs::Reading::fits_at))]
fn fits_at(field: FieldId, maps: u32, len: u32, instr: Instr) -> bool
    ensures { result ≡ fits_at field maps len instr }
{
    match instr {
        Instr::Rnd => true,
        Instr::Const { value } => value <= greatest(field),
        Instr::Copy { from } => from < len,
        Instr::Add { left, right } => left < len && right < len,
        Instr::Mul { left, right } => left < len && right < len,
        Instr::Sq { from } => from < len,
        Instr::Map { map, from } => map < maps && from < len,
    }
}

/// Whether the instruction may stand here: before outputs.
#[tactic(auto, unfolding(crate::specs::Counting::instr_counts))]
pub(crate) fn may_instr(draft: &Draft, instr: Instr) -> bool
    requires { HasBounds (seen_of draft.now) }
    ensures counts { result ≡ instr_counts (seen_of draft.now) instr }
    ensures few { IsTrue result → draft.now.instrs < MOST_INSTRS }
{
    draft.outs < 1
        && draft.instrs < MOST_INSTRS
        && fits_at(draft.field, draft.maps, trace_len(draft), instr)
}

/// One instruction more.
pub(crate) fn count_instr(draft: &mut Draft)
    requires { draft.old.instrs < MOST_INSTRS }
    ensures { seen_of draft.new ≡ record (seen_of draft.old) { instrs = draft.old.instrs + 1 } }
{
    draft.instrs += 1;
}

/// The line of an instruction.
#[tactic(auto, unfolding(crate::specs::Counting::instr_counted))]
fn read_instr(draft: &mut Draft, line: &[u8]) -> Line
    requires { HasBounds (seen_of draft.old) }
    ensures steps { Steps result (seen_of draft.new) (instr_counted (seen_of draft.old) line.now) }
    ensures bounds { HasBounds (seen_of draft.new) }
    ensures grows { draft.old.instrs ≤ draft.new.instrs }
{
    let instr = instr_of(line).ok_or(LineRefusal::Form)?;
    if !may_instr(draft, instr) {
        return Err(LineRefusal::Form);
    }
    count_instr(draft);
    Ok(Some(Event::Instr(instr)))
}

/// The line of an output, behind its first word.
#[tactic(auto, unfolding(crate::specs::Counting::out_counted))]
fn read_out(draft: &mut Draft, alloc: Global, words: &[u8]) -> Line
    requires { HasBounds (seen_of draft.old) }
    ensures steps { Steps result (seen_of draft.new) (out_counted (seen_of draft.old) words.now) }
    ensures bounds { HasBounds (seen_of draft.new) }
    ensures grows { draft.old.instrs ≤ draft.new.instrs }
{
    let len = trace_len(draft);
    let shares = u32::from(draft.order) + 1;
    if draft.outs >= MOST_INPUTS * shares {
        return Err(LineRefusal::Form);
    }
    let positions = positions_of(alloc, shares, u64::from(len), words)?;
    draft.outs += shares;
    Ok(Some(Event::Out(positions)))
}

/// A line of the code.
#[tactic(auto, unfolding(crate::specs::Counting::lower_counted))]
fn read_lower(draft: &mut Draft, alloc: Global, line: &[u8]) -> Line
    requires { HasBounds (seen_of draft.old) }
    ensures steps { Steps result (seen_of draft.new) (lower_counted (seen_of draft.old) line.now) }
    ensures bounds { HasBounds (seen_of draft.new) }
    ensures grows { draft.old.instrs ≤ draft.new.instrs }
{
    if let Some(words) = after(b"out", line) {
        return read_out(draft, alloc, words);
    }
    if line == b"end".as_slice() {
        draft.stage = Stage::Ended;
        return Ok(Some(Event::End));
    }
    read_instr(draft, line)
}

/// One line more of version 1.
#[tactic(auto, unfolding(crate::specs::Counting::counted_at))]
pub(crate) fn read_line(draft: &mut Draft, alloc: Global, line: &[u8]) -> Line
    requires { HasBounds (seen_of draft.old) }
    ensures steps { Steps result (seen_of draft.new) (line_counted (seen_of draft.old) line.now) }
    ensures bounds { HasBounds (seen_of draft.new) }
    ensures grows { draft.old.instrs ≤ draft.new.instrs }
{
    match draft.stage {
        Stage::Version => read_version(draft, line),
        Stage::Field => read_field(draft, line),
        Stage::Order => read_order(draft, TEXT_TOP_ORDER, line),
        Stage::Secrets => read_secrets(draft, line),
        Stage::Publics => read_publics(draft, line),
        Stage::Upper => read_upper(draft, line),
        Stage::Lower => read_lower(draft, alloc, line),
        Stage::Ended => Err(LineRefusal::Form),
    }
}

/// Whether the lines of the maps ended.
#[tactic(auto, unfolding(crate::specs::Events::has_begun))]
pub(crate) fn has_begun(draft: &Draft) -> bool
    ensures { result ≡ has_begun draft.now.stage draft.now.blocks draft.now.claims }
{
    match draft.stage {
        Stage::Version | Stage::Field | Stage::Order | Stage::Secrets | Stage::Publics => false,
        Stage::Upper => !(draft.blocks < 1 && draft.claims < 1),
        Stage::Lower | Stage::Ended => true,
    }
}

/// Whether the line `code` was read, and the last one was not.
pub(crate) fn is_lower(draft: &Draft) -> bool
    ensures { IsTrue result ↔ (draft.now.stage ≡ Lower) }
{
    matches!(draft.stage, Stage::Lower)
}

/// Whether the last line was read.
pub(crate) fn is_ended(draft: &Draft) -> bool
    ensures { IsTrue result ↔ (draft.now.stage ≡ Ended) }
{
    matches!(draft.stage, Stage::Ended)
}

/// The head, with the maps of which no event told yet. They are told now.
pub(crate) fn told_head(draft: &mut Draft, alloc: Global) -> Head
    ensures head { result ≡ record { field = draft.old.field; order = draft.old.order; secrets = draft.old.secrets; publics = draft.old.publics; maps = draft.old.untold } }
    ensures told { seen_of draft.new ≡ record (seen_of draft.old) { untold = [] } }
{
    let maps = mem::replace(&mut draft.untold, Items::new(alloc));
    Head {
        field: draft.field,
        order: draft.order,
        secrets: draft.secrets,
        publics: draft.publics,
        maps,
    }
}
