//! What was read of a gadget text so far, and how a line goes on with it.

ghost use Rattle.std.specs.Prelude.{◌≡◌, IsTrue, ◌↔◌};
ghost use Rattle.mk_pad.specs.Form.{IsGadget, share_count, position_count};
ghost use Rattle.mk_lib.specs.declared.draft.Stage.TheVariants.{Kind, Field, Order, Instrs, End, Ended};
ghost use Rattle.mk_lib.specs.Reading.{State, state_of, start, IsGood, Reads, kind_of, order_of, kind_next, field_next, order_next, instr_next, out_next, lower_next, end_next, next_at, with_instr};

use mk_base::Items;
use mk_code::{Instr, InstrList, PositionList};
use mk_field::FieldId;
use mk_lines::{LineRefusal, after, field_of, instr_of, number_of, positions_of};
use mk_pad::{Gadget, GadgetKind, MOST_GADGET_INSTRS, TOP_GADGET_ORDER, are_outs, fits};
use std::alloc::Global;

/// Which lines stand next.
#[derive(Clone, Copy, Debug, PartialEq, Eq)]
pub(crate) enum Stage {
    /// What the gadget stands for.
    Kind,
    /// The field.
    Field,
    /// The order.
    Order,
    /// Instructions, and then the outs.
    Instrs,
    /// `end`.
    End,
    /// No line.
    Ended,
}

/// What was read so far.
#[derive(Drop)]
pub(crate) struct Draft {
    pub stage: Stage,
    pub kind: GadgetKind,
    pub field: FieldId,
    pub order: u8,
    pub instrs: InstrList,
    pub outs: PositionList,
}

/// Before the first line.
pub(crate) fn empty_draft(alloc: Global) -> Draft
    ensures { state_of result ≡ start }
{
    Draft {
        stage: Stage::Kind,
        kind: GadgetKind::Mul,
        field: FieldId::Gf2,
        order: 1,
        instrs: Items::new(alloc),
        outs: Items::new(alloc),
    }
}

/// What the first line says that a gadget stands for.
#[tactic(auto, unfolding(crate::specs::Reading::kind_of))]
fn kind_of(line: &[u8]) -> Option<GadgetKind>
    ensures { result ≡ kind_of line.now }
{
    if line == b"gadget mul".as_slice() {
        return Some(GadgetKind::Mul);
    }
    if line == b"gadget refresh".as_slice() {
        return Some(GadgetKind::Refresh);
    }
    None
}

/// The number in the line of the order.
#[tactic(auto, unfolding(crate::specs::Reading::order_of))]
fn order_of(line: &[u8]) -> Option<u32>
    ensures { result ≡ order_of line.now }
{
    let rest = after(b"order ", line)?;
    number_of(rest)
}

/// The line of what the gadget stands for.
fn read_kind(draft: &mut Draft, line: &[u8]) -> Result<(), LineRefusal>
    requires good { IsGood (state_of draft.old) }
    requires stage { (state_of draft.old).stage ≡ Kind }
    ensures { Reads result (kind_next (state_of draft.old) line.now) (state_of draft.new) }
{
    let Some(kind) = kind_of(line) else {
        return Err(LineRefusal::Form);
    };
    draft.kind = kind;
    draft.stage = Stage::Field;
    Ok(())
}

/// The line of the field.
fn read_field(draft: &mut Draft, line: &[u8]) -> Result<(), LineRefusal>
    requires good { IsGood (state_of draft.old) }
    requires stage { (state_of draft.old).stage ≡ Field }
    ensures { Reads result (field_next (state_of draft.old) line.now) (state_of draft.new) }
{
    let Some(field) = field_of(line) else {
        return Err(LineRefusal::Form);
    };
    draft.field = field;
    draft.stage = Stage::Order;
    Ok(())
}

/// The line of the order.
fn read_order(draft: &mut Draft, line: &[u8]) -> Result<(), LineRefusal>
    requires good { IsGood (state_of draft.old) }
    requires stage { (state_of draft.old).stage ≡ Order }
    ensures { Reads result (order_next (state_of draft.old) line.now) (state_of draft.new) }
{
    let Some(order) = order_of(line) else {
        return Err(LineRefusal::Form);
    };
    if order < 1 || order > u32::from(TOP_GADGET_ORDER) {
        return Err(LineRefusal::Form);
    }
    draft.order = order as u8;
    draft.stage = Stage::Instrs;
    Ok(())
}

/// How many shares the operands have together.
fn count_shares(draft: &Draft) -> u32
    ensures { result ≡ share_count (state_of draft.now).gadget }
{
    draft.kind.operands() * (u32::from(draft.order) + 1)
}

/// How many positions there are so far.
fn count_positions(draft: &Draft) -> u32
    requires { IsGood (state_of draft.now) }
    ensures { result ≡ position_count (state_of draft.now).gadget }
{
    count_shares(draft) + draft.instrs.len() as u32
}

/// Whether an instruction may stand here.
fn may_stand(draft: &Draft, instr: Instr) -> bool
    requires good { IsGood (state_of draft.now) }
    requires stage { (state_of draft.now).stage ≡ Instrs }
    ensures { IsTrue result ↔ IsGood (with_instr (state_of draft.now) instr) }
{
    draft.instrs.len() < MOST_GADGET_INSTRS as usize
        && fits(draft.field, count_positions(draft), instr)
}

/// The line of an instruction.
fn read_instr(draft: &mut Draft, line: &[u8]) -> Result<(), LineRefusal>
    requires good { IsGood (state_of draft.old) }
    requires stage { (state_of draft.old).stage ≡ Instrs }
    ensures { Reads result (instr_next (state_of draft.old) line.now) (state_of draft.new) }
{
    let Some(instr) = instr_of(line) else {
        return Err(LineRefusal::Form);
    };
    if !may_stand(draft, instr) {
        return Err(LineRefusal::Form);
    }
    draft.instrs.push(instr)?;
    Ok(())
}

/// The line of the outs, behind its first word.
fn read_out(alloc: Global, draft: &mut Draft, words: &[u8]) -> Result<(), LineRefusal>
    requires good { IsGood (state_of draft.old) }
    requires stage { (state_of draft.old).stage ≡ Instrs }
    ensures { Reads result (out_next (state_of draft.old) words.now) (state_of draft.new) }
{
    let shares = count_shares(draft);
    let end = count_positions(draft);
    let outs = match positions_of(alloc, u32::from(draft.order) + 1, u64::from(end), words) {
        Ok(outs) => outs,
        Err(refusal) => return Err(refusal),
    };
    if !are_outs(draft.order, shares, end, outs.as_slice()) {
        return Err(LineRefusal::Form);
    }
    draft.outs = outs;
    draft.stage = Stage::End;
    Ok(())
}

/// The line of an instruction or of the outs.
fn read_lower(alloc: Global, draft: &mut Draft, line: &[u8]) -> Result<(), LineRefusal>
    requires good { IsGood (state_of draft.old) }
    requires stage { (state_of draft.old).stage ≡ Instrs }
    ensures { Reads result (lower_next (state_of draft.old) line.now) (state_of draft.new) }
{
    if let Some(words) = after(b"out", line) {
        return read_out(alloc, draft, words);
    }
    read_instr(draft, line)
}

/// The last line.
fn read_end(draft: &mut Draft, line: &[u8]) -> Result<(), LineRefusal>
    requires good { IsGood (state_of draft.old) }
    requires stage { (state_of draft.old).stage ≡ End }
    ensures { Reads result (end_next (state_of draft.old) line.now) (state_of draft.new) }
{
    if line != b"end".as_slice() {
        return Err(LineRefusal::Form);
    }
    draft.stage = Stage::Ended;
    Ok(())
}

/// One line more.
pub(crate) fn read_line(alloc: Global, draft: &mut Draft, line: &[u8]) -> Result<(), LineRefusal>
    requires { IsGood (state_of draft.old) }
    ensures { Reads result (next_at (state_of draft.old).stage (state_of draft.old) line.now) (state_of draft.new) }
{
    match draft.stage {
        Stage::Kind => read_kind(draft, line),
        Stage::Field => read_field(draft, line),
        Stage::Order => read_order(draft, line),
        Stage::Instrs => read_lower(alloc, draft, line),
        Stage::End => read_end(draft, line),
        Stage::Ended => Err(LineRefusal::Form),
    }
}

/// Whether the last line was read.
pub(crate) fn is_ended(draft: &Draft) -> bool
    ensures { IsTrue result ↔ ((state_of draft.now).stage ≡ Ended) }
{
    matches!(draft.stage, Stage::Ended)
}

/// The gadget of a draft.
pub(crate) fn gadget_of(draft: Draft) -> Gadget
    requires { IsGadget (state_of draft).gadget }
    ensures { result ≡ (state_of draft).gadget }
{
    let Draft {
        stage: _,
        kind,
        field,
        order,
        instrs,
        outs,
    } = draft;
    Gadget::new(kind, field, order, instrs, outs)
}
