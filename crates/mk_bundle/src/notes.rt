//! What is noted of a bundle text of either version so far, and how a line goes on with it.

ghost use Rattle.std.specs.Prelude.{◌≡◌, ◌≤◌, ◌<◌, ◌+◌, [], Some, Ok, Err, IfOk, IfErr, OnOk, OnErr, IsTrue, ◌↔◌};
ghost use Rattle.mk_code.specs.declared.TheConstants.{MOST_INSTRS};
ghost use Rattle.mk_lines.specs.declared.refusal.LineRefusal.TheVariants as refusals;
ghost use Rattle.mk_bundle.specs.declared.draft.Stage.TheVariants.{Lower};
ghost use Rattle.mk_bundle.specs.declared.notes.Form.TheVariants as form;
ghost use Rattle.mk_bundle.specs.RegisterReading.{has_parts};
ghost use Rattle.mk_bundle.specs.Versions.{begin};
ghost use Rattle.mk_bundle.specs.Counting.{seen_of, Steps};
ghost use Rattle.mk_bundle.specs.Noting.{Noted, noted_of, noted, renamed_in, IsBounded, first_noted, registers_noted, front_noted, upper_noted, form_behind, instr_event, form_behind_out, out_event, register_counts, register_instr_noted, register_out_noted, register_lower_noted, position_noted, register_noted, line_noted, refusal_in};

use crate::draft::{
    Draft, Line, Stage, count_instr, empty_draft, greatest, headed, inputs_len, read_cert,
    read_line, read_map, read_order, read_version,
};
use crate::event::Event;
use mk_base::TOP_ORDER;
use mk_code::{Instr, MOST_INPUTS, MOST_INSTRS};
use mk_lines::{LineRefusal, after, into_of, positions_of};
use mk_regs::{MOST_REGISTERS, RegInstr, RegRefusal, Renamer, rename_outs};
use std::alloc::Global;

/// How the instructions of a text name what they read.
#[derive(Drop)]
pub(crate) enum Form {
    /// By positions: version 1, or the version isn't known yet.
    Positions,
    /// By registers: version 2, whose number of registers didn't come yet.
    Unnumbered,
    /// By registers, which hold what the renamer says.
    Renaming(Renamer),
    /// By registers, one of which isn't there or was read while it held nothing. The lines are read on for their form.
    Refused(RegRefusal),
}

/// What is noted of the lines so far.
#[derive(Drop)]
pub(crate) struct Notes {
    pub draft: Draft,
    pub form: Form,
}

/// Before the first line.
pub(crate) fn empty_notes(alloc: Global) -> Notes
    ensures empty { noted_of result ≡ noted begin [] }
    ensures bounds { IsBounded (noted_of result) }
{
    Notes {
        draft: empty_draft(alloc),
        form: Form::Positions,
    }
}

/// Why the registers can't be named or read, if so.
pub(crate) fn refusal_in(notes: &Notes) -> Option<RegRefusal>
    ensures { result ≡ refusal_in notes.now.form }
{
    match notes.form {
        Form::Positions | Form::Unnumbered | Form::Renaming(_) => None,
        Form::Refused(refusal) => Some(refusal),
    }
}

/// The first line, which tells the version.
#[tactic(auto, unfolding(crate::specs::Noting::first_noted))]
fn read_first(notes: &mut Notes, line: &[u8]) -> Line
    requires bounds { IsBounded (noted_of notes.old) }
    requires form { notes.old.form ≡ form.Positions }
    ensures steps { Steps result (noted_of notes.new) (first_noted (seen_of notes.old.draft) line.now) }
    ensures bounds { IsBounded (noted_of notes.new) }
{
    if line == b"mask 2".as_slice() {
        notes.draft.stage = Stage::Field;
        notes.form = Form::Unnumbered;
        return Ok(None);
    }
    read_version(&mut notes.draft, line)
}

/// The line of the number of registers.
#[tactic(auto, unfolding(crate::specs::Noting::registers_noted))]
fn read_registers(notes: &mut Notes, alloc: Global, line: &[u8]) -> Line
    requires { IsBounded (noted_of notes.old) }
    ensures steps { Steps result (noted_of notes.new) (registers_noted (seen_of notes.old.draft) line.now) }
    ensures bounds { IsBounded (noted_of notes.new) }
{
    let registers = headed(b"registers ", MOST_REGISTERS, line).ok_or(LineRefusal::Form)?;
    let entries = inputs_len(&notes.draft);
    if registers < entries {
        return Err(LineRefusal::Form);
    }
    notes.form = Form::Renaming(Renamer::new(alloc, entries, registers)?);
    Ok(None)
}

/// A line between the head and the number of registers.
#[tactic(auto, unfolding(crate::specs::Noting::front_noted))]
fn read_front(notes: &mut Notes, alloc: Global, line: &[u8]) -> Line
    requires bounds { IsBounded (noted_of notes.old) }
    requires form { notes.old.form ≡ form.Unnumbered }
    ensures steps { Steps result (noted_of notes.new) (front_noted (seen_of notes.old.draft) line.now) }
    ensures bounds { IsBounded (noted_of notes.new) }
{
    if let Some(words) = after(b"map ", line) {
        return read_map(&mut notes.draft, words);
    }
    read_registers(notes, alloc, line)
}

/// A line between the head and the code of version 2.
#[tactic(auto, unfolding(crate::specs::Noting::upper_noted))]
fn read_upper(notes: &mut Notes, alloc: Global, line: &[u8]) -> Line
    requires { IsBounded (noted_of notes.old) }
    ensures steps { Steps result (noted_of notes.new) (upper_noted notes.old.form (seen_of notes.old.draft) line.now) }
    ensures bounds { IsBounded (noted_of notes.new) }
{
    match notes.form {
        Form::Unnumbered => read_front(notes, alloc, line),
        Form::Positions | Form::Renaming(_) | Form::Refused(_) => read_cert(&mut notes.draft, line),
    }
}

/// Whether what the instruction names beside registers is there, in a field with so many maps.
#[tactic(auto, unfolding(crate::specs::RegisterReading::has_parts))]
fn has_parts(draft: &Draft, instr: Instr) -> bool
    ensures { result ≡ has_parts draft.now.field draft.now.maps instr }
{
    match instr {
        Instr::Const { value } => value <= greatest(draft.field),
        Instr::Map { map, .. } => map < draft.maps,
        Instr::Rnd
        | Instr::Copy { .. }
        | Instr::Add { .. }
        | Instr::Mul { .. }
        | Instr::Sq { .. } => true,
    }
}

/// Whether the instruction over registers may stand here: before outputs.
#[tactic(auto, unfolding(crate::specs::Noting::register_counts))]
pub(crate) fn may_register_instr(draft: &Draft, instr: Instr) -> bool
    ensures counts { result ≡ register_counts (seen_of draft.now) instr }
    ensures few { IsTrue result → draft.now.instrs < MOST_INSTRS }
{
    draft.outs < 1 && draft.instrs < MOST_INSTRS && has_parts(draft, instr)
}

/// Carries out an instruction over registers, and answers the event of the same instruction over positions. Where it is
/// refused, or one before it was, there is none.
fn rename(form: &mut Form, instr: RegInstr) -> Option<Event>
    requires { renamed_in form.old < MOST_INSTRS }
    ensures form { form.new ≡ form_behind form.old instr }
    ensures event { result ≡ instr_event form.old instr }
    ensures grows { renamed_in form.new ≤ renamed_in form.old + 1 }
{
    let Form::Renaming(renamer) = form else {
        return None;
    };
    match renamer.step(&instr) {
        Ok(renamed) => Some(Event::Instr(renamed)),
        Err(refusal) => {
            *form = Form::Refused(refusal);
            None
        }
    }
}

/// Counts an instruction over registers and carries it out, and answers its event, if it has one.
pub(crate) fn note_instr(notes: &mut Notes, instr: RegInstr) -> Option<Event>
    requires bounds { IsBounded (noted_of notes.old) }
    requires few { notes.old.draft.instrs < MOST_INSTRS }
    ensures noted { noted_of notes.new ≡ record { seen = record (seen_of notes.old.draft) { instrs = notes.old.draft.instrs + 1 }; form = form_behind notes.old.form instr } }
    ensures event { result ≡ instr_event notes.old.form instr }
    ensures bounds { IsBounded (noted_of notes.new) }
{
    count_instr(&mut notes.draft);
    rename(&mut notes.form, instr)
}

/// The line of an instruction over registers.
#[tactic(auto, unfolding(crate::specs::Noting::register_instr_noted))]
fn read_instr(notes: &mut Notes, line: &[u8]) -> Line
    requires { IsBounded (noted_of notes.old) }
    ensures steps { Steps result (noted_of notes.new) (register_instr_noted notes.old.form (seen_of notes.old.draft) line.now) }
    ensures bounds { IsBounded (noted_of notes.new) }
{
    let (to, operation) = into_of(line).ok_or(LineRefusal::Form)?;
    if !may_register_instr(&notes.draft, operation) {
        return Err(LineRefusal::Form);
    }
    Ok(note_instr(notes, RegInstr::new(to, operation)))
}

/// Reads registers as an output, and answers the event of the positions that they hold. Where one is refused, or one
/// before was, there is none.
fn rename_out(form: &mut Form, alloc: Global, registers: &[u32]) -> Line
    ensures form { OnOk result (form.new ≡ form_behind_out form.old registers.now) }
    ensures event { IfOk result (λ told. told ≡ out_event form.old registers.now) }
    ensures refused { IfErr result (λ e. e ≡ refusals.Memory) }
    ensures same { OnErr result (form.new ≡ form.old) }
{
    let Form::Renaming(renamer) = form else {
        return Ok(None);
    };
    match rename_outs(alloc, renamer, registers) {
        Ok(positions) => Ok(Some(Event::Out(positions))),
        Err(RegRefusal::Memory) => Err(LineRefusal::Memory),
        Err(refusal) => {
            *form = Form::Refused(refusal);
            Ok(None)
        }
    }
}

/// The line of an output over registers, behind its first word.
#[tactic(auto, unfolding(crate::specs::Noting::register_out_noted))]
fn read_out(notes: &mut Notes, alloc: Global, words: &[u8]) -> Line
    requires { IsBounded (noted_of notes.old) }
    ensures steps { Steps result (noted_of notes.new) (register_out_noted notes.old.form (seen_of notes.old.draft) words.now) }
    ensures bounds { IsBounded (noted_of notes.new) }
{
    let shares = u32::from(notes.draft.order) + 1;
    if notes.draft.outs >= MOST_INPUTS * shares {
        return Err(LineRefusal::Form);
    }
    let registers = positions_of(alloc, shares, 1 << 32, words)?;
    let told = rename_out(&mut notes.form, alloc, registers.as_slice())?;
    notes.draft.outs += shares;
    Ok(told)
}

/// A line of code over registers.
#[tactic(auto, unfolding(crate::specs::Noting::register_lower_noted))]
fn read_lower(notes: &mut Notes, alloc: Global, line: &[u8]) -> Line
    requires { IsBounded (noted_of notes.old) }
    ensures steps { Steps result (noted_of notes.new) (register_lower_noted notes.old.form (seen_of notes.old.draft) line.now) }
    ensures bounds { IsBounded (noted_of notes.new) }
{
    if let Some(words) = after(b"out", line) {
        return read_out(notes, alloc, words);
    }
    if line == b"end".as_slice() {
        notes.draft.stage = Stage::Ended;
        return Ok(Some(Event::End));
    }
    read_instr(notes, line)
}

/// One line more of version 1, or the first line.
#[tactic(auto, unfolding(crate::specs::Noting::position_noted, crate::specs::Counting::counted_at))]
fn read_over_positions(notes: &mut Notes, alloc: Global, line: &[u8]) -> Line
    requires bounds { IsBounded (noted_of notes.old) }
    requires form { notes.old.form ≡ form.Positions }
    ensures steps { Steps result (noted_of notes.new) (position_noted notes.old.draft.stage (seen_of notes.old.draft) line.now) }
    ensures bounds { IsBounded (noted_of notes.new) }
{
    match notes.draft.stage {
        Stage::Version => read_first(notes, line),
        Stage::Field
        | Stage::Order
        | Stage::Secrets
        | Stage::Publics
        | Stage::Upper
        | Stage::Lower
        | Stage::Ended => read_line(&mut notes.draft, alloc, line),
    }
}

/// One line more of version 2.
#[tactic(auto, unfolding(crate::specs::Noting::register_noted))]
fn read_over_registers(notes: &mut Notes, alloc: Global, line: &[u8]) -> Line
    requires { IsBounded (noted_of notes.old) }
    ensures steps { Steps result (noted_of notes.new) (register_noted notes.old.draft.stage notes.old.form (seen_of notes.old.draft) line.now) }
    ensures bounds { IsBounded (noted_of notes.new) }
{
    match notes.draft.stage {
        Stage::Order => read_order(&mut notes.draft, TOP_ORDER, line),
        Stage::Field | Stage::Secrets | Stage::Publics => {
            read_line(&mut notes.draft, alloc, line)
        }
        Stage::Upper => read_upper(notes, alloc, line),
        Stage::Lower => read_lower(notes, alloc, line),
        Stage::Version | Stage::Ended => Err(LineRefusal::Form),
    }
}

/// One line more.
pub(crate) fn read_noted(notes: &mut Notes, alloc: Global, line: &[u8]) -> Line
    requires { IsBounded (noted_of notes.old) }
    ensures steps { Steps result (noted_of notes.new) (line_noted (noted_of notes.old) line.now) }
    ensures bounds { IsBounded (noted_of notes.new) }
{
    match notes.form {
        Form::Positions => read_over_positions(notes, alloc, line),
        Form::Unnumbered | Form::Renaming(_) | Form::Refused(_) => {
            read_over_registers(notes, alloc, line)
        }
    }
}
