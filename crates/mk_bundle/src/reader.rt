//! Reading a bundle's text from a source, event by event. Of the text a few bytes are held, and nothing else that
//! grows with it but the maps of the head, and in version 2 four bytes for each register.

ghost use Rattle.std.specs.Prelude.{◌≡◌, ◌≤◌, ◌<◌, ◌+◌, [], ℕ, List, Some, None, Err, IfOk, IfSome, IfNone, OnOk, length};
ghost use Rattle.mk_base.specs.Outside.{Rose};
ghost use Rattle.mk_lines.specs.declared.words.TheConstants.{MOST_LINE};
ghost use Rattle.mk_bundle.specs.declared.refusal.StreamRefusal.TheVariants as refusals;
ghost use Rattle.mk_bundle.specs.declared.draft.Stage.TheVariants.{Lower, Ended};
ghost use Rattle.mk_bundle.specs.declared.notes.Form.TheVariants as form;
ghost use Rattle.mk_bundle.specs.declared.event.Event.{Event};
ghost use Rattle.mk_bundle.specs.declared.event.Event.TheVariants as event;

use crate::draft::{count_instr, has_begun, is_ended, is_lower, may_instr, told_head};
use crate::event::Event;
use crate::input::Input;
use crate::notes::{
    Form, Notes, empty_notes, may_register_instr, note_instr, read_noted, refusal_in,
};
use crate::refusal::StreamRefusal;
use crate::step::Step;
use mk_base::{Memory, Source};
use mk_code::Instr;
use mk_lines::{LineRefusal, MOST_LINE};
use mk_regs::RegInstr;
use std::alloc::Global;
use std::marker::Model;

/// A reader of a bundle's text.
#[derive(Drop)]
pub struct BundleReader {
    alloc: Global,
    notes: Notes,
    waiting: Option<Event>,
    lines: u32,
    input: Input,
}

impl Model for BundleReader {
    ghost use Rattle.std.specs.Prelude.{◌≤◌, ◌+◌, ◌*◌, length};
    ghost use Rattle.mk_bundle.specs.Noting.{noted_of, IsBounded};
    ghost use Rattle.mk_bundle.specs.Reads.{Reader};

    ghost Value = { Reader };

    ghost view = { λ r. record { noted = noted_of r.notes; waiting = r.waiting; lines = r.lines; pending = r.input.pending; count = r.input.count; limit = r.input.limit } };

    ghost invariant = { λ r. IsBounded (noted_of r.notes) × (2 * r.lines + length r.input.pending ≤ r.input.count) };
}

impl BundleReader {
    ghost use Rattle.mk_bundle.specs.Reads.{IsGoing, to_come, Read, Next};
    ghost use Rattle.mk_bundle.specs.Noting.{refusal_in};
    ghost use Rattle.mk_bundle.specs.Stepping.{Hands, Tells, Stepped, Grows, Finishes, Refused, end_of};

    /// A reader that took nothing yet. At most `limit` bytes may come.
    pub fn new(alloc: Global, limit: u32) -> Result<BundleReader, Memory>
        ensures read { IfOk result (λ r. Read r [] []) }
        ensures going { IfOk result IsGoing }
        ensures limit { IfOk result (λ r. r.limit ≡ limit) }
    {
        let input = Input::new(alloc, limit)?;
        Ok(BundleReader {
            alloc,
            notes: empty_notes(alloc),
            waiting: None,
            lines: 0,
            input,
        })
    }

    /// An event is answered, or the head before it.
    fn told(&mut self, begun: bool, event: Event) -> Event
        requires { self.old.waiting ≡ None }
        ensures { Hands begun event result self.old self.new }
    {
        if begun {
            return event;
        }
        self.waiting = Some(event);
        Event::Head(told_head(&mut self.notes.draft, self.alloc))
    }

    /// Reads the first line that is held, where it is that of an instruction over positions that may stand there. Nothing
    /// is read otherwise.
    fn quick_instr(&mut self) -> Option<Step>
        requires waiting { self.old.waiting ≡ None }
        requires form { self.old.noted.form ≡ form.Positions }
        requires stage { self.old.noted.seen.stage ≡ Lower }
        ensures some { IfSome result (λ s. Stepped s self.old self.new) }
        ensures none { IfNone result (self.new ≡ self.old) }
    {
        let (instr, len) = self.input.instr()?;
        if !may_instr(&self.notes.draft, instr) {
            return None;
        }
        let _count = self.input.count();
        count_instr(&mut self.notes.draft);
        self.input.pass(len + 1);
        self.lines += 1;
        Some(Step::Told(Event::Instr(instr)))
    }

    /// Reads the first line that is held, where it is that of an instruction over registers that may stand there. Nothing
    /// is read otherwise.
    fn quick_into(&mut self) -> Option<Step>
        requires waiting { self.old.waiting ≡ None }
        requires form { self.old.noted.form ≡ form.Positions → ⊥ }
        requires stage { self.old.noted.seen.stage ≡ Lower }
        ensures some { IfSome result (λ s. Stepped s self.old self.new) }
        ensures none { IfNone result (self.new ≡ self.old) }
    {
        let ((to, operation), len) = self.input.instr_into()?;
        if !may_register_instr(&self.notes.draft, operation) {
            return None;
        }
        let _count = self.input.count();
        let told = note_instr(&mut self.notes, RegInstr::new(to, operation));
        self.input.pass(len + 1);
        self.lines += 1;
        match told {
            Some(event) => Some(Step::Told(event)),
            None => Some(Step::Quiet),
        }
    }

    /// Reads the first line that is held, where it is that of an instruction that may stand there. Nothing is read
    /// otherwise.
    fn quick(&mut self) -> Option<Step>
        requires { self.old.waiting ≡ None }
        ensures some { IfSome result (λ s. Stepped s self.old self.new) }
        ensures none { IfNone result (self.new ≡ self.old) }
    {
        if !is_lower(&self.notes.draft) {
            return None;
        }
        match self.notes.form {
            Form::Positions => self.quick_instr(),
            Form::Unnumbered | Form::Renaming(_) | Form::Refused(_) => self.quick_into(),
        }
    }

    /// Reads the first line that is held.
    fn step(&mut self) -> Step
        requires waiting { self.old.waiting ≡ None }
        requires going { IsGoing self.old }
        ensures { Stepped result self.old self.new }
    {
        match self.quick() {
            Some(step) => step,
            None => self.step_any(),
        }
    }

    /// Reads the first line that is held, of any kind.
    fn step_any(&mut self) -> Step
        requires waiting { self.old.waiting ≡ None }
        requires going { IsGoing self.old }
        ensures { Stepped result self.old self.new }
    {
        let Some(line) = self.input.line() else {
            if self.input.len() >= MOST_LINE {
                return Step::Wrong;
            }
            return Step::Starved;
        };
        if line.is_empty() {
            return Step::Wrong;
        }
        let begun = has_begun(&self.notes.draft);
        let len = line.len();
        let _count = self.input.count();
        match read_noted(&mut self.notes, self.alloc, line) {
            Err(LineRefusal::Form) => Step::Wrong,
            Err(LineRefusal::Memory) => Step::Memory,
            Ok(told) => {
                self.input.pass(len + 1);
                self.lines += 1;
                let Some(event) = told else {
                    return Step::Quiet;
                };
                if is_ended(&self.notes.draft) {
                    return Step::Over;
                }
                Step::Told(self.told(begun, event))
            }
        }
    }

    /// The number of the line behind those that were read.
    fn next_line(&self) -> u32
        ensures { result ≡ self.now.lines + 1 }
    {
        let _count = self.input.count();
        self.lines + 1
    }

    /// How many bytes are held.
    fn held(&self) -> usize
        ensures { result ≡ length self.now.pending }
    {
        self.input.len()
    }

    /// Asks for the next bytes, and answers how many came.
    fn fill<S: Source>(&mut self, src: &mut S) -> Result<usize, StreamRefusal>
        requires { length self.old.pending < MOST_LINE }
        ensures grows { Grows result self.old self.new (S.left src.old) (S.left src.new) }
        ensures limit { self.new.limit ≡ self.old.limit }
        ensures fault { result ≡ Err refusals.Fault → Rose (S.faults src.old) (S.faults src.new) }
        ensures never_falls { S.faults src.old ≤ S.faults src.new }
    {
        self.input.fill(src)
    }

    /// Reads the source to its end, and names the line where the text goes wrong.
    fn refuse<S: Source>(&mut self, src: &mut S) -> Result<Event, StreamRefusal>
        ensures refused { Refused result self.old (S.left src.old) (S.left src.new) }
        ensures only { IfOk result (λ _. ⊥) }
        ensures limit { self.new.limit ≡ self.old.limit }
        ensures fault { result ≡ Err refusals.Fault → Rose (S.faults src.old) (S.faults src.new) }
        ensures never_falls { S.faults src.old ≤ S.faults src.new }
    {
        let line = self.next_line();
        if let Err(refusal) = self.input.drain(src) {
            return Err(refusal);
        }
        Err(StreamRefusal::Form { line })
    }

    /// The last event, or why the register code of the text can't be renamed.
    fn end(&self) -> Result<Event, StreamRefusal>
        ensures { result ≡ end_of (refusal_in self.now.noted.form) }
    {
        match refusal_in(&self.notes) {
            Some(refusal) => Err(StreamRefusal::from(refusal)),
            None => Ok(Event::End),
        }
    }

    /// The last event, where the source is at its end.
    fn finish<S: Source>(&mut self, src: &mut S) -> Result<Event, StreamRefusal>
        requires waiting { self.old.waiting ≡ None }
        requires ended { self.old.noted.seen.stage ≡ Ended }
        ensures finishes { Finishes result self.old self.new (S.left src.old) (S.left src.new) }
        ensures last { IfOk result (λ e. e ≡ event.End) }
        ensures limit { self.new.limit ≡ self.old.limit }
        ensures fewer { OnOk result (to_come self.new ≤ to_come self.old) }
        ensures fault { result ≡ Err refusals.Fault → Rose (S.faults src.old) (S.faults src.new) }
        ensures never_falls { S.faults src.old ≤ S.faults src.new }
    {
        if self.held() > 0 {
            return self.refuse(src);
        }
        let count = self.fill(src)?;
        if count > 0 {
            return self.refuse(src);
        }
        self.end()
    }

    /// The event that waits, which waits no more.
    fn waited(&mut self) -> Option<Event>
        ensures some { IfSome result (λ e. (self.old.waiting ≡ Some e) × (self.new ≡ record self.old { waiting = None })) }
        ensures none { IfNone result ((self.old.waiting ≡ None) × (self.new ≡ self.old)) }
    {
        if self.waiting.is_none() {
            return None;
        }
        self.waiting.take()
    }

    /// The next event, where none waits.
    fn read_on<S: Source>(&mut self, src: &mut S) -> Result<Event, StreamRefusal>
        requires waiting { self.old.waiting ≡ None }
        requires going { IsGoing self.old }
        ensures next { (taken : List ℕ) (events : List Event) → Read self.old taken events → Next result self.new taken events (S.left src.old) (S.left src.new) }
        ensures going { IfOk result (λ e. (e ≡ event.End → ⊥) → IsGoing self.new) }
        ensures limit { self.new.limit ≡ self.old.limit }
        ensures fewer { OnOk result (to_come self.new < to_come self.old) }
        ensures fault { result ≡ Err refusals.Fault → Rose (S.faults src.old) (S.faults src.new) }
        ensures never_falls { S.faults src.old ≤ S.faults src.new }
    {
        loop {
            match self.step() {
                Step::Told(event) => return Ok(event),
                Step::Quiet => {}
                Step::Over => return self.finish(src),
                Step::Starved => {
                    let line = self.next_line();
                    let count = self.fill(src)?;
                    if count == 0 {
                        return Err(StreamRefusal::Form { line });
                    }
                }
                Step::Wrong => return self.refuse(src),
                Step::Memory => return Err(StreamRefusal::Memory),
            }
        }
    }

    /// The next event. It takes bytes of the source only where none waits, and asks for more only where no whole line is
    /// held. `End` is answered once the source was read to its end, and nothing may be asked behind it. Where no bundle
    /// text goes on, `Form` is answered once the source was read to its end, if no fault comes and no more bytes than the
    /// limit; and where there are more, `TooLong`. Where the text is that of register code that can't be renamed, no event
    /// comes of what stands behind, and `Unset` or `Register` is answered in the place of `End`. Behind a refusal the
    /// reader says nothing more of the text.
    pub fn next<S: Source>(&mut self, src: &mut S) -> Result<Event, StreamRefusal>
        // The last event was not answered yet.
        requires { IsGoing self.old }

        // Whatever bytes the reader took and events it answered before, it took those that came now too, and
        // answered this event too, or refuses them.
        ensures next { (taken : List ℕ) (events : List Event) → Read self.old taken events → Next result self.new taken events (S.left src.old) (S.left src.new) }
        ensures going { IfOk result (λ e. (e ≡ event.End → ⊥) → IsGoing self.new) }
        ensures limit { self.new.limit ≡ self.old.limit }
        ensures fewer { OnOk result (to_come self.new < to_come self.old) }

        // A fault comes only where the source counted one.
        ensures fault { result ≡ Err refusals.Fault → Rose (S.faults src.old) (S.faults src.new) }
        ensures never_falls { S.faults src.old ≤ S.faults src.new }
    {
        match self.waited() {
            Some(event) => Ok(event),
            None => self.read_on(src),
        }
    }
}
