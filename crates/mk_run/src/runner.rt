//! A code that is run again and again.

ghost use Rattle.std.specs.Prelude.{◌≡◌, IfOk, length};
ghost use Rattle.mk_field.specs.Field.{size};
ghost use Rattle.mk_code.specs.Counting.{Elements};
ghost use Rattle.mk_code.specs.Listing.{trace_len};
ghost use Rattle.mk_code.specs.Private.{masked_trace};
ghost use Rattle.mk_run.specs.Refusals.{tape_len};

use crate::encoding::push_all;
use crate::inputs::{shares_of, spent_by};
use crate::running::finish;
use mk_base::Memory;
use mk_code::{Code, Machine};
use std::alloc::Global;
use std::marker::Model;

/// A code that is run again and again on the same public inputs, in memory that is reserved once.
#[derive(Drop)]
pub(crate) struct Runner<'a> {
    code: &'a Code,
    publics: &'a [u8],
    machine: Machine<'a>,
    shares: Vec<u8>,
}

impl<'a> Model for Runner<'a> {
    ghost use Rattle.std.specs.Prelude.{◌≡◌, ◌+◌, ◌*◌, ◌≤◌, vec_capacity};
    ghost use Rattle.mk_run.specs.Runs.{Runs, ArePublicsOf};

    ghost Value = { Runs };

    ghost view = { λ r. record { code = r.code.now; publics = r.publics.now; entries = r.machine.entries } };

    ghost invariant = { λ r. (r.machine.code ≡ r.code.now) × ArePublicsOf r.code.now r.publics.now × (r.code.now.secrets * (r.code.now.order + 1) ≤ vec_capacity r.shares) };
}

impl<'a> Runner<'a> {
    /// Takes the memory for all runs.
    pub(crate) fn new(
        alloc: Global,
        code: &'a Code,
        publics: &'a [u8],
    ) -> Result<Runner<'a>, Memory>
        requires publics { Elements (size code.now.field) code.now.publics publics.now }
        ensures code { IfOk result (λ runner. runner.code ≡ code.now) }
        ensures publics { IfOk result (λ runner. runner.publics ≡ publics.now) }
    {
        let shares = vec![in alloc; 0; shares_of(code) as usize]?;
        let machine = Machine::new(alloc, code, publics, &shares)?;
        Ok(Runner {
            code,
            publics,
            machine,
            shares,
        })
    }

    /// One run, whose secrets are encoded by the first elements of the tape, and which takes its random
    /// elements from the rest.
    pub(crate) fn run(&mut self, secrets: &[u8], tape: &[u8])
        requires secrets { Elements (size self.old.code.field) self.old.code.secrets secrets.now }
        requires tape { Elements (size self.old.code.field) (tape_len self.old.code) tape.now }
        ensures trace { self.new.entries ≡ masked_trace self.old.code self.old.publics secrets.now tape.now }
        ensures whole { length self.new.entries ≡ trace_len self.old.code }
        ensures code { self.new.code ≡ self.old.code }
        ensures publics { self.new.publics ≡ self.old.publics }
    {
        let (front, rest) = tape.split_at(spent_by(self.code) as usize);
        self.shares.clear();
        push_all(self.code, secrets, front, &mut self.shares);
        self.machine.restart(self.publics, &self.shares);
        finish(&mut self.machine, rest);
    }

    /// The code that is run.
    pub(crate) fn code(&self) -> &Code
        ensures { result.now ≡ self.now.code }
    {
        self.code
    }

    /// The trace of the last run.
    pub(crate) fn trace(&self) -> &[u8]
        ensures { result.now ≡ self.now.entries }
    {
        self.machine.trace()
    }
}
