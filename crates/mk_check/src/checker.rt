//! Checking a code instruction by instruction, and then out by out. Nothing is kept of what went by but what was
//! wrong first.

ghost use Rattle.std.specs.Prelude.{◌≡◌, ◌≢◌, ◌≤◌, ◌<◌, ◌+◌, ◌∷◌, ◌++◌, [], ℕ, List, IfOk, IfErr, OnOk, MatchOption, length};
ghost use Rattle.mk_base.specs.declared.TheConstants.{TOP_ORDER};
ghost use Rattle.mk_code.specs.declared.TheConstants.{MOST_INPUTS, MOST_INSTRS};
ghost use Rattle.mk_code.specs.declared.instr.Instr.{Instr};
ghost use Rattle.mk_code.specs.Listing.{Listing};
ghost use Rattle.mk_rules.specs.Accepts.{IsAccepted};
ghost use Rattle.mk_rules.specs.Wired.{Wired};
ghost use Rattle.mk_check.specs.Outlines.{IsOver, outlined, code_over};
ghost use Rattle.mk_check.specs.Given.{Given, IsFirstOff, IsFirstWrong, IsTiled, IsOff, HasOutputs, IsWrong};
ghost use Rattle.mk_check.specs.Verdict.{IsRefused};

use crate::doubled::{no_marks, undoubled};
use crate::outline::Outline;
use crate::outputs::is_claimed;
use crate::plan::{Plan, plan_of};
use crate::refusal::CheckRefusal;
use crate::wired::first_unwired;
use mk_base::Memory;
use mk_code::{Instr, PositionList};
use mk_field::FieldId;
use mk_rules::Cert;
use std::alloc::Global;
use std::marker::Model;

/// Checks a code with its certificate while the code comes: first its instructions, one after the other, and then
/// the positions of its outputs' shares, output by output. All memory is taken at the beginning.
#[derive(Drop)]
pub struct Checker {
    plan: Plan,
    unwired: Option<u32>,
    marks: Vec<u64>,
    block: usize,
    instrs: u32,
    off: Option<u32>,
    outs: u32,
    wrong: Option<u32>,
}

impl Model for Checker {
    ghost use Rattle.std.specs.Prelude.{◌≡◌, ◌+◌, MatchOption, length};
    ghost use Rattle.mk_rules.specs.Wired.{Wired};
    ghost use Rattle.mk_rules.specs.Faults.{FirstUnwired};
    ghost use Rattle.mk_check.specs.Outlines.{outlined};
    ghost use Rattle.mk_check.specs.Plans.{IsPlan, IsIn};
    ghost use Rattle.mk_check.specs.Given.{Checking};

    ghost Value = { Checking };

    ghost view = { λ c. record { outline = c.plan.outline; cert = c.plan.cert; instrs = c.instrs; off = c.off; outs = c.outs; wrong = c.wrong } };

    ghost invariant = { λ c. IsPlan c.plan
        × MatchOption c.unwired (Wired (outlined c.plan.outline) c.plan.cert.blocks) (λ k. FirstUnwired (outlined c.plan.outline) c.plan.cert.blocks k)
        × (length c.marks.items ≡ c.plan.outline.secrets + c.plan.outline.publics + length c.plan.cert.blocks)
        × IsIn c.plan c.block c.instrs };
}

impl Checker {
    /// A checker of a code in this field, at this order, with so many secrets, publics and maps, and of this
    /// certificate, which was given no instruction and no out yet. `Memory` where there isn't enough for them.
    pub fn new(
        alloc: Global,
        order: u8,
        secrets: u32,
        publics: u32,
        field: FieldId,
        maps: u32,
        cert: Cert,
    ) -> Result<Checker, Memory>
        requires order { (1 ≤ order) × (order ≤ TOP_ORDER) }
        ensures given { IfOk result (λ c. Given c [] []) }
        ensures outline { IfOk result (λ c. c.outline ≡ record { field = field; order = order; secrets = secrets; publics = publics; maps = maps }) }
        ensures cert { IfOk result (λ c. c.cert ≡ cert) }
        ensures none { IfOk result (λ c. (c.instrs ≡ 0) × (c.outs ≡ 0)) }
    {
        let outline = Outline {
            field,
            order,
            secrets,
            publics,
            maps,
        };
        let unwired = first_unwired(&outline, cert.blocks().as_slice());
        let marks = no_marks(alloc, outline.inputs() + cert.blocks().len())?;
        let plan = plan_of(alloc, outline, cert)?;
        let block = plan.block_at(0, 0);
        Ok(Checker {
            plan,
            unwired,
            marks,
            block,
            instrs: 0,
            off: None,
            outs: 0,
            wrong: None,
        })
    }

    /// The first instruction that isn't that of the blocks, this one being the next.
    fn off_with(&self, instr: Instr) -> Option<u32>
        ensures { (instrs : List Instr) (outs : List ℕ) → Given self.now instrs outs → Wired (outlined self.now.outline) self.now.cert.blocks
            → IsFirstOff (code_over self.now.outline (instrs ++ instr ∷ []) outs) self.now.cert.blocks result }
    {
        if self.unwired.is_some() || self.off.is_some() {
            return self.off;
        }
        if self.plan.is_next(self.block, self.instrs, instr) {
            None
        } else {
            Some(self.instrs)
        }
    }

    /// The first out that isn't that of its claim, these positions being the next.
    fn wrong_with(&self, positions: &[u32]) -> Option<u32>
        requires count { length positions.now ≡ self.now.outline.order + 1 }
        ensures { (instrs : List Instr) (outs : List ℕ) → Given self.now instrs outs → Wired (outlined self.now.outline) self.now.cert.blocks
            → IsFirstWrong (code_over self.now.outline instrs (outs ++ positions.now)) self.now.cert.blocks self.now.cert.claims (self.now.outs + 1) result }
    {
        if self.unwired.is_some() || self.wrong.is_some() {
            return self.wrong;
        }
        if is_claimed(&self.plan, self.outs, positions) {
            None
        } else {
            Some(self.outs)
        }
    }

    /// Takes the next instruction. It takes no memory.
    pub fn instr(&mut self, instr: Instr)
        requires few { self.old.instrs < MOST_INSTRS }
        ensures given { (instrs : List Instr) (outs : List ℕ) → Given self.old instrs outs → Given self.new (instrs ++ instr ∷ []) outs }
        ensures same { (self.new.outline ≡ self.old.outline) × (self.new.cert ≡ self.old.cert) }
        ensures counts { (self.new.instrs ≡ self.old.instrs + 1) × (self.new.outs ≡ self.old.outs) }
    {
        self.off = self.off_with(instr);
        self.instrs += 1;
        self.block = self.plan.block_at(self.block, self.instrs);
    }

    /// Takes the positions of the shares of the next output, as a slice.
    pub(crate) fn positions(&mut self, positions: &[u32])
        requires count { length positions.now ≡ self.old.outline.order + 1 }
        requires few { self.old.outs < MOST_INPUTS }
        ensures given { (instrs : List Instr) (outs : List ℕ) → Given self.old instrs outs → Given self.new instrs (outs ++ positions.now) }
        ensures same { (self.new.outline ≡ self.old.outline) × (self.new.cert ≡ self.old.cert) }
        ensures counts { (self.new.instrs ≡ self.old.instrs) × (self.new.outs ≡ self.old.outs + 1) }
    {
        self.wrong = self.wrong_with(positions);
        self.outs += 1;
    }

    /// Takes the positions in the trace of the shares of the next output, that of share 0 first, as many as the order
    /// says and one more: `order` + 1. Outputs come behind all instructions: an instruction that comes later counts with
    /// the others. It takes no memory.
    pub fn out(&mut self, at: &PositionList)
        requires count { length at.now ≡ self.old.outline.order + 1 }
        requires few { self.old.outs < MOST_INPUTS }
        ensures given { (instrs : List Instr) (outs : List ℕ) → Given self.old instrs outs → Given self.new instrs (outs ++ at.now) }
        ensures same { (self.new.outline ≡ self.old.outline) × (self.new.cert ≡ self.old.cert) }
        ensures counts { (self.new.instrs ≡ self.old.instrs) × (self.new.outs ≡ self.old.outs + 1) }
    {
        self.positions(at.as_slice());
    }

    /// The first instruction that isn't that of the blocks, or the number of instructions where the blocks go on.
    fn first_off(&self) -> Option<u32>
        ensures { (instrs : List Instr) (outs : List ℕ) → Given self.now instrs outs → Wired (outlined self.now.outline) self.now.cert.blocks
            → MatchOption result (IsTiled self.now instrs outs) (λ k. IsOff self.now instrs outs k) }
    {
        if self.off.is_none() && u64::from(self.instrs) < self.plan.len() {
            Some(self.instrs)
        } else {
            self.off
        }
    }

    /// The first out that isn't that of its claim, or the number of outs where the claims go on.
    fn first_wrong(&self) -> Option<u32>
        ensures { (instrs : List Instr) (outs : List ℕ) → Given self.now instrs outs → Wired (outlined self.now.outline) self.now.cert.blocks
            → MatchOption result (HasOutputs self.now instrs outs) (λ k. IsWrong self.now instrs outs k) }
    {
        if self.wrong.is_none() && (self.outs as usize) < self.plan.cert.claims().len() {
            Some(self.outs)
        } else {
            self.wrong
        }
    }

    /// What the rule says of the code that was given.
    fn verdict(&mut self) -> Result<(), CheckRefusal>
        ensures accepted { (code : Listing) → IsOver code self.old.outline → Given self.old code.instrs code.outs → OnOk result (IsAccepted code self.old.cert) }
        ensures refused { (code : Listing) → IsOver code self.old.outline → Given self.old code.instrs code.outs → IfErr result (λ e. IsRefused code self.old.cert e) }
        ensures memory { IfErr result (λ e. e ≢ CheckRefusal.Memory) }
    {
        if let Some(block) = self.unwired {
            return Err(CheckRefusal::Operand { block });
        }
        if let Some(instr) = self.first_off() {
            return Err(CheckRefusal::Tile { instr });
        }
        if let Some(index) = self.first_wrong() {
            return Err(CheckRefusal::Output { index });
        }
        undoubled(
            &self.plan.outline,
            self.plan.cert.blocks().as_slice(),
            self.marks.as_mut_slice(),
        )
    }

    /// Whether the rule accepts the code that was given, with its certificate: else the first part that doesn't
    /// hold, as `check` names it. It takes no memory, and never answers `Memory`.
    pub fn finish(self) -> Result<(), CheckRefusal>
        ensures accepted { (code : Listing) → IsOver code self.outline → Given self code.instrs code.outs → OnOk result (IsAccepted code self.cert) }
        ensures refused { (code : Listing) → IsOver code self.outline → Given self code.instrs code.outs → IfErr result (λ e. IsRefused code self.cert e) }
        ensures memory { IfErr result (λ e. e ≢ CheckRefusal.Memory) }
    {
        let mut checker = self;
        checker.verdict()
    }
}
