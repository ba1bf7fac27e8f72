//! What is counted of a source that is executed.

ghost use Rattle.std.specs.Prelude.{◌≡◌, None, [], ◌∷◌, nat_lt, OnOk, IfOk, IfErr};
ghost use Rattle.mk_types.specs.declared.TheConstants.{GREATEST_INDEX};
ghost use Rattle.mk_types.specs.Units.{Step, Operation, Fault, fault_if};
ghost use Rattle.mk_unroll.specs.Counted.{nothing, counted, Halts};

use mk_ast::{Limit, SourceRefusal};
use mk_base::Place;
use mk_types::{GREATEST_INDEX, MOST_OPERATIONS, MOST_WORK};
use std::marker::Model;

/// The units of work so far, and the operations on elements among them. Contracts see it as what is
/// counted where nothing has stopped execution.
#[derive(Debug, Drop)]
pub(crate) struct Meter {
    work: u32,
    operations: u32,
}

impl Model for Meter {
    ghost use Rattle.std.specs.Prelude.{None};
    ghost use Rattle.mk_unroll.specs.Counted.{Count};

    ghost Value = { Count };

    ghost view = { λ m. record { work = m.work; operations = m.operations; stop = None } };
}

impl Meter {
    /// Nothing so far.
    pub(crate) fn new() -> Meter
        ensures { result ≡ nothing }
    {
        Meter {
            work: 0,
            operations: 0,
        }
    }

    /// The operations so far, which nothing has stopped.
    pub(crate) fn operations(&self) -> u32
        ensures operations { result ≡ self.now.operations }
        ensures going { self.now.stop ≡ None }
    {
        self.operations
    }

    /// Counts one step.
    pub(crate) fn step(&mut self) -> Result<(), SourceRefusal>
        ensures ok { OnOk result (self.new ≡ counted self.old (Step ∷ [])) }
        ensures halted { IfErr result (λ e. Halts e (counted self.old (Step ∷ []))) }
    {
        if self.work >= MOST_WORK {
            return Err(SourceRefusal::Large(Limit::Work));
        }
        self.work += 1;
        Ok(())
    }

    /// Counts the beginning of a turn, which is one step.
    pub(crate) fn turn(&mut self) -> Result<(), SourceRefusal>
        ensures ok { OnOk result (self.new ≡ counted self.old (Step ∷ [])) }
        ensures halted { IfErr result (λ e. Halts e (counted self.old (Step ∷ []))) }
    {
        Ok(self.step()?)
    }

    /// Counts one operation on elements.
    pub(crate) fn operation(&mut self) -> Result<(), SourceRefusal>
        ensures ok { OnOk result (self.new ≡ counted self.old (Operation ∷ [])) }
        ensures halted { IfErr result (λ e. Halts e (counted self.old (Operation ∷ []))) }
    {
        if self.work >= MOST_WORK {
            return Err(SourceRefusal::Large(Limit::Work));
        }
        if self.operations >= MOST_OPERATIONS {
            return Err(SourceRefusal::Large(Limit::Operations));
        }
        self.work += 1;
        self.operations += 1;
        Ok(())
    }

    /// The refusal of an index that goes wrong, at the name of its array.
    pub(crate) fn fault(&self, at: Place) -> SourceRefusal
        ensures { Halts result (counted self.now (Fault at ∷ [])) }
    {
        let _work = self.work;
        SourceRefusal::Index(at)
    }

    /// Counts an operator of an index, and answers what it gives.
    #[tactic(auto, using(crate::proofs::Counting::halts_on))]
    pub(crate) fn operator(&mut self, at: Place, value: u64) -> Result<u32, SourceRefusal>
        ensures value { IfOk result (λ v. v ≡ value) }
        ensures ok { OnOk result (self.new ≡ counted self.old (Step ∷ fault_if (nat_lt GREATEST_INDEX value) at)) }
        ensures halted { IfErr result (λ e. Halts e (counted self.old (Step ∷ fault_if (nat_lt GREATEST_INDEX value) at))) }
    {
        self.step()?;
        if value > GREATEST_INDEX {
            return Err(self.fault(at));
        }
        Ok(value as u32)
    }
}
