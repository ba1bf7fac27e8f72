//! Well typed programs.

ghost use Rattle.std.specs.Prelude.{◌≡◌, ◌⊎◌, None, IfOk, IfErr};
ghost use Rattle.mk_ast.specs.Regular.{IsRegular};
ghost use Rattle.mk_ast.specs.declared.refusal.SourceRefusal.TheVariants as refusal_;
ghost use Rattle.mk_types.specs.declared.offence.Offence.{Offence};
ghost use Rattle.mk_types.specs.First.{IsFirst, refusal};
ghost use Rattle.mk_types.specs.Noted.{noted};
ghost use Rattle.mk_types.specs.Offences.{offences, IsWellTyped};

use crate::declarations::check_decls;
use crate::found::Found;
use crate::offence::Offence;
use crate::scope::Scope;
use crate::statements::check_stmts;
use mk_ast::{Program, SourceRefusal};
use mk_base::Memory;
use std::alloc::Global;
use std::marker::Model;

/// A program that is regular and well typed. Contracts see it as the program.
#[derive(Drop)]
pub struct Typed {
    program: Program,
}

impl Model for Typed {
    ghost use Rattle.mk_ast.specs.declared.tree.Program.{Program};
    ghost use Rattle.mk_ast.specs.Regular.{IsRegular};
    ghost use Rattle.mk_types.specs.Offences.{IsWellTyped};
    ghost use Rattle.std.specs.Coded.{codes};
    ghost use Rattle.mk_ast.specs.contracts.tree.Stmt as stmt;

    ghost Value = { Program };

    ghost coded = { Prim.hlevel (codes, stmt.the_row.coded) };

    ghost view = { λ t. t.program };

    ghost invariant = { λ t. IsRegular t.program × IsWellTyped t.program };
}

impl Typed {
    /// The program.
    pub fn program(&self) -> &Program
        ensures program { result.now ≡ self.now }
        ensures regular { IsRegular self.now }
        ensures typed { IsWellTyped self.now }
    {
        &self.program
    }

    /// What holds of every such program: it is regular and well typed. It does nothing.
    pub fn law(&self)
        ensures regular { IsRegular self.now }
        ensures typed { IsWellTyped self.now }
    {
        let _field = self.program.field;
    }
}

/// The program, where it is well typed. Else the refusal is of its first offence, with the place:
/// `Unknown`, `Twice`, `Kind`, `AssignInput` or `MapForm`. The program is regular, as what the parser
/// answers is. `Memory` comes where memory is wanted and not found. No other refusal comes.
pub fn check_types(alloc: Global, p: Program) -> Result<Typed, SourceRefusal>
    requires regular { IsRegular p }
    ensures typed { IfOk result (λ t. (t ≡ p) × IsWellTyped p) }
    ensures first { IfErr result (λ e. (e ≡ refusal_.Memory) ⊎ ((x : Offence) × IsFirst (offences p) x × (e ≡ refusal x))) }
{
    match first_offence(alloc, &p)? {
        None => Ok(Typed { program: p }),
        Some(offence) => Err(offence.refusal()),
    }
}

/// The first offence of a program.
#[tactic(auto, using(crate::proofs::Lists::noted_append))]
fn first_offence(alloc: Global, p: &Program) -> Result<Option<Offence>, Memory>
    ensures { IfOk result (λ first. first ≡ noted None (offences p.now)) }
{
    let mut found = Found::nothing();
    let names = check_decls(alloc, p.field, &mut found, p.decls.as_slice())?;
    let mut scope = Scope::new(alloc, p.field, names);
    check_stmts(&mut scope, &mut found, p.body.as_slice())?;
    Ok(found.first())
}
