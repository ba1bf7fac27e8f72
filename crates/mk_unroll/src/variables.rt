//! The operands that variables hold.

ghost use Rattle.std.specs.Prelude.{◌≡◌, [], ◌∷◌, ◌++◌, slice_index_or, slice_set, OnOk};
ghost use Rattle.mk_ssa.specs.declared.Operand.TheVariants.{Block};
ghost use Rattle.mk_types.specs.Environment.{element, stored};

use mk_base::Memory;
use mk_ssa::Operand;
use std::alloc::Global;
use std::marker::Model;

/// The operands of the elements of each declaration's variable, and none for a map.
#[derive(Debug, Drop)]
pub(crate) struct Variables {
    variables: Vec<Vec<Operand>>,
}

impl Model for Variables {
    ghost use Rattle.std.specs.Prelude.{List, map};
    ghost use Rattle.mk_ssa.specs.declared.Operand.{Operand};
    ghost use Rattle.mk_types.specs.Environment.{Environment};

    ghost Value = { Environment Operand };

    ghost view = { λ v. map (λ variable. variable.items) v.variables.items };
}

/// Changes element `index`, where there is one.
fn put(variable: &mut Vec<Operand>, index: usize, operand: Operand)
    ensures { variable.new.items ≡ slice_set variable.old.items index operand }
{
    if index < variable.len() {
        variable[index] = operand;
    }
}

impl Variables {
    /// No variable. It takes no memory.
    pub(crate) fn new(alloc: Global) -> Variables
        ensures { result ≡ [] }
    {
        Variables {
            variables: Vec::new(alloc),
        }
    }

    /// Appends a variable.
    pub(crate) fn push(&mut self, variable: Vec<Operand>) -> Result<(), Memory>
        ensures { OnOk result (self.new ≡ self.old ++ variable.items ∷ []) }
    {
        self.variables.push(variable)?;
        Ok(())
    }

    /// The operands of a variable.
    pub(crate) fn variable(&self, number: usize) -> &[Operand]
        ensures { result.now ≡ slice_index_or self.now number [] }
    {
        match self.variables.get(number) {
            Some(variable) => variable.as_slice(),
            None => &[],
        }
    }

    /// Element `index` of a variable, and the constant 00 where there is none.
    pub(crate) fn read(&self, number: usize, index: usize) -> Operand
        ensures { result ≡ element self.now number index (Block 0) }
    {
        match self.variable(number).get(index) {
            Some(operand) => *operand,
            None => Operand::Block(0),
        }
    }

    /// Changes element `index` of a variable, where there is one.
    pub(crate) fn write(&mut self, number: usize, index: usize, operand: Operand)
        ensures { self.new ≡ stored self.old number index operand }
    {
        if number >= self.variables.len() {
            return;
        }
        put(&mut self.variables[number], index, operand);
    }
}
