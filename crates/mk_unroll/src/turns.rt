//! The loops around a statement that is executed.

ghost use Rattle.std.specs.Prelude.{◌≡◌, ◌-◌, [], take, length, OnOk};
ghost use Rattle.mk_types.specs.Turns.{turn_number, in_turn};

use mk_base::Memory;
use std::alloc::Global;
use std::marker::Model;

/// A loop in one of its turns.
#[derive(Clone, Copy, Debug)]
struct Turn<'a> {
    name: &'a [u8],
    number: u32,
}

/// The loops around, each with the number of its present turn, the outermost first.
#[derive(Debug, Drop)]
pub(crate) struct Turns<'a> {
    turns: Vec<Turn<'a>>,
}

impl<'a> Model for Turns<'a> {
    ghost use Rattle.std.specs.Prelude.{List, map};
    ghost use Rattle.mk_types.specs.Turns.{Turn};

    ghost Value = { List Turn };

    ghost view = { λ t. map (λ turn. record { name = turn.name.now; number = turn.number }) t.turns.items };
}

impl<'a> Turns<'a> {
    /// No loop around. It takes no memory.
    pub(crate) fn new(alloc: Global) -> Turns<'a>
        ensures { result ≡ [] }
    {
        Turns {
            turns: Vec::new(alloc),
        }
    }

    /// The number of the present turn of the loop of this name.
    pub(crate) fn number(&self, name: &[u8]) -> u32
        ensures { result ≡ turn_number self.now name.now }
    {
        for turn in self.turns.as_slice() {
            if turn.name == name {
                return turn.number;
            }
        }
        0
    }

    /// Goes into a turn of one more loop.
    pub(crate) fn enter(&mut self, name: &'a [u8], number: u32) -> Result<(), Memory>
        ensures { OnOk result (self.new ≡ in_turn self.old name.now number) }
    {
        self.turns.push(Turn { name, number })?;
        Ok(())
    }

    /// Goes behind the innermost turn.
    pub(crate) fn leave(&mut self)
        ensures { self.new ≡ take (length self.old - 1) self.old }
    {
        self.turns.pop();
    }
}
