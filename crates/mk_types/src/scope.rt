//! What the names in a statement stand for.

ghost use Rattle.std.specs.Prelude.{◌≡◌, [], OnOk, bytes_eq};
ghost use Rattle.std.specs.List.{list_any};
ghost use Rattle.std.specs.Option.{option_copied};
ghost use Rattle.mk_types.specs.Scope.{inside, declared, is_loop, is_unknown};
ghost use Rattle.mk_types.specs.Outside.{outside};

use crate::names::Names;
use mk_ast::What;
use mk_base::Memory;
use mk_field::FieldId;
use std::alloc::Global;
use std::marker::Model;

/// Whether a name is one of these.
fn is_among(names: &[&[u8]], name: &[u8]) -> bool
    ensures { result ≡ list_any (λ other. bytes_eq other.now name.now) names.now }
{
    names.iter().any(|other| *other == name)
}

/// What a statement stands in: the field, the declarations, and the names of the loops around it.
#[derive(Drop)]
pub(crate) struct Scope<'a> {
    field: FieldId,
    names: Names<'a>,
    loops: Vec<&'a [u8]>,
}

impl<'a> Model for Scope<'a> {
    ghost use Rattle.std.specs.Prelude.{map};
    ghost use Rattle.mk_types.specs.Scope.{Scope};

    ghost Value = { Scope };

    ghost view = { λ s. record { field = s.field; decls = s.names; loops = map (λ name. name.now) s.loops.items } };
}

impl<'a> Scope<'a> {
    /// Within no loop.
    pub(crate) fn new(alloc: Global, field: FieldId, names: Names<'a>) -> Scope<'a>
        ensures { result ≡ record { field = field; decls = names.entry; loops = [] } }
    {
        Scope {
            field,
            names,
            loops: Vec::new(alloc),
        }
    }

    /// The field.
    pub(crate) fn field(&self) -> FieldId
        ensures { result ≡ self.now.field }
    {
        self.field
    }

    /// What a name is declared to be.
    pub(crate) fn declared(&self, name: &[u8]) -> Option<&'a What>
        ensures { option_copied result ≡ declared self.now.decls name.now }
    {
        self.names.declared(name)
    }

    /// Whether it is the name of a loop around.
    pub(crate) fn is_loop(&self, name: &[u8]) -> bool
        ensures { result ≡ is_loop self.now name.now }
    {
        is_among(&self.loops, name)
    }

    /// Whether a name is neither declared nor that of a loop around.
    pub(crate) fn is_unknown(&self, name: &[u8]) -> bool
        ensures { result ≡ is_unknown self.now name.now }
    {
        self.declared(name).is_none() && !self.is_loop(name)
    }

    /// Goes into a loop of this name.
    pub(crate) fn enter(&mut self, name: &'a [u8]) -> Result<(), Memory>
        ensures { OnOk result (self.new ≡ inside self.old name.now) }
    {
        self.loops.push(name)?;
        Ok(())
    }

    /// Goes behind the innermost loop.
    pub(crate) fn leave(&mut self)
        ensures { self.new ≡ outside self.old }
    {
        self.loops.pop();
    }
}
