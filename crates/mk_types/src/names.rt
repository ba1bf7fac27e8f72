//! The names that a program declares.

ghost use Rattle.std.specs.Prelude.{◌≡◌, ◌≤◌, [], ◌∷◌, ◌++◌, List, length, option_to_list, OnOk, IfOk};
ghost use Rattle.std.specs.Option.{option_copied};
ghost use Rattle.mk_ast.specs.declared.tree.Decl.{Decl as Declared};
ghost use Rattle.mk_types.specs.Scope.{declared};
ghost use Rattle.mk_types.specs.Elements.{number_of, map_in, map_number};
ghost use Rattle.mk_types.specs.Known.{Knows, next_entry};

use indexmap::IndexMap;
use mk_ast::{Decl, What};
use mk_base::Memory;
use std::alloc::Global;
use std::marker::Model;

/// Where the first declaration of a name stands: its number among all, and how many maps are declared
/// before it, which is a map's number among the maps.
#[derive(Clone, Copy, Debug)]
pub(crate) struct Entry {
    number: usize,
    map: u32,
}

/// A table of the first declaration of each name.
type Table<'a> = IndexMap<&'a [u8], Entry>;

/// Notes a declaration in the table of those before it.
fn note<'a>(table: &mut Table<'a>, decl: &'a Decl, entry: Entry) -> Result<(), Memory>
    ensures { OnOk result ((decls : List Declared) → entry ≡ next_entry decls → Knows table.old decls → Knows table.new (decls ++ decl.now ∷ [])) }
{
    let name = decl.name.as_slice();
    if !table.contains_key(name) {
        table.insert(name, entry)?;
    }
    Ok(())
}

/// How many maps a declaration makes.
fn maps_in(what: &What) -> u32
    ensures maps { result ≡ length (option_to_list (map_in what.now)) }
    ensures one { result ≤ 1 }
{
    match what {
        What::Map { .. } => 1,
        What::Var { .. } => 0,
    }
}

/// The declarations of a program, with the table of their names. Contracts see them as the list of the
/// declarations.
#[derive(Drop)]
pub struct Names<'a> {
    decls: &'a [Decl],
    maps: u32,
    table: Table<'a>,
}

impl<'a> Model for Names<'a> {
    ghost use Rattle.std.specs.Prelude.{◌≡◌, List, length};
    ghost use Rattle.mk_ast.specs.declared.tree.Decl.{Decl};
    ghost use Rattle.mk_types.specs.Elements.{maps_of};
    ghost use Rattle.mk_types.specs.Known.{Knows};

    ghost Value = { List Decl };

    ghost view = { λ n. n.decls.now };

    ghost invariant = { λ n. (n.maps ≡ length (maps_of n.decls.now)) × Knows n.table n.decls.now };
}

impl<'a> Names<'a> {
    /// These declarations, with their table. No table has memory for 2^32 declarations.
    pub fn new(alloc: Global, decls: &'a [Decl]) -> Result<Names<'a>, Memory>
        ensures { IfOk result (λ names. names ≡ decls.now) }
    {
        if decls.len() > 0xffff_ffff {
            return Err(Memory);
        }
        let mut table = IndexMap::new(alloc);
        let mut maps = 0;
        for (number, decl) in decls.iter().enumerate() {
            note(&mut table, decl, Entry { number, map: maps })?;
            maps += maps_in(&decl.what);
        }
        Ok(Names { decls, maps, table })
    }

    /// The number of the first declaration of a name, and how many there are where there is none.
    pub fn number(&self, name: &[u8]) -> usize
        ensures { result ≡ number_of self.now name.now }
    {
        match self.table.get(name) {
            Some(entry) => entry.number,
            None => self.decls.len(),
        }
    }

    /// What the first declaration of a name says.
    pub fn declared(&self, name: &[u8]) -> Option<&'a What>
        ensures { option_copied result ≡ declared self.now name.now }
    {
        let number = self.number(name);
        if number >= self.decls.len() {
            return None;
        }
        Some(&self.decls[number].what)
    }

    /// The number of the map of a name among the maps.
    pub fn map_number(&self, name: &[u8]) -> u32
        ensures { result ≡ map_number self.now name.now }
    {
        match self.table.get(name) {
            Some(entry) => entry.map,
            None => self.maps,
        }
    }
}
