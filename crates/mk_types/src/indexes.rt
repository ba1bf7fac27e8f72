//! The offences of indexes and references.

ghost use Rattle.std.specs.Prelude.{◌≡◌, flat_map};
ghost use Rattle.mk_types.specs.Noted.{noted};
ghost use Rattle.mk_types.specs.Offences.{index_name_offences, index_offences, link_offences, reference_offences};

use crate::found::Found;
use crate::kinds::is_no_variable_so;
use crate::offence::OffenceKind;
use crate::scope::Scope;
use mk_ast::{Index, Link, Ref};
use mk_base::Place;

/// Notes the offences of a name in an index.
#[tactic(auto, using(crate::proofs::Lists::noted_append))]
fn check_index_name(scope: &Scope, found: &mut Found, name: &[u8], at: Place)
    ensures { found.new ≡ noted found.old (index_name_offences scope.now name.now at) }
{
    found.note_if(scope.is_unknown(name), at, OffenceKind::Unknown);
    let is_declared = scope.declared(name).is_some();
    found.note_if(is_declared, at, OffenceKind::Kind);
}

/// Notes the offences of an index.
#[cycle(index)]
#[tactic(auto, using(crate::proofs::Layers::index_layers))]
fn check_index(scope: &Scope, found: &mut Found, index: &Index)
    ensures { found.new ≡ noted found.old (index_offences scope.now index.now) }
{
    match index {
        Index::Num { .. } => {}
        Index::Var { name, at } => check_index_name(scope, found, name.as_slice(), *at),
        Index::Sum { parts } => check_indexes(scope, found, parts.as_slice()),
        Index::Chain { first, rest } => {
            check_index(scope, found, first.get());
            check_links(scope, found, rest.as_slice());
        }
    }
}

/// Notes the offences of these indexes.
#[cycle(index)]
fn check_indexes(scope: &Scope, found: &mut Found, indexes: &[Index])
    ensures { found.new ≡ noted found.old (flat_map (index_offences scope.now) indexes.now) }
{
    for index in indexes {
        check_index(scope, found, index);
    }
}

/// Notes the offences of these links.
#[cycle(index)]
fn check_links(scope: &Scope, found: &mut Found, links: &[Link])
    ensures { found.new ≡ noted found.old (flat_map (link_offences scope.now) links.now) }
{
    for link in links {
        check_link(scope, found, link);
    }
}

/// Notes the offences of a link.
#[cycle(index)]
#[tactic(auto, using(crate::proofs::Layers::index_layers))]
fn check_link(scope: &Scope, found: &mut Found, link: &Link)
    ensures { found.new ≡ noted found.old (link_offences scope.now link.now) }
{
    match link {
        Link::Times { by } => check_index(scope, found, by),
        Link::Mod { .. } => {}
    }
}

/// Notes the offences of a reference.
#[tactic(auto, using(crate::proofs::Lists::noted_append))]
pub(crate) fn check_reference(scope: &Scope, found: &mut Found, reference: &Ref)
    ensures { found.new ≡ noted found.old (reference_offences scope.now reference.now) }
{
    let name = reference.name.as_slice();
    let indexed = reference.index.is_some();
    found.note_if(scope.is_unknown(name), reference.at, OffenceKind::Unknown);
    let misread = scope.is_loop(name) || is_no_variable_so(scope.declared(name), indexed);
    found.note_if(misread, reference.at, OffenceKind::Kind);
    if let Some(index) = &reference.index {
        check_index(scope, found, index);
    }
}
