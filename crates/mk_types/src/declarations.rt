//! The offences of declarations.

ghost use Rattle.std.specs.Prelude.{◌≡◌, ◌++◌, [], OnOk, IfOk};
ghost use Rattle.mk_types.specs.declared.offence.OffenceKind.TheVariants as kind_;
ghost use Rattle.mk_types.specs.Noted.{noted};
ghost use Rattle.mk_types.specs.Offences.{when, is_no_map_of, decls_offences};

use crate::found::Found;
use crate::kinds::is_no_map_of;
use crate::names::Names;
use crate::offence::OffenceKind;
use mk_ast::Decl;
use mk_base::Memory;
use mk_field::FieldId;
use std::alloc::Global;

/// Notes the offences of a declaration, whose name may be taken.
#[tactic(auto, using(crate::proofs::Lists::noted_append))]
fn check_decl(field: FieldId, found: &mut Found, is_taken: bool, decl: &Decl)
    ensures { found.new ≡ noted found.old (when is_taken decl.now.at kind_.Twice ++ when (is_no_map_of field decl.now.what) decl.now.at kind_.MapForm) }
{
    found.note_if(is_taken, decl.at, OffenceKind::Twice);
    found.note_if(
        is_no_map_of(field, &decl.what),
        decl.at,
        OffenceKind::MapForm,
    );
}

/// Notes the offences of these declarations, and answers their names.
pub(crate) fn check_decls<'a>(
    alloc: Global,
    field: FieldId,
    found: &mut Found,
    decls: &'a [Decl],
) -> Result<Names<'a>, Memory>
    ensures names { IfOk result (λ names. names ≡ decls.now) }
    ensures found { OnOk result (found.new ≡ noted found.old (decls_offences field [] decls.now)) }
{
    let names = Names::new(alloc, decls)?;
    for (number, decl) in decls.iter().enumerate() {
        let is_taken = names.number(decl.name.as_slice()) < number;
        check_decl(field, found, is_taken, decl);
    }
    Ok(names)
}
