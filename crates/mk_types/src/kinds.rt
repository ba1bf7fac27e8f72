//! What declarations say of a name.

ghost use Rattle.std.specs.Prelude.{◌≡◌, true};
ghost use Rattle.std.specs.Option.{option_copied};
ghost use Rattle.mk_types.specs.Scope.{is_variable, is_shared_class, is_input_class, is_local_public_class};
ghost use Rattle.mk_types.specs.Offences.{is_no_variable_so, is_no_map_of};

use mk_ast::{Class, What};
use mk_field::FieldId;

/// Whether it is a variable.
pub(crate) fn is_variable(what: Option<&What>) -> bool
    ensures { result ≡ is_variable (λ class. true) (option_copied what.entry) }
{
    matches!(what, Some(What::Var { .. }))
}

/// Whether it is a variable whose values are shared.
pub fn is_shared_variable(what: Option<&What>) -> bool
    ensures { result ≡ is_variable is_shared_class (option_copied what.entry) }
{
    match what {
        Some(What::Var { class, .. }) => {
            matches!(*class, Class::Secret | Class::Output | Class::LocalSecret)
        }
        _ => false,
    }
}

/// Whether it is an input.
pub(crate) fn is_input(what: Option<&What>) -> bool
    ensures { result ≡ is_variable is_input_class (option_copied what.entry) }
{
    match what {
        Some(What::Var { class, .. }) => matches!(*class, Class::Secret | Class::Public),
        _ => false,
    }
}

/// Whether it is a public variable that is no input.
pub(crate) fn is_local_public(what: Option<&What>) -> bool
    ensures { result ≡ is_variable is_local_public_class (option_copied what.entry) }
{
    match what {
        Some(What::Var { class, .. }) => matches!(*class, Class::LocalPublic),
        _ => false,
    }
}

/// Whether a name that is so declared may not stand as a reference, with or without an index: it is a
/// map, an array without an index, or a scalar with one.
pub(crate) fn is_no_variable_so(what: Option<&What>, indexed: bool) -> bool
    ensures { result ≡ is_no_variable_so (option_copied what.entry) indexed }
{
    match what {
        None => false,
        Some(What::Map { .. }) => true,
        Some(What::Var { size: None, .. }) => indexed,
        Some(What::Var { size: Some(_), .. }) => !indexed,
    }
}

/// Whether it is a map that the field does not have: maps are over the field of 256 elements, with eight
/// images.
pub(crate) fn is_no_map_of(field: FieldId, what: &What) -> bool
    ensures { result ≡ is_no_map_of field what.now }
{
    match what {
        What::Var { .. } => false,
        What::Map { images } => !(field.has_maps() && images.len() == 8),
    }
}
