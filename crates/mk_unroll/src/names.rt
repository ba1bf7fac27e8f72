//! What the names of a program stand for where it is executed.

ghost use Rattle.std.specs.Prelude.{◌≡◌};
ghost use Rattle.mk_types.specs.Elements.{array_size};
ghost use Rattle.mk_types.specs.Scope.{declared, is_variable, is_shared_class};

use crate::elements::elements_in;
use mk_types::{Names, is_shared_variable};

/// The size of the array of a name.
pub(crate) fn array_size(names: &Names, name: &[u8]) -> u32
    ensures { result ≡ array_size names.now name.now }
{
    match names.declared(name) {
        Some(what) => elements_in(what),
        None => 0,
    }
}

/// Whether a name is declared with a shared class.
pub(crate) fn is_shared(names: &Names, name: &[u8]) -> bool
    ensures { result ≡ is_variable is_shared_class (declared names.now name.now) }
{
    is_shared_variable(names.declared(name))
}
