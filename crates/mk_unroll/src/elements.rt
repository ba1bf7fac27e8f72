//! The elements that declarations make.

ghost use Rattle.std.specs.Prelude.{◌≡◌, true};
ghost use Rattle.mk_types.specs.Elements.{size_of, elements_in};

use mk_ast::What;

/// How many elements a variable of this size has.
pub(crate) fn size_of(size: Option<u32>) -> u32
    ensures { result ≡ size_of size }
{
    match size {
        None => 1,
        Some(size) => size,
    }
}

/// How many elements a declaration makes.
pub(crate) fn elements_in(what: &What) -> u32
    ensures { result ≡ elements_in (λ class. true) what.now }
{
    match what {
        What::Map { .. } => 0,
        What::Var { size, .. } => size_of(*size),
    }
}
