ghost use Rattle.std.specs.Prelude.{◌≡◌, ◌<◌, ◌↔◌, [], ◌∷◌, IfOk, IsTrue, length, replicate, slice_set};
ghost use Rattle.mk_pad.specs.Positions.{variable};
ghost use Rattle.mk_pad.specs.Shown.{has_variable};

use mk_base::{Bytes, Memory};
use std::alloc::Global;

/// A term of a polynomial: the exponent of each variable, in order, and the coefficient.
#[derive(Debug, Drop)]
pub(crate) struct Term {
    pub(crate) exponents: Bytes,
    pub(crate) coefficient: u8,
}

/// An equal term.
pub(crate) fn copy_term(alloc: Global, term: &Term) -> Result<Term, Memory>
    ensures { IfOk result (λ copied. copied ≡ term.now) }
{
    Ok(Term {
        exponents: term.exponents.copy(alloc)?,
        coefficient: term.coefficient,
    })
}

/// Whether a term has a variable.
pub(crate) fn has_variable(term: &Term, number: u32) -> bool
    requires { number < length term.now.exponents }
    ensures { result ≡ has_variable number term.now }
{
    term.exponents.as_slice()[number as usize] != 0
}

/// Whether a term that has a variable is that variable by itself.
pub(crate) fn is_variable(term: &Term, number: u32) -> bool
    requires { number < length term.now.exponents }
    ensures { IsTrue result ↔ (term.now ∷ [] ≡ variable (length term.now.exponents) number) }
{
    term.coefficient == 1 && is_unit(term.exponents.as_slice(), number as usize)
}

/// Whether the exponents are 0 but for a 1 at this place.
fn is_unit(exponents: &[u8], place: usize) -> bool
    requires { place < length exponents.now }
    ensures { IsTrue result ↔ (exponents.now ≡ slice_set (replicate (length exponents.now) 0) place 1) }
{
    for i in 0..exponents.len() {
        if exponents[i] != u8::from(i == place) {
            return false;
        }
    }
    true
}
