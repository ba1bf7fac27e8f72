//! Terms with the same exponents as one.

ghost use Rattle.std.specs.Prelude.{◌≡◌, ◌≢◌, ◌<◌, ◌+◌, ◌++◌, [], length, take, drop, slice_index_or, MatchOption, IfOk, OnOk};
ghost use Rattle.std.specs.List.{All, HoldsAt, AllWithin};
ghost use Rattle.mk_pad.specs.Polynomial.{with_coefficient, with_term, plus};

use crate::term::{Term, copy_term};
use mk_base::Memory;
use std::alloc::Global;

/// The first of the terms that has these exponents.
fn place_of(terms: &[Term], exponents: &[u8]) -> Option<usize>
    ensures { MatchOption result (All (λ t. t.exponents ≢ exponents.now) terms.now) (λ i. (i < length terms.now) × HoldsAt (λ t. t.exponents ≡ exponents.now) terms.now i × AllWithin (λ t. t.exponents ≢ exponents.now) terms.now 0 i) }
{
    for i in 0..terms.len() {
        if terms[i].exponents.as_slice() == exponents {
            return Some(i);
        }
    }
    None
}

/// Adds a term: where there is one with the same exponents, their coefficients are added.
pub(crate) fn add_term(terms: &mut Vec<Term>, term: Term) -> Result<(), Memory>
    ensures { OnOk result (terms.new.items ≡ with_term terms.old.items term) }
{
    match place_of(terms.as_slice(), term.exponents.as_slice()) {
        None => {
            terms.push(term)?;
        }
        Some(i) => set_coefficient(terms, i, terms[i].coefficient ^ term.coefficient),
    }
    Ok(())
}

/// Gives a term another coefficient: where that is 0, the term goes.
fn set_coefficient(terms: &mut Vec<Term>, i: usize, coefficient: u8)
    requires { i < length terms.old.items }
    ensures { terms.new.items ≡ take i terms.old.items ++ with_coefficient (slice_index_or terms.old.items i (record { exponents = []; coefficient = 0 })) coefficient (drop (i + 1) terms.old.items) }
{
    if coefficient == 0 {
        let _gone = terms.remove(i);
    } else {
        terms[i].coefficient = coefficient;
    }
}

/// Adds terms one after the other.
pub(crate) fn add_terms(alloc: Global, terms: &mut Vec<Term>, more: &[Term]) -> Result<(), Memory>
    ensures { OnOk result (terms.new.items ≡ plus terms.old.items more.now) }
{
    for term in more {
        add_term(terms, copy_term(alloc, term)?)?;
    }
    Ok(())
}

/// Equal terms.
pub(crate) fn copy_terms(alloc: Global, terms: &[Term]) -> Result<Vec<Term>, Memory>
    ensures { IfOk result (λ copied. copied.items ≡ terms.now) }
{
    let mut copied = Vec::new(alloc);
    for term in terms {
        copied.push(copy_term(alloc, term)?)?;
    }
    Ok(copied)
}
