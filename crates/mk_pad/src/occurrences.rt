//! Which variables occur in the polynomials of positions, and which random elements are added in them.

ghost use Rattle.std.specs.Prelude.{◌≡◌, ◌<◌, ◌≤◌, ◌↔◌, IsTrue, IfOk, length, map};
ghost use Rattle.std.specs.List.{AllByRecursion, range_with_len};
ghost use Rattle.mk_pad.specs.Shown.{occurs, IsAdded};
ghost use Rattle.mk_pad.specs.Looking.{AreAdded, AreNoted, IsNoted};

use crate::ring::Polynomial;
use crate::term::{Term, has_variable, is_variable};
use mk_base::{Items, Memory};
use std::alloc::Global;

/// The variables of a position's polynomial.
#[derive(Debug, Drop)]
pub(crate) struct Occurrences {
    /// Whether each variable occurs.
    pub(crate) occurring: Items<bool>,
    /// The random elements that are added, in ascending order.
    pub(crate) added: Items<u32>,
}

/// Whether a variable occurs in a polynomial.
fn occurs(terms: &[Term], variable: u32) -> bool
    requires { AllByRecursion (λ t. variable < length t.exponents) terms.now }
    ensures { result ≡ occurs variable terms.now }
{
    for term in terms {
        if has_variable(term, variable) {
            return true;
        }
    }
    false
}

/// Whether a variable, of so many, is a summand of a polynomial by itself, and occurs in no other of its terms.
fn is_added(terms: &[Term], variable: u32, variables: u32) -> bool
    requires terms { AllByRecursion (λ t. length t.exponents ≡ variables) terms.now }
    requires variable { variable < variables }
    ensures { IsTrue result ↔ IsAdded variables variable terms.now }
{
    let mut found = false;
    for term in terms {
        if has_variable(term, variable) {
            if found || !is_variable(term, variable) {
                return false;
            }
            found = true;
        }
    }
    found
}

/// The variables from `shares` on that are added in a polynomial in so many variables.
fn added_to(
    alloc: Global,
    terms: &[Term],
    shares: u32,
    variables: u32,
) -> Result<Items<u32>, Memory>
    requires terms { AllByRecursion (λ t. length t.exponents ≡ variables) terms.now }
    requires shares { shares ≤ variables }
    ensures { IfOk result (λ added. AreAdded shares variables variables terms.now added) }
{
    let mut added = Items::new(alloc);
    for variable in shares..variables {
        if is_added(terms, variable, variables) {
            added.push(variable)?;
        }
    }
    Ok(added)
}

/// Whether each of so many variables occurs in a polynomial.
fn occurring_in(alloc: Global, terms: &[Term], variables: u32) -> Result<Items<bool>, Memory>
    requires { AllByRecursion (λ t. length t.exponents ≡ variables) terms.now }
    ensures { IfOk result (λ occurring. occurring ≡ map (λ v. occurs v terms.now) (range_with_len 0 variables)) }
{
    let mut occurring = Items::new(alloc);
    for variable in 0..variables {
        occurring.push(occurs(terms, variable))?;
    }
    Ok(occurring)
}

/// The occurrences of a polynomial in so many variables, of which the first are shares.
fn note(alloc: Global, terms: &[Term], shares: u32, variables: u32) -> Result<Occurrences, Memory>
    requires terms { AllByRecursion (λ t. length t.exponents ≡ variables) terms.now }
    requires shares { shares ≤ variables }
    ensures { IfOk result (λ o. IsNoted shares variables terms.now o) }
{
    Ok(Occurrences {
        occurring: occurring_in(alloc, terms, variables)?,
        added: added_to(alloc, terms, shares, variables)?,
    })
}

/// The occurrences of polynomials in so many variables, of which the first are shares.
pub(crate) fn find_occurrences(
    alloc: Global,
    positions: &[Polynomial],
    shares: u32,
    variables: u32,
) -> Result<Items<Occurrences>, Memory>
    requires terms { AllByRecursion (λ ps. AllByRecursion (λ t. length t.exponents ≡ variables) ps) positions.now }
    requires shares { shares ≤ variables }
    ensures { IfOk result (λ rows. AreNoted shares variables positions.now rows) }
{
    let mut rows = Items::new(alloc);
    for position in positions {
        rows.push(note(alloc, position.as_slice(), shares, variables)?)?;
    }
    Ok(rows)
}
