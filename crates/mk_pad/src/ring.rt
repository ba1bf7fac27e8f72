//! Polynomials over a field in some variables.

ghost use Rattle.std.specs.Prelude.{◌≡◌, ◌+◌, ◌<◌, ◌^◌, [], ◌∷◌, length, map, replicate, slice_set, IfOk, OnOk};
ghost use Rattle.std.specs.List.{AllByRecursion, flat_map};
ghost use Rattle.mk_field.specs.Field.{size};
ghost use Rattle.mk_pad.specs.Polynomial.{IsTerm, plus, times, squared, reduced, term_product};
ghost use Rattle.mk_pad.specs.Positions.{variable, constant};
ghost use Rattle.mk_pad.specs.Value.{sum_all};

use crate::term::Term;
use crate::terms::{add_term, add_terms, copy_terms};
use mk_base::{Items, Memory};
use mk_field::FieldId;
use std::alloc::Global;

/// A polynomial: its terms, no two of which have the same exponents.
pub(crate) type Polynomial = Items<Term>;

/// The polynomials over a field in so many variables.
#[derive(Clone, Copy)]
pub(crate) struct Ring {
    pub(crate) alloc: Global,
    pub(crate) field: FieldId,
    pub(crate) variables: u32,
}

impl Ring {
    /// The variable with this number.
    pub(crate) fn variable(&self, number: u32) -> Result<Polynomial, Memory>
        requires { number < self.now.variables }
        ensures { IfOk result (λ p. p ≡ variable self.now.variables number) }
    {
        let mut exponents = vec![in self.alloc; 0; self.variables as usize]?;
        exponents[number as usize] = 1;
        self.single(exponents, 1)
    }

    /// A constant.
    pub(crate) fn constant(&self, value: u8) -> Result<Polynomial, Memory>
        ensures { IfOk result (λ p. p ≡ constant self.now.variables value) }
    {
        if value == 0 {
            return Ok(Items::new(self.alloc));
        }
        let exponents = vec![in self.alloc; 0; self.variables as usize]?;
        self.single(exponents, value)
    }

    /// A polynomial of one term.
    fn single(&self, exponents: Vec<u8>, coefficient: u8) -> Result<Polynomial, Memory>
        requires { length exponents.items < 2 ^ 32 }
        ensures { IfOk result (λ p. p ≡ record { exponents = exponents.items; coefficient = coefficient } ∷ []) }
    {
        let mut terms = Items::new(self.alloc);
        terms.push(Term {
            exponents: Items::from_vec(exponents),
            coefficient,
        })?;
        Ok(terms)
    }

    /// An equal polynomial.
    pub(crate) fn copy(&self, terms: &[Term]) -> Result<Polynomial, Memory>
        ensures { IfOk result (λ p. p ≡ terms.now) }
    {
        Items::try_from_vec(copy_terms(self.alloc, terms)?)
    }

    /// The sum of two polynomials.
    pub(crate) fn plus(&self, left: &[Term], right: &[Term]) -> Result<Polynomial, Memory>
        ensures { IfOk result (λ p. p ≡ plus left.now right.now) }
    {
        let mut terms = copy_terms(self.alloc, left)?;
        add_terms(self.alloc, &mut terms, right)?;
        Items::try_from_vec(terms)
    }

    /// The sum of polynomials.
    pub(crate) fn sum(&self, polynomials: &[Polynomial]) -> Result<Polynomial, Memory>
        ensures { IfOk result (λ p. p ≡ sum_all polynomials.now) }
    {
        let mut terms = Vec::new(self.alloc);
        for polynomial in polynomials {
            add_terms(self.alloc, &mut terms, polynomial.as_slice())?;
        }
        Items::try_from_vec(terms)
    }

    /// The product of two polynomials.
    pub(crate) fn times(&self, left: &[Term], right: &[Term]) -> Result<Polynomial, Memory>
        requires left { AllByRecursion (IsTerm self.now.field self.now.variables) left.now }
        requires right { AllByRecursion (IsTerm self.now.field self.now.variables) right.now }
        ensures { IfOk result (λ p. p ≡ times self.now.field left.now right.now) }
    {
        let mut terms = Vec::new(self.alloc);
        for term in left {
            self.add_products(&mut terms, term, right)?;
        }
        Items::try_from_vec(terms)
    }

    /// The square of a polynomial.
    pub(crate) fn squared(&self, terms: &[Term]) -> Result<Polynomial, Memory>
        requires { AllByRecursion (IsTerm self.now.field self.now.variables) terms.now }
        ensures { IfOk result (λ p. p ≡ squared self.now.field terms.now) }
    {
        let mut squares = Vec::new(self.alloc);
        for term in terms {
            add_term(&mut squares, self.term_product(term, term)?)?;
        }
        Items::try_from_vec(squares)
    }

    /// Adds the products of a term with others.
    fn add_products(
        &self,
        terms: &mut Vec<Term>,
        factor: &Term,
        others: &[Term],
    ) -> Result<(), Memory>
        requires factor { IsTerm self.now.field self.now.variables factor.now }
        requires others { AllByRecursion (IsTerm self.now.field self.now.variables) others.now }
        ensures { OnOk result (terms.new.items ≡ plus terms.old.items (map (term_product self.now.field factor.now) others.now)) }
    {
        for other in others {
            add_term(terms, self.term_product(factor, other)?)?;
        }
        Ok(())
    }

    /// The product of two terms.
    fn term_product(&self, left: &Term, right: &Term) -> Result<Term, Memory>
        requires left { IsTerm self.now.field self.now.variables left.now }
        requires right { IsTerm self.now.field self.now.variables right.now }
        ensures { IfOk result (λ t. t ≡ term_product self.now.field left.now right.now) }
    {
        let first = left.exponents.as_slice();
        let second = right.exponents.as_slice();
        let mut exponents = Items::new(self.alloc);
        for i in 0..first.len() {
            exponents.push(reduced_sum(self.field, first[i], second[i]))?;
        }
        Ok(Term {
            exponents,
            coefficient: self.field.mul(left.coefficient, right.coefficient),
        })
    }
}

/// The sum of two reduced exponents, reduced.
fn reduced_sum(field: FieldId, left: u8, right: u8) -> u8
    requires left { left < size field }
    requires right { right < size field }
    ensures { result ≡ reduced field (left + right) }
{
    let sum = u16::from(left) + u16::from(right);
    let reduced = if sum < field.size() {
        sum
    } else {
        sum - (field.size() - 1)
    };
    reduced as u8
}
