//! The program of a table.

ghost use Rattle.std.specs.Prelude.{◌≡◌, IfOk};
ghost use Rattle.mk_ast.specs.Regular.{IsRegular};
ghost use Rattle.mk_types.specs.Offences.{IsWellTyped};
ghost use Rattle.mk_unroll.specs.Causes.{Ends};
ghost use Rattle.mk_table.specs.Source.{table_source};
ghost use Rattle.mk_table.specs.Table.{Computes, HasProducts};

use crate::coefficients::coefficients_of;
use crate::source::source;
use mk_ast::Program;
use mk_base::Memory;
use std::alloc::Global;

/// The program of a table, over bytes: it has one secret, x, and one output, which is the element of the
/// table at x. It is the polynomial of the table, as one sum of additive maps of powers of x, with 34
/// products. Every place is line 1, column 1. `Memory` comes where memory is wanted and not found.
pub fn program_of_table(alloc: Global, table: &[u8; 256]) -> Result<Program, Memory>
    ensures program { IfOk result (λ p. p ≡ table_source table.now) }
    ensures regular { IfOk result (λ p. IsRegular p) }
    ensures typed { IfOk result (λ p. IsWellTyped p) }
    ensures ends { IfOk result (λ p. Ends p) }

    // At each element it gives the element of the table.
    ensures computes { IfOk result (λ p. Computes table.now p) }

    // Its values, simplified, have 34 products of shared values.
    ensures products { IfOk result (λ p. HasProducts 34 p) }
{
    let coefficients = coefficients_of(alloc, table)?;
    source(alloc, coefficients.as_slice())
}
