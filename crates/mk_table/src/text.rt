//! The text of the program of a table.

ghost use Rattle.std.specs.Prelude.{◌≡◌, ◌≤◌, length, IfOk};
ghost use Rattle.mk_ast.specs.declared.tree.Program.{Program};
ghost use Rattle.mk_ast.specs.Canonical.{canonical};
ghost use Rattle.mk_parse.specs.declared.TheConstants.{MOST_SOURCE_BYTES};
ghost use Rattle.mk_table.specs.Source.{table_source};
ghost use Rattle.mk_table.specs.Table.{IsTabled};

use crate::program::program_of_table;
use mk_ast::to_text;
use mk_base::{Bytes, Memory};
use std::alloc::Global;

/// The canonical text of the program of a table, of 3,723 bytes. `Memory` comes where memory is wanted and not found.
pub fn table_text(alloc: Global, table: &[u8; 256]) -> Result<Bytes, Memory>
    ensures text { IfOk result (λ text. text ≡ canonical (table_source table.now)) }
    ensures short { IfOk result (λ text. length text ≤ MOST_SOURCE_BYTES) }

    // So it spells a program that can be compiled, and that gives the elements of the table.
    ensures program { IfOk result (λ text. (p : Program) × IsTabled table.now p text) }
{
    let program = program_of_table(alloc, table)?;
    to_text(alloc, &program)
}
