//! The table of what an observer sees in two worlds.

ghost use Rattle.mk_run.specs.Table.{OneTable};

use mk_base::{Bytes, Items};

/// A tuple of values that an observer sees, and the number of tapes that show it in the first world and in
/// the second.
#[derive(Debug, Drop)]
pub struct Row {
    pub seen: Bytes,
    pub first: u64,
    pub second: u64,
}

/// The rows of all tuples that come in one of the worlds, in ascending order.
pub type Table = Items<Row>;

/// The law of tables: a count has one. It does nothing.
pub fn table_law()
    ensures { OneTable }
{}
