//! Running codes: the encodings of secrets, the trace of one run, the random elements that a seed gives,
//! and how many tapes show each tuple of values in two worlds.
#![tactic(auto)]

mod counting;
mod encoding;
mod inputs;
mod limits;
mod masked;
mod refusal;
mod runner;
mod running;
mod seed;
mod table;
mod tally;

pub use counting::count;
pub use encoding::encode_all;
pub use inputs::tape_len_of;
pub use masked::run_masked;
pub use refusal::{CountRefusal, RunRefusal};
pub use running::{Trace, run_code};
pub use seed::tape_from_seed;
pub use table::{Row, Table, table_law};
