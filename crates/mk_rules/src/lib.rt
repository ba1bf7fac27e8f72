//! Certificates: the list of blocks that a code is made of, and the claims that say which values its
//! outputs share; what blocks cost; and, as definitions, the rule by which code is accepted with one, and
//! the law that accepted code is private.
#![tactic(auto)]

mod cert;
mod costs;
mod laws;
mod numbers;
mod products;
mod rows;
mod uses;

/// The most blocks of a certificate that has a bundle text.
pub const MOST_BLOCKS: u32 = 131_072;

/// The most claims of a certificate that has a bundle text, one for each output.
pub const MOST_CLAIMS: u32 = 65_536;

pub use cert::{Bundle, Cert};
pub use costs::{Price, cost};
pub use laws::accepted_law;
pub use numbers::value_number;
pub use products::{is_product, product_numbers};
pub use rows::{first_pair, has_bit, join_rows, rows_clash, set_bit};
pub use uses::{OperandPlace, shared_numbers, uses_of};
