//! Reading source texts: their tokens, and the programs that they spell.
#![tactic(auto)]

mod cursor;
mod declarations;
mod expressions;
mod indexes;
mod laws;
mod lexer;
mod program;
mod spelled;
mod statements;
mod token;
mod words;

/// The most bytes of a source text.
pub const MOST_SOURCE_BYTES: u32 = 1_048_576;

/// The most maps with eight images that a source text of so many bytes declares: each takes 32 bytes or more.
pub const MOST_WHOLE_MAPS: u32 = MOST_SOURCE_BYTES / 32;

pub use laws::{refusal_law, spelling_law};
pub use lexer::tokens;
pub use program::parse;
pub use token::{Token, TokenKind, TokenList};
